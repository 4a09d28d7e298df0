//! The objects of one process in memory, with counted references: an object is live as long as a
//! slot of a live object or a hold outside the table names it.
#![tactic(auto)]

mod counts;
mod edits;
mod fill;
mod items;
mod keys;
mod laws;
mod members;
mod obj;
mod objects;
mod oref;
mod places;
mod release;
mod rows;
mod slot;
mod spot;
mod table;

pub use fill::{Fill, Place};
pub use laws::{
    drops_have_one_end, elements_stay_in_order, holds_outside_are_accounted_for,
    what_holds_itself_up_stays,
};
pub use obj::{Freed, NewObj, NewObjs, Obj, Released};
pub use oref::{Held, Oref};
pub use slot::{Orefs, Slot, SlotPairs, Slots};
pub use table::Table;
