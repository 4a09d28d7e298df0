//! Properties of objects in memory: what they hold, and how they are read.
#![tactic(auto)]

mod content;
mod copies;
mod get;
mod got;
mod part;
mod store;

pub use content::{Content, element_content, prop_place};
pub use copies::copy_slot;
pub use get::{get_prop, hold_object, new_part};
pub use got::{Got, ShapeError};
pub use part::NewPart;
pub use store::{fill_slot, give_back, hold_again, soundness};
