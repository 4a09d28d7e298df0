//! What the class trees say of all classes: members with all that is inherited, sorts, and the roots above.
#![tactic(auto)]

mod facts;
mod members;
mod numbers;
mod props;
mod spots;
mod tables;
mod words;

pub use facts::{find_sorts, find_tops};
pub use members::{Members, gather_all, own_props_of, supers_at, supers_named};
pub use numbers::number_in_text;
pub use props::{index_at_spot, is_named, prop_at_spot};
pub use spots::{Spot, SpotTable};
pub use tables::{
    Tables, has_ids, has_storage, makes_parts, names_persistent, names_serial, names_unstored,
    sort_at, system_sort_of,
};
pub use words::says;
