//! Laws of the keys that the memory of a process names.
#![tactic(auto)]

mod laws;

pub use laws::{
    calls_name_no_more_keys, elements_name_no_more_keys, new_objects_name_no_more_keys,
    one_sides_name_no_more_keys, places_name_no_more_keys, slot_sets_name_no_more_keys,
    writes_name_no_more_keys,
};
