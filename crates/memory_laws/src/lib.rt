//! Laws of the memory of a process.
#![tactic(auto)]

mod laws;

pub use laws::{
    calls_hold_what_they_answer, elements_keep_memory, loaded_objects_keep_memory,
    memory_starts_good, new_objects_keep_memory, one_sides_keep_memory, opened_members_keep_memory,
    places_are_holds, saved_objects_keep_memory, sets_of_properties_keep_memory,
    sets_take_holds_in, writes_are_done_or_refused, writes_leave_holds_as_they_were,
};
