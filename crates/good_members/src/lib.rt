//! Laws of the objects of a process over a store: what they keep of its memory.
#![tactic(auto)]

mod laws;

pub use laws::{
    entries_keep_memory, members_that_ask_nothing_are_good, places_keep_memory,
    quiet_calls_are_good,
};
