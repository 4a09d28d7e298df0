//! What linking gives for the objects of a process.
#![tactic(auto)]

mod laws;

pub use laws::linked_schemas_are_whole;
