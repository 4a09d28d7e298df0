//! The objects of a process: what the built-in members and the properties of objects mean over its memory.
#![tactic(auto)]

mod laws;

pub use laws::sets_follow_their_rules;
