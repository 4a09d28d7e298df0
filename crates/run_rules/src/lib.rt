//! What an entry of a process may be so that store and object machine stay in step, and calls of which all operations may come.
#![tactic(auto)]

mod laws;

pub use laws::{entries_keep_the_structure, good_runs_keep_worlds};
