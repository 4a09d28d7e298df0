//! Deletes ask only what may come, and commit only safe changes.
#![tactic(auto)]

mod laws;

pub use laws::deletes_are_good;
