//! Saves ask only what may come, and commit only safe changes.
#![tactic(auto)]

mod laws;

pub use laws::saves_are_good;
