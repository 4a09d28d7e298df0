//! What a save writes: the modified persistent objects that its root reaches in memory.
#![tactic(auto)]

mod modified;
mod reach;
mod set;

pub use set::save_set;
