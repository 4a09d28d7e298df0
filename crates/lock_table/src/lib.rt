//! The lock table of the store: which process holds which node, how, and for how long.
//!
//! A lock counts for the node, its ancestors and its descendants. Any number of processes may hold
//! these shared, or one process in any way. A process is never stopped by its own locks.
#![tactic(auto)]

mod hold;
mod holder;
mod laws;
mod listed;
mod locks;
mod refusal;
mod rows;
mod turn;

pub use hold::{Hold, Kept};
pub use laws::{first_refuses, kept_after_changes, no_two_conflict};
pub use locks::Locks;
