//! The whole invariant: what entries that may come keep of holds, levels, lists and worlds.
#![tactic(auto)]

mod laws;

pub use laws::{entries_keep_steady, safe_runs_are_steady, starts_are_steady};
