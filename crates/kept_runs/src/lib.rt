//! Runs whose marks tell of no raw write and no low level, and processes over good objects.
#![tactic(auto)]

mod laws;

pub use laws::kept_runs_are_steady;
