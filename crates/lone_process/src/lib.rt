//! One process alone over a store: it runs a script, and answers what the script asks.
#![tactic(auto)]

mod error;
mod process;

pub use error::PlayError;
pub use process::{PID, run_script};
