//! What processes mean: frames of methods over calls of the store.
#![tactic(auto)]

mod ending;
mod laws;

pub use ending::{Ending, Limits};
pub use laws::{no_process_asks_more_than_its_fuel, small_processes_mean_what_they_show};
