//! Which rule of its class an object breaks first, and the cause that a save then names.
#![tactic(auto)]

mod fault;
mod row;
mod validity;
mod value;
mod weight;

pub use fault::{Fault, fault_cause};
pub use validity::valid;
