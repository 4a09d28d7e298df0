//! Opening stored objects over the objects of a process: the live object of a key, or one that is made of its record,
//! by operations on the store, one at a time.
#![tactic(auto)]

mod ends;
mod phase;
mod plan;
mod start;
mod step;
mod turns;

pub use phase::{Found, Phase, Raised, Raising};
pub use plan::OpenPlan;
pub use step::OpenStep;
