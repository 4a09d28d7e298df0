//! Reading the record of a key by operations on the store, one at a time: what is asked next, and what each reply
//! tells.
#![tactic(auto)]

mod asking;
mod call;
mod gathering;
mod phase;
mod plan;
mod taking;

pub use call::{Outcome, ReadCall, ReadStep};
pub use phase::{Begun, Listing, Pending, Phase, Walking};
pub use plan::ReadPlan;
