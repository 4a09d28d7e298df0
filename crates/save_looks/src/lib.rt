//! What stands under the key of an object that is saved: nothing yet, where the object is new, and else its old record, by
//! operations on the store, one at a time.
#![tactic(auto)]

mod call;
mod phase;
mod plan;
mod taking;

pub use call::{LookCall, LookStep, Looked, SaveItem};
pub use phase::Phase;
pub use plan::LookPlan;
