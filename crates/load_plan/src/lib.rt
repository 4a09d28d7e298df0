//! Opening a stored object by operations on the store, one at a time, and raising the level of one that is open.
#![tactic(auto)]

mod asking;
mod call;
mod law;
mod mode;
mod phase;
mod plan;
mod raise;
mod taking;

pub use call::{LoadCall, LoadStep, Loaded};
pub use law::loads_ask_for_their_own_key_alone;
pub use phase::{Phase, Reading};
pub use plan::LoadPlan;
pub use raise::{RaiseCall, RaisePhase, RaisePlan, RaiseStep, Raised};
