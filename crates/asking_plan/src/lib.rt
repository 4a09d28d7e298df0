//! What saves and deletes ask one after the other, each a lock, a write or a test, up to the first that fails.
#![tactic(auto)]

mod asking;
mod ids;
mod plan;
mod verdict;

pub use asking::{Asking, KeyBelow, MemberBelow, TargetRow, operation};
pub use ids::id_below;
pub use plan::AskingPlan;
