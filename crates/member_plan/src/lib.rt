//! The members of a many side, one after the other, by operations on the store, one at a time.
#![tactic(auto)]

mod asking;
mod call;
mod phase;
mod plan;
mod side;
mod taking;

pub use call::{Member, MemberCall, MemberStep};
pub use phase::MemberPhase;
pub use plan::MemberPlan;
pub use side::{ManySide, extent_at, id_below, id_sub, many_side, members_node};
