//! Ids for the new objects of a save, drawn one after the other from the counters of their extents.
#![tactic(auto)]

mod drawing;
mod judging;
mod plan;

pub use drawing::{DrawStep, Drawing, Drawn, Newcomer, Phase};
pub use plan::DrawPlan;
