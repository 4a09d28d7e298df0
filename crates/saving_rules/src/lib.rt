//! What is known between the stages of a save, and that each stage finds it out.
#![tactic(auto)]

mod laws;

pub use laws::worked_objects_can_be_saved;
