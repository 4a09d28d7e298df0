//! Runs of processes over one store: what is noted of them, the world that their saves and deletes make, and what always holds of it.
#![tactic(auto)]

mod laws;
mod mark;

pub use laws::{
    an_empty_start_opens, the_invariant_holds_at_the_start, the_start_is_the_image_of_its_world,
    worked_calls_note_what_they_show,
};
pub use mark::{Mark, MarkKind};
