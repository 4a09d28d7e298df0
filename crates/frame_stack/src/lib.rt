//! The frames of a process: that of its script, and above it those of the methods that were called and haven't ended.
#![tactic(auto)]

mod frame;
mod laws;
mod stack;

pub use frame::RunningFrame;
pub use laws::{
    answers_go_to_the_top, ends_go_to_the_frame_below, events_are_those_of_the_process,
    methods_begin_on_top, scripts_begin_alone,
};
pub use stack::{PushError, Stack};
