//! One store that passes from thread to thread. It lies in a queue with one place; who takes it has it
//! alone, and gives it back with one entry more. A [`Seat`] is the right to do so for some of its
//! processes, and knows the entries that each of these has in the history.
#![tactic(auto)]

mod crossing;
mod divide;
mod enter;
mod rule;
mod seat;
mod steps;
mod turns;
mod view;

pub use crossing::seats_cross_threads;
pub use seat::Seat;
pub use view::{Part, View};
