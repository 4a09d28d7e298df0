//! One process: the frame of its script, its units, its locks, and what it asks and prints until it ends.
#![tactic(auto)]

mod end;
mod kept;
mod process;
mod turn;

pub use process::Proc;
pub use turn::Turn;
