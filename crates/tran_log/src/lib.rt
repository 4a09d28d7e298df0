//! The log of a process's open transactions: for each level the values that its nodes had before
//! their first write in it. Each node that a level keeps has a pin in the tree, so that a rollback
//! takes no memory and always succeeds.
#![tactic(auto)]

mod ends;
mod kept;
mod laws;
mod log;
mod olds;
mod stack;

pub use ends::{Begun, Ended};
pub use kept::{Olds, put_all_back, unpin_all};
pub use laws::{
    inner_commits_keep_what_undoing_all_gives, levels_keep_first_values, noted_writes_are_undone,
};
pub use log::Log;
pub use olds::olds_of;
