//! The passes of a save over its objects: what is asked for each of them, one object after the other, up to the first operation that
//! fails.
#![tactic(auto)]

mod asking;
mod law;
mod pass;
mod works;

pub use asking::{Stage, askings_for};
pub use law::a_pass_asks_what_a_save_does;
pub use pass::Pass;
pub use works::{Olds, Works};
