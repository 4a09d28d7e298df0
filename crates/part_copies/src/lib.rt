//! Parts of objects in memory are copied, with the parts in them.
#![tactic(auto)]

mod copies;
mod hold;
mod make;

pub use copies::{CopySource, Made, copy_part};
pub use hold::standing;
pub use make::copy_object;
