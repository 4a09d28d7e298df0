//! Calls of class methods: which method a call begins with which code, and what its first variables are.
#![tactic(auto)]

mod arguments;
mod names;
mod program;

pub use arguments::bind;
pub use names::full_name;
pub use program::{Callee, Codes, Program};
