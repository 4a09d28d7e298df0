//! Flat code of scripts: what each instruction does, which code a script has, and that the code means what the script means.
#![tactic(auto)]

mod instruction;
mod laws;

pub use instruction::{Code, Instruction};
pub use laws::{bounds_of_loops_do_not_matter, code_means_its_script};
