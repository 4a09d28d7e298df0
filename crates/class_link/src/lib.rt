//! Links the class trees of all class files to one schema, or says which class can't be linked, and why.
#![tactic(auto)]

mod error;
mod late;
mod linking;
mod passes;

pub use error::{LinkError, LinkWhy};
pub use linking::link;
