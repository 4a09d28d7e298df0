//! The classes of a schema that class trees mean.
#![tactic(auto)]

mod build;
mod kinds;

pub use build::build_classes;
