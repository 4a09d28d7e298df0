//! What linking gives for runs: each linked schema is as the laws over runs ask of one.
#![tactic(auto)]

mod laws;

pub use laws::{linked_indexes_are_on_sides, linked_schemas_are_storable, linked_sides_are_paired};
