//! What linking gives for the names of members: no index or one side of an extent shares its name with a unique index of it.
#![tactic(auto)]

mod laws;

pub use laws::{
    linked_forms_are_own, linked_indexes_are_apart, linked_indexes_differ, linked_sides_are_apart,
};
