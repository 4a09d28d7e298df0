//! Schemas that come from class files: what reading gives for linking, and so for runs.
#![tactic(auto)]

mod laws;

pub use laws::{classes_of_files_have_names_of_their_own, schemas_of_files_are_sound};
