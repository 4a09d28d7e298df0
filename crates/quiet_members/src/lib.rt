//! Laws of calls of objects that ask no operation.
#![tactic(auto)]

mod laws;

pub use laws::{
    calls_of_classes_are_quiet, calls_of_items_are_quiet, calls_of_objects_are_quiet,
    inserts_are_quiet, members_of_arrays_are_quiet, members_of_lists_are_quiet,
    new_objects_are_quiet, writes_are_quiet,
};
