//! Laws that join definitions of the calls of objects which speak of one thing.
#![tactic(auto)]

mod laws;

pub use laws::{the_test_of_classes_is_the_closure, what_is_reached_is_what_paths_lead_to};
