//! What scripts mean, frame by frame.
#![tactic(auto)]

mod laws;

pub use laws::{
    each_unit_has_its_own_point, places_of_objects_are_accounted_for,
    small_scripts_mean_what_they_show,
};
