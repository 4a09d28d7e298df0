//! The calls of objects ask only what may come, loads show the view, and what fails has a true cause.
#![tactic(auto)]

mod laws;

pub use laws::{
    loads_are_good, loads_tell_true, members_are_good, members_tell_true, raises_are_good,
    raises_tell_true,
};
