//! The reasons against linking that look at superclasses, types, sides, indexes and parameters.
#![tactic(auto)]

mod checks;
mod climbing;
mod parameters;
mod parts;
mod sameness;

pub use checks::{
    any_bad_type, any_other_kind, any_persistent, any_to_come, any_unindexed, any_unknown_prop,
    any_unknown_super, any_unknown_type, any_without_inverse,
};
pub use climbing::mark_climbs;
pub use parameters::has_bad_parameter;
pub use parts::find_part_links;
