//! The methods of all classes with those that they inherit, each found by its class and its name without a walk.
#![tactic(auto)]

mod gather;
mod laws;
mod methods;
mod table;

pub use laws::places_are_those_of_methods;
pub use methods::MethodTable;
pub use table::MethodPlace;
