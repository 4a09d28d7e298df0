//! The tree of globals: a sorted map from nodes to values, with pins that keep the places of nodes
//! which were changed, so that a rollback puts their values back without memory.
#![tactic(auto)]

mod below;
mod copies;
mod place;
mod run;
mod search;
mod tree;

pub use run::Pairs;
pub use search::search_node;
pub use tree::Tree;
