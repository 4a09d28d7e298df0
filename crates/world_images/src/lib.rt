//! Laws of the nodes of worlds: to which key each belongs, and what changes turn into what.
#![tactic(auto)]

mod law;

pub use law::{
    changes_turn_entries, changes_turn_nodes, images_are_unions, images_change_at_keys,
    nodes_are_apart, nodes_belong_to_their_key,
};
