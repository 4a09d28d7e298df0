//! The nodes of stored objects: rows and entries of a record, and what turns the nodes of one
//! record into those of another.
#![tactic(auto)]

mod edits;
mod entry_nodes;
mod law;
mod order;
mod row;
mod row_nodes;
mod subscript;

pub use edits::{Edits, changes};
pub use entry_nodes::{entries, entry_list, entry_node, index_subs, indexed, key_node};
pub use law::{
    changes_turn_old_into_new, changes_turn_rows, keys_are_apart, nodes_without_owner_are_empty,
    rows_belong_to_their_key,
};
pub use row::{data_node, row_class};
pub use row_nodes::{element_node, named_below, row_list, rows};
