//! What the index global of each extent has entries of, and the names below a row: what can clash.
#![tactic(auto)]

mod book;
mod entries;
mod entry;
mod extent;
mod extents;
mod subnodes;

pub use book::Book;
pub use entries::{count_indexes, find_entries};
pub use entry::Entry;
pub use extent::{Extent, any_clash, no_entries};
pub use extents::find_extents;
pub use subnodes::{find_subnodes, has_repeated_word};
