//! Properties of objects in memory are set, and the items of lists and the elements of arrays read and set.
#![tactic(auto)]

mod array_gets;
mod array_keys;
mod arrays;
mod changes;
mod list_calls;
mod list_gets;
mod lists;
mod set;
mod stand;
mod texts;

pub use array_gets::array_get;
pub use array_keys::array_next;
pub use arrays::{array_count, array_remove, array_set};
pub use list_calls::{
    CollectionAt, list_count, list_insert, list_insert_at, list_remove, list_set,
};
pub use list_gets::list_get;
pub use set::set_prop;
