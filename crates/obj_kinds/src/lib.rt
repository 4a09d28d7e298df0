//! The values that all layers of the object host speak of: texts, whole numbers, subscripts, nodes,
//! stored values, ids, the operations of the store with their replies, and the causes of failures.
#![tactic(auto)]

mod cause;
mod error_name;
mod id;
mod memory;
mod name;
mod node;
mod node_print;
mod number;
mod op;
mod pairs;
mod quote;
mod sub;
mod text;
mod value;
mod whole;

pub use cause::{Cause, Why, cause_text};
pub use error_name::ErrorName;
pub use id::Id;
pub use memory::{Lack, NoMemory};
pub use name::ClassName;
pub use node::{Node, begins_with, compare_subs, copy_subs, is_global_name};
pub use node_print::{node_text, push_node};
pub use number::{NumberLimit, number_of};
pub use op::{Keep, Mode, Op, Owner, Pid, Reply};
pub use pairs::{Pairs, are_rising, search_pairs};
pub use quote::push_quoted;
pub use sub::{Sub, SubError, Subs};
pub use text::{Text, are_ascii};
pub use value::{Nodes, Value, Values, copy_nodes, copy_values, number_value};
pub use whole::{TOO_LARGE, is_whole, whole_number};
