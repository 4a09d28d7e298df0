//! Dumps: the text of nodes with their values.
#![tactic(auto)]

mod line;
mod value;

pub use line::{dump, line_text, push_line};
pub use value::push_value;
