//! Class files: the grammar of their text, read with exact places.
#![tactic(auto)]

mod classes;
mod error;
mod keys;
mod keywords;
mod limits;
mod members;
mod names;
mod properties;
mod reading;
mod values;

pub use class_tokens::ClassWhy;
pub use error::ReadError;
pub use reading::read_classes;
