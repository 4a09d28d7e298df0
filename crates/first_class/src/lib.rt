//! The form of a class file with one class of text properties, and the names that scripts for it use.
#![tactic(auto)]

mod form;
mod names;
mod text_class;

pub use form::{FormError, TextClass};
pub use names::{is_alphanumeric_byte, is_letter_byte, is_name};
pub use text_class::text_class_of;
