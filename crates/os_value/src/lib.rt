//! The operators and functions of ObjectScript on values: texts and lists.
#![tactic(auto)]

mod arithmetic;
mod comparisons;
mod error;
mod laws;
mod lists;
mod numbers;
mod pieces;
mod reading;
mod texts;

pub use arithmetic::{op_add, op_minus, op_modulo, op_multiply, op_plus, op_quotient, op_subtract};
pub use comparisons::{
    op_and, op_at_least, op_at_most, op_contains, op_equal, op_follows, op_greater, op_less,
    op_not, op_or,
};
pub use error::ValueError;
pub use laws::{
    equal_values, finds_are_least, lists_of_items, parts_of_texts, pieces_of_texts,
    quotients_and_rests, texts_in_order,
};
pub use lists::{fn_list, fn_list_build, fn_list_length};
pub use pieces::fn_piece;
pub use reading::truth;
pub use texts::{fn_ascii, fn_char, fn_extract, fn_find, fn_length, op_join};
