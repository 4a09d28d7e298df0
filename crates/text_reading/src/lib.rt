//! The theory of reading, for texts of any kind: tokens with their places, small parsers on lists of tokens,
//! grammars as languages of tokens, and the relation that joins the two. A crate that reads texts brings its
//! own kinds of token, its own lexer and its own reasons; the laws here are proved once for all of them.
#![tactic(auto)]

mod cursor;
mod lexer;
mod marks;
mod places;
mod stop;

pub use cursor::Cursor;
pub use lexer::Lexer;
pub use marks::Marks;
pub use places::{Place, parts_have_their_places, place_at};
pub use stop::{Refusal, Stop};

#[cfg(test)]
mod tests;
