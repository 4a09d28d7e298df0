//! The tokens of class files: their kinds, and the lexer with the law above it, for the cursor of text_reading. What a brace opens depends on the tokens before it, so the blocks of methods, storages and values are tokens.
#![tactic(auto)]

mod blocks;
mod chars;
mod error;
mod lex;
mod lexer;
mod mode;
mod token;

pub use chars::{Set, byte, past};
pub use error::{ClassStop, ClassWhy};
pub use lex::tokens_are_the_text;
pub use lexer::{Cursor, file_cursor};
pub use mode::Mode;
pub use token::{
    Kind, is_block, is_member_word, is_name, is_number, is_own_word, is_text, is_word, same_kind,
};
