//! The tokens of scripts: their kinds, and the lexer for the cursor of text_reading. Which tokens a byte begins depends on
//! what stands before: where a command may stand a word is a command's, and behind an operand `-` is an operator.
#![tactic(auto)]

mod chars;
mod error;
mod groups;
mod lex;
mod lexer;
mod mode;
mod pieces;
mod token;
mod words;

pub use chars::{Set, byte, past};
pub use error::{ScriptStop, ScriptWhy};
pub use groups::{
    begins_operand, is_command, is_function, is_looking, is_member, is_number, is_operator,
    is_sign, is_special, is_text,
};
pub use lexer::{Cursor, script_cursor};
pub use mode::Mode;
pub use token::{Kind, same_kind};
