//! The grammar of scripts, and their expressions, read with exact places.
#![tactic(auto)]

mod build;
mod expressions;
mod given;
mod limits;
mod names;
mod words;

pub use build::{operand_of, plain, with_members};
pub use expressions::{
    args, begins_called, called, expression, global, primary, signs, some_place, uncalled, value,
};
pub use given::{Callee, Ground, Path, Spot};
pub use limits::too_deep;
pub use names::{member_name, opens, variable};
pub use script_tokens::ScriptWhy;
