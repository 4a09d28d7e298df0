//! Scripts read whole, with exact places.
#![tactic(auto)]

mod calls;
mod commands;
mod error;
mod lists;
mod reading;
mod simple;
mod spots;
mod targets;

pub use error::ScriptError;
pub use reading::read_script;
pub use script_tokens::ScriptWhy;
