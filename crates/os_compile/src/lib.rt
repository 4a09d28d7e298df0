//! Scripts become flat code: the function that makes it, and that what it makes is the code that a script has.
#![tactic(auto)]

mod actions;
mod arguments;
mod assignments;
mod commands;
mod conditions;
mod counting;
mod emitted;
mod exit;
mod expressions;
mod locks;
mod places;
mod receiver;

pub use commands::code_of;
