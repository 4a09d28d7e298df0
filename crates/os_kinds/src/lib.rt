//! The syntax trees of scripts, their values, and what a script asks of its surroundings and is answered.
#![tactic(auto)]

mod call;
mod command;
mod expression;
mod val;

pub use call::{Answer, Call, Event, ScriptEnd, Special};
pub use command::{
    Action, Assignment, Block, Branch, Claim, Command, Counting, LockAction, Output, Script, Target,
};
pub use expression::{
    Expression, Function, GlobalReference, Member, Operation, Operator, Place, Sign,
};
pub use val::{Val, Vals};
