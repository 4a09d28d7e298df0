//! The machine that runs the flat code of one frame: it shows an event at a time, and waits where its surroundings are to answer.
#![tactic(auto)]

mod act;
mod commands;
mod counting;
mod functions;
mod local;
mod locks;
mod machine;
mod members;
mod nodes;
mod numbers;
mod operators;
mod plain;
mod receive;
mod stack;
mod stepped;
mod store;
mod values;
mod variables;
mod work;

pub use machine::Machine;
pub use variables::Variables;
