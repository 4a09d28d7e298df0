//! What a process does next.

use host_meaning::Ending;
use obj_kinds::{Op, Text};

/// What a process does next.
#[derive(Debug, Drop)]
pub enum Turn {
    /// It asks an operation of the store, and waits for the reply.
    Ask(Op),
    /// It prints this text.
    Print(Text),
    /// It has ended.
    Ended(Ending),
}
