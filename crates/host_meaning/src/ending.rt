//! How processes end, and what they may use.

use obj_kinds::{ClassName, ErrorName};

/// What a process may use.
#[derive(Clone, Copy, Debug, PartialEq, Eq)]
pub struct Limits {
    /// Its units: one for each command argument, loop test and operation of the store; 1 to 10,000,000.
    pub fuel: u32,
    /// How often a call of an object tries a lock; at least once.
    pub tries: u32,
}

/// How a process ends.
#[derive(Debug, Drop)]
pub enum Ending {
    /// By the end of its script, or by `HALT`.
    Done,
    /// By an error of a script, with the line of the command in which it was met: in its script, or in the class file of the
    /// class that declares the method of that frame.
    Error {
        name: ErrorName,
        class: Option<ClassName>,
        line: u32,
    },
    /// Memory ran out.
    NoMemory,
    /// A number of an object, or of places of one, would have passed 2^64 - 1.
    Count,
    /// Its units were used up.
    Fuel,
    /// Its next entry would have passed the volume of the history.
    Volume,
    /// A put of what it printed failed.
    DeviceFault,
}
