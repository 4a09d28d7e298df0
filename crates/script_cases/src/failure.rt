//! Why the program ends early.

use obj_kinds::NoMemory;
use std::alloc::AllocError;

/// Why the program ends early.
#[derive(Clone, Copy, Debug, PartialEq, Eq)]
pub enum Failure {
    /// A file can't be read, or is too long.
    File,
    /// Standard output can't be written.
    Print,
    NoMemory,
}

impl Failure {
    /// The program's status.
    pub fn status(self) -> u8 {
        match self {
            Failure::File => 1,
            Failure::Print => 2,
            Failure::NoMemory => 3,
        }
    }
}

impl From<NoMemory> for Failure {
    fn from(_: NoMemory) -> Failure {
        Failure::NoMemory
    }
}

impl From<AllocError> for Failure {
    fn from(_: AllocError) -> Failure {
        Failure::NoMemory
    }
}
