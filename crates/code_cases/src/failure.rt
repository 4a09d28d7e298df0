//! Why the program ends early.

use obj_kinds::NoMemory;
use std::alloc::{AllocError, AllocFailed};
use std::io;

/// Why the program ends early.
#[derive(Clone, Copy, Debug, PartialEq, Eq)]
pub enum Failure {
    /// A file can't be read, or is too long.
    File,
    /// Standard output can't be written, or a clock fails.
    Print,
    NoMemory,
}

impl Failure {
    /// The program's status.
    pub fn status(self) -> u8 {
        match self {
            Failure::File => 1,
            Failure::Print => 2,
            Failure::NoMemory => 3,
        }
    }
}

impl From<NoMemory> for Failure {
    fn from(_: NoMemory) -> Failure {
        Failure::NoMemory
    }
}

impl From<AllocError> for Failure {
    fn from(_: AllocError) -> Failure {
        Failure::NoMemory
    }
}

impl<T: Drop> From<AllocFailed<T>> for Failure {
    fn from(_: AllocFailed<T>) -> Failure {
        Failure::NoMemory
    }
}

impl From<io::Error> for Failure {
    fn from(_: io::Error) -> Failure {
        Failure::Print
    }
}
