//! Why the program ends early.

use lone_process::PlayError;
use obj_kinds::NoMemory;
use std::alloc::AllocError;

/// Why the program ends early.
#[derive(Clone, Copy, Debug, PartialEq, Eq)]
pub enum Failure {
    /// A file can't be read, or is too long.
    File,
    /// Standard output can't be written.
    Print,
    NoMemory,
    /// A script asks for an operation beyond the limits, or for a lock that can't be granted.
    Call,
    /// A script has more events than a trial may have.
    Long,
    /// The volume of a store is used up.
    Volume,
}

impl Failure {
    /// The program's status.
    pub fn status(self) -> u8 {
        match self {
            Failure::File => 1,
            Failure::Print => 2,
            Failure::NoMemory => 3,
            Failure::Call => 4,
            Failure::Long => 5,
            Failure::Volume => 6,
        }
    }
}

impl From<NoMemory> for Failure {
    fn from(_: NoMemory) -> Failure {
        Failure::NoMemory
    }
}

impl From<AllocError> for Failure {
    fn from(_: AllocError) -> Failure {
        Failure::NoMemory
    }
}

impl From<PlayError> for Failure {
    fn from(error: PlayError) -> Failure {
        match error {
            PlayError::NoMemory => Failure::NoMemory,
            PlayError::Call => Failure::Call,
            PlayError::Long => Failure::Long,
            PlayError::Volume => Failure::Volume,
        }
    }
}
