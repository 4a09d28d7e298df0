use obj_kinds::NoMemory;
use std::alloc::{AllocError, AllocFailed};
use std::io;
use std::process::ExitCode;

/// Why the program stops.
#[derive(Clone, Copy, Debug, PartialEq, Eq)]
pub enum Failure {
    /// A word is no size.
    Words,
    /// Memory ran out.
    Room,
    /// A clock or the output failed.
    Outside,
    /// An answer is none that there can be.
    Reply,
}

impl Failure {
    /// The status that the program ends with.
    pub fn status(self) -> ExitCode {
        match self {
            Failure::Words => ExitCode::from(7),
            Failure::Room => ExitCode::from(3),
            Failure::Outside => ExitCode::from(5),
            Failure::Reply => ExitCode::from(1),
        }
    }
}

impl From<NoMemory> for Failure {
    fn from(_: NoMemory) -> Failure {
        Failure::Room
    }
}

impl From<AllocError> for Failure {
    fn from(_: AllocError) -> Failure {
        Failure::Room
    }
}

impl<T: Drop> From<AllocFailed<T>> for Failure {
    fn from(_: AllocFailed<T>) -> Failure {
        Failure::Room
    }
}

impl From<io::Error> for Failure {
    fn from(_: io::Error) -> Failure {
        Failure::Outside
    }
}
