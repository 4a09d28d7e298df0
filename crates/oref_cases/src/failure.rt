use obj_kinds::{Lack, NoMemory};
use std::alloc::{AllocError, AllocFailed};
use std::io;
use std::process::ExitCode;

/// Why the program stops.
#[derive(Clone, Copy, Debug, PartialEq, Eq)]
pub enum Failure {
    /// A line of the cases, or a word behind the program's name, isn't understood.
    Line,
    /// Memory or numbers ran out.
    Room,
    /// A file, the clock or the output failed.
    Outside,
}

impl Failure {
    /// The status that the program ends with.
    pub fn status(self) -> ExitCode {
        match self {
            Failure::Line => ExitCode::from(7),
            Failure::Room => ExitCode::from(3),
            Failure::Outside => ExitCode::from(5),
        }
    }
}

impl From<NoMemory> for Failure {
    fn from(_: NoMemory) -> Failure {
        Failure::Room
    }
}

impl From<Lack> for Failure {
    fn from(_: Lack) -> Failure {
        Failure::Room
    }
}

impl From<AllocError> for Failure {
    fn from(_: AllocError) -> Failure {
        Failure::Room
    }
}

impl<T: Drop> From<AllocFailed<T>> for Failure {
    fn from(_: AllocFailed<T>) -> Failure {
        Failure::Room
    }
}

impl From<io::Error> for Failure {
    fn from(_: io::Error) -> Failure {
        Failure::Outside
    }
}
