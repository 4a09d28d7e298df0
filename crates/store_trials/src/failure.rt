use obj_kinds::{NoMemory, SubError};
use std::alloc::{AllocError, AllocFailed};
use std::io;
use std::process::ExitCode;
use store_core::ApplyError;

/// Why the program stops.
#[derive(Clone, Copy, Debug, PartialEq, Eq)]
pub enum Failure {
    /// A line of the cases isn't understood.
    Line,
    /// Memory ran out.
    Room,
    /// A file or the output failed.
    Outside,
    /// An operation isn't within the limits.
    Limits,
    /// A drawn turn asks for a process that isn't live.
    Process,
}

impl Failure {
    /// The status that the program ends with.
    pub fn status(self) -> ExitCode {
        match self {
            Failure::Line => ExitCode::from(7),
            Failure::Room => ExitCode::from(3),
            Failure::Outside => ExitCode::from(5),
            Failure::Limits => ExitCode::from(2),
            Failure::Process => ExitCode::from(1),
        }
    }
}

impl From<NoMemory> for Failure {
    fn from(_: NoMemory) -> Failure {
        Failure::Room
    }
}

impl From<AllocError> for Failure {
    fn from(_: AllocError) -> Failure {
        Failure::Room
    }
}

impl<T: Drop> From<AllocFailed<T>> for Failure {
    fn from(_: AllocFailed<T>) -> Failure {
        Failure::Room
    }
}

impl From<ApplyError> for Failure {
    fn from(_: ApplyError) -> Failure {
        Failure::Room
    }
}

impl From<SubError> for Failure {
    fn from(_: SubError) -> Failure {
        Failure::Line
    }
}

impl From<io::Error> for Failure {
    fn from(_: io::Error) -> Failure {
        Failure::Outside
    }
}
