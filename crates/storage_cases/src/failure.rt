use class_link::LinkError;
use class_reader::ReadError;
use obj_kinds::{NoMemory, SubError};
use std::alloc::{AllocError, AllocFailed};
use std::io;
use std::process::ExitCode;

/// Why the program stops.
#[derive(Clone, Copy, Debug, PartialEq, Eq)]
pub enum Failure {
    /// The classes aren't read or linked, or a key is no subscript.
    Cases,
    /// Memory ran out.
    Room,
    /// The output failed.
    Outside,
}

impl Failure {
    /// The status that the program ends with.
    pub fn status(self) -> ExitCode {
        match self {
            Failure::Cases => ExitCode::from(1),
            Failure::Room => ExitCode::from(3),
            Failure::Outside => ExitCode::from(5),
        }
    }
}

impl From<NoMemory> for Failure {
    fn from(_: NoMemory) -> Failure {
        Failure::Room
    }
}

impl From<AllocError> for Failure {
    fn from(_: AllocError) -> Failure {
        Failure::Room
    }
}

impl<T: Drop> From<AllocFailed<T>> for Failure {
    fn from(_: AllocFailed<T>) -> Failure {
        Failure::Room
    }
}

impl From<SubError> for Failure {
    fn from(_: SubError) -> Failure {
        Failure::Cases
    }
}

impl From<LinkError> for Failure {
    fn from(_: LinkError) -> Failure {
        Failure::Cases
    }
}

impl From<ReadError> for Failure {
    fn from(_: ReadError) -> Failure {
        Failure::Cases
    }
}

impl From<io::Error> for Failure {
    fn from(_: io::Error) -> Failure {
        Failure::Outside
    }
}
