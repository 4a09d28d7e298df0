use obj_kinds::NoMemory;
use std::alloc::{AllocError, AllocFailed};
use std::io;
use std::process::ExitCode;

/// Why the program stops.
#[derive(Clone, Copy, Debug, PartialEq, Eq)]
pub enum Failure {
    /// Memory ran out.
    Memory,
    /// The output failed.
    Output,
    /// A drawn operation isn't within the limits.
    Limits,
    /// The model has no such process.
    Process,
}

impl Failure {
    /// The status that the program ends with.
    pub fn status(self) -> ExitCode {
        match self {
            Failure::Memory => ExitCode::from(3),
            Failure::Output => ExitCode::from(5),
            Failure::Limits => ExitCode::from(2),
            Failure::Process => ExitCode::from(1),
        }
    }
}

impl From<NoMemory> for Failure {
    fn from(_: NoMemory) -> Failure {
        Failure::Memory
    }
}

impl From<AllocError> for Failure {
    fn from(_: AllocError) -> Failure {
        Failure::Memory
    }
}

impl<T: Drop> From<AllocFailed<T>> for Failure {
    fn from(_: AllocFailed<T>) -> Failure {
        Failure::Memory
    }
}

impl From<io::Error> for Failure {
    fn from(_: io::Error) -> Failure {
        Failure::Output
    }
}
