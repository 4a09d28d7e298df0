use lone_process::PlayError;
use obj_kinds::NoMemory;
use std::alloc::{AllocError, AllocFailed};
use std::io;
use std::process::ExitCode;

/// Why the program stops.
#[derive(Clone, Copy, Debug, PartialEq, Eq)]
pub enum Failure {
    /// A word is no size.
    Words,
    /// Memory or the volume ran out.
    Room,
    /// A clock or the output failed.
    Outside,
    /// A script is refused, or doesn't come to its end.
    Script,
}

impl Failure {
    /// The status that the program ends with.
    pub fn status(self) -> ExitCode {
        match self {
            Failure::Words => ExitCode::from(7),
            Failure::Room => ExitCode::from(3),
            Failure::Outside => ExitCode::from(5),
            Failure::Script => ExitCode::from(1),
        }
    }
}

impl From<NoMemory> for Failure {
    fn from(_: NoMemory) -> Failure {
        Failure::Room
    }
}

impl From<AllocError> for Failure {
    fn from(_: AllocError) -> Failure {
        Failure::Room
    }
}

impl<T: Drop> From<AllocFailed<T>> for Failure {
    fn from(_: AllocFailed<T>) -> Failure {
        Failure::Room
    }
}

impl From<PlayError> for Failure {
    fn from(error: PlayError) -> Failure {
        match error {
            PlayError::NoMemory => Failure::Room,
            PlayError::Volume => Failure::Room,
            PlayError::Call => Failure::Script,
            PlayError::Long => Failure::Script,
        }
    }
}

impl From<io::Error> for Failure {
    fn from(_: io::Error) -> Failure {
        Failure::Outside
    }
}
