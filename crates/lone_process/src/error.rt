//! Why a script isn't run to its end.

use obj_kinds::NoMemory;
use store_core::ApplyError;

/// Why a script isn't run to its end.
#[derive(Clone, Copy, Debug, PartialEq, Eq)]
pub enum PlayError {
    NoMemory,
    /// It asks for an operation beyond the limits, or for a lock that can't be granted.
    Call,
    /// It has more than 4,294,967,295 events.
    Long,
    /// The volume of the store is used up.
    Volume,
}

impl From<NoMemory> for PlayError {
    fn from(_: NoMemory) -> PlayError {
        PlayError::NoMemory
    }
}

impl From<ApplyError> for PlayError {
    fn from(error: ApplyError) -> PlayError {
        match error {
            ApplyError::NoMemory => PlayError::NoMemory,
            ApplyError::Volume => PlayError::Volume,
        }
    }
}
