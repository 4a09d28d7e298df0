use std::alloc::{AllocError, AllocFailed};
use thiserror::Error;

/// Memory ran out, and nothing else went wrong.
#[derive(Clone, Copy, Debug, PartialEq, Eq, Error)]
#[error("memory ran out")]
pub struct NoMemory;

impl From<AllocError> for NoMemory {
    fn from(_: AllocError) -> NoMemory {
        NoMemory
    }
}

impl<T: Drop> From<AllocFailed<T>> for NoMemory {
    fn from(_: AllocFailed<T>) -> NoMemory {
        NoMemory
    }
}

/// What a call lacked.
#[derive(Clone, Copy, Debug, PartialEq, Eq)]
pub enum Lack {
    /// Memory ran out.
    Memory,
    /// A number of an OREF, or a count of holds of one, stands at 2^64 - 1 and would rise.
    Count,
}

impl From<NoMemory> for Lack {
    ghost use Rattle.std.specs.Prelude.{◌≡◌};
    ghost use Rattle.obj_kinds.specs.declared.memory.Lack.TheVariants.{Memory};

    ghost from_gives = { λ _ l. l ≡ Memory };

    fn from(_: NoMemory) -> Lack {
        Lack::Memory
    }
}
