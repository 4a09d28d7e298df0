use obj_kinds::{NoMemory, Node, Subs};
use std::alloc::AllocError;

/// Why nothing is read at a step.
#[derive(Debug, Drop)]
pub enum ReadError {
    /// The node with these subscripts below the row is missing or has the wrong form; no subscripts: the row.
    Damaged(Subs),
    /// Memory ran out.
    NoMemory,
}

/// Why nodes give no record.
#[derive(Debug, Drop)]
pub enum FormError {
    /// This node is missing, has the wrong form, or is one too many.
    Damaged(Node),
    /// Memory ran out.
    NoMemory,
}

impl From<NoMemory> for ReadError {
    ghost use Rattle.std.specs.Prelude.{◌≡◌};
    ghost use Rattle.record_reading.specs.declared.error.ReadError.TheVariants.{NoMemory};

    ghost from_gives = { λ _ e. e ≡ NoMemory };

    fn from(_: NoMemory) -> ReadError {
        ReadError::NoMemory
    }
}

impl From<AllocError> for ReadError {
    ghost use Rattle.std.specs.Prelude.{◌≡◌};
    ghost use Rattle.record_reading.specs.declared.error.ReadError.TheVariants.{NoMemory};

    ghost from_gives = { λ _ e. e ≡ NoMemory };

    fn from(_: AllocError) -> ReadError {
        ReadError::NoMemory
    }
}

impl From<NoMemory> for FormError {
    ghost use Rattle.std.specs.Prelude.{◌≡◌};
    ghost use Rattle.record_reading.specs.declared.error.FormError.TheVariants.{NoMemory};

    ghost from_gives = { λ _ e. e ≡ NoMemory };

    fn from(_: NoMemory) -> FormError {
        FormError::NoMemory
    }
}
