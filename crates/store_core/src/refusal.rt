use obj_kinds::NoMemory;

/// Why an operation was not applied.
#[derive(Clone, Copy, Debug, PartialEq, Eq)]
pub enum ApplyError {
    /// Memory ran out.
    NoMemory,
    /// The entry would pass the volume of the history.
    Volume,
}

impl From<NoMemory> for ApplyError {
    ghost use Rattle.std.specs.Prelude.{◌≡◌};
    ghost use Rattle.store_core.specs.declared.refusal.ApplyError.TheVariants.{NoMemory};

    ghost from_gives = { λ _ e. e ≡ NoMemory };

    fn from(_: NoMemory) -> ApplyError {
        ApplyError::NoMemory
    }
}
