use obj_kinds::{ErrorName, NoMemory};

/// Why an operator or a function answers no value.
#[derive(Clone, Copy, Debug, PartialEq, Eq)]
pub enum ValueError {
    /// An error of the script.
    Script(ErrorName),
    /// Memory ran out.
    NoMemory,
}

impl From<ErrorName> for ValueError {
    ghost use Rattle.std.specs.Prelude.{◌≡◌};
    ghost use Rattle.os_value.specs.declared.error.ValueError.TheVariants.{Script};

    ghost from_gives = { λ name e. e ≡ Script name };

    fn from(name: ErrorName) -> ValueError {
        ValueError::Script(name)
    }
}

impl From<NoMemory> for ValueError {
    ghost use Rattle.std.specs.Prelude.{◌≡◌};
    ghost use Rattle.os_value.specs.declared.error.ValueError.TheVariants.{NoMemory as OutOfMemory};

    ghost from_gives = { λ _ e. e ≡ OutOfMemory };

    fn from(_: NoMemory) -> ValueError {
        ValueError::NoMemory
    }
}
