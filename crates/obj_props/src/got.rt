use obj_kinds::{ClassName, ErrorName, Lack, NoMemory, Value};
use oref_table::Held;
use schema_kinds::Key;

/// What a property or an element holds.
pub enum Got {
    /// A value; the empty text where a reference has no id.
    Plain(Value),
    /// An object, with a hold of it.
    To(Held),
    /// The key of an object that has to be opened first, in the declared class or one below it.
    Touch(Key, ClassName),
    /// A collection or a many side, which only its methods look into.
    Coll,
}

/// Why a property or a collection couldn't be read or changed.
#[derive(Clone, Copy, Debug, PartialEq, Eq)]
pub enum ShapeError {
    /// An error of the script.
    Script(ErrorName),
    /// Want of memory, or a number or count that can't rise.
    Lack(Lack),
}

impl From<Lack> for ShapeError {
    ghost use Rattle.std.specs.Prelude.{◌≡◌};
    ghost use Rattle.obj_props.specs.declared.got.ShapeError.TheVariants.{Lack};

    ghost from_gives = { λ l e. e ≡ Lack l };

    fn from(lack: Lack) -> ShapeError {
        ShapeError::Lack(lack)
    }
}

impl From<NoMemory> for ShapeError {
    ghost use Rattle.std.specs.Prelude.{◌≡◌};
    ghost use Rattle.obj_kinds.specs.declared.memory.Lack.TheVariants.{Memory};
    ghost use Rattle.obj_props.specs.declared.got.ShapeError.TheVariants.{Lack};

    ghost from_gives = { λ _ e. e ≡ Lack Memory };

    fn from(_: NoMemory) -> ShapeError {
        ShapeError::Lack(Lack::Memory)
    }
}
