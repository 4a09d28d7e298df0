use obj_kinds::{ClassName, NoMemory, Text};
use sqlite_items::Items;
use std::alloc::AllocError;

/// A persistent class of text properties, in declared order.
#[derive(Debug, Drop)]
pub struct TextClass {
    pub name: ClassName,
    pub props: Items<Text>,
}

/// Why no class was read.
#[derive(Clone, Copy, Debug, PartialEq, Eq)]
pub enum FormError {
    /// The text does not have the form.
    NotInForm,
    NoMemory,
}

impl From<NoMemory> for FormError {
    ghost use Rattle.std.specs.Prelude.{◌≡◌};
    ghost use Rattle.first_class.specs.declared.form.FormError.TheVariants.{NoMemory};

    ghost from_gives = { λ _ e. e ≡ NoMemory };

    fn from(_: NoMemory) -> FormError {
        FormError::NoMemory
    }
}

impl From<AllocError> for FormError {
    ghost use Rattle.std.specs.Prelude.{◌≡◌};
    ghost use Rattle.first_class.specs.declared.form.FormError.TheVariants.{NoMemory};

    ghost from_gives = { λ _ e. e ≡ NoMemory };

    fn from(_: AllocError) -> FormError {
        FormError::NoMemory
    }
}
