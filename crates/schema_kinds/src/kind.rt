ghost use Rattle.std.specs.Prelude.{◌≡◌, IfOk};

use obj_kinds::{ClassName, NoMemory, Text};
use std::alloc::Global;

/// What one element of a list or of an array property holds.
#[derive(Debug, PartialEq, Eq, Drop)]
pub enum Item {
    /// Any text.
    Text,
    /// A whole number, or nothing.
    Whole,
    /// 0 or 1, or nothing.
    Truth,
    /// The id of an object of the class or of one below it, or nothing.
    Ref(ClassName),
    /// A part with the fields of the serial class, or nothing.
    Serial(ClassName),
}

/// What a property holds.
#[derive(Debug, PartialEq, Eq, Drop)]
pub enum Kind {
    /// Any text: `%String`, or no type at all.
    Text,
    /// A whole number, or nothing: `%Integer` and `%Date`.
    Whole,
    /// 0 or 1, or nothing: `%Boolean`.
    Truth,
    /// The id of an object of the class or of one below it, or nothing.
    Ref(ClassName),
    /// A part with the fields of the serial class, or nothing.
    Serial(ClassName),
    /// Elements by position, counted from 1.
    ListOf(Item),
    /// Elements by key.
    ArrayOf(Item),
    /// The many side of a relationship: the class of its members, and their one side that names this object.
    Many(ClassName, Text),
    /// The one side of a relationship, which stores the id: the class of its target, and the many side there.
    One(ClassName, Text),
}

impl Item {
    /// The same again; it fails only for want of memory.
    pub fn copy(&self, alloc: Global) -> Result<Item, NoMemory>
        ensures { IfOk result (λ item. item ≡ self.now) }
    {
        match self {
            Item::Text => Ok(Item::Text),
            Item::Whole => Ok(Item::Whole),
            Item::Truth => Ok(Item::Truth),
            Item::Ref(class) => Ok(Item::Ref(class.copy(alloc)?)),
            Item::Serial(class) => Ok(Item::Serial(class.copy(alloc)?)),
        }
    }
}

impl Kind {
    /// The same again; it fails only for want of memory.
    pub fn copy(&self, alloc: Global) -> Result<Kind, NoMemory>
        ensures { IfOk result (λ kind. kind ≡ self.now) }
    {
        match self {
            Kind::Text => Ok(Kind::Text),
            Kind::Whole => Ok(Kind::Whole),
            Kind::Truth => Ok(Kind::Truth),
            Kind::Ref(class) => Ok(Kind::Ref(class.copy(alloc)?)),
            Kind::Serial(class) => Ok(Kind::Serial(class.copy(alloc)?)),
            Kind::ListOf(item) => Ok(Kind::ListOf(item.copy(alloc)?)),
            Kind::ArrayOf(item) => Ok(Kind::ArrayOf(item.copy(alloc)?)),
            Kind::Many(class, side) => Ok(Kind::Many(class.copy(alloc)?, side.copy(alloc)?)),
            Kind::One(class, side) => Ok(Kind::One(class.copy(alloc)?, side.copy(alloc)?)),
        }
    }
}
