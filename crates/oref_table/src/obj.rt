ghost use Rattle.std.specs.Prelude.{◌+◌, ◌≤◌, ◌^◌, ◌↔◌, IsTrue};

use crate::slot::Slots;
use obj_kinds::{ClassName, Id};

/// An object of a table.
#[derive(Drop)]
pub struct Obj {
    /// Its own class.
    pub class: ClassName,
    /// The root class of the extent that it is of, where it can be stored.
    pub extent: Option<ClassName>,
    /// Its id in the extent, once it has one. No two live objects have both in common.
    pub id: Option<Id>,
    /// The level that it is opened at, 0 to 4.
    pub level: u8,
    /// Whether it was changed since it was read or saved. A new object isn't marked.
    pub modified: bool,
    /// What it has at its places.
    pub slots: Slots,
    /// How many places in slots and how many holds outside name it.
    pub count: u64,
}

impl Obj {
    /// Whether it has as many holders as can be counted, 2^64 - 1: a further hold is refused then.
    pub fn is_full(&self) -> bool
        ensures { IsTrue result ↔ (2 ^ 64 ≤ self.now.count + 1) }
    {
        self.count == u64::MAX
    }
}

/// What is told of an object that was released.
#[derive(Drop)]
pub struct Freed {
    pub number: u64,
    pub extent: Option<ClassName>,
    pub id: Option<Id>,
    pub level: u8,
}

/// What is told of released objects, in the order of their release.
pub type Released = Vec<Freed>;

/// An object that is to be made, together with others.
#[derive(Drop)]
pub struct NewObj {
    /// Its own class.
    pub class: ClassName,
    /// The root class of the extent that it is of, where it can be stored.
    pub extent: Option<ClassName>,
    /// The level that it is opened at, 0 to 4.
    pub level: u8,
    /// What it has at its places.
    pub slots: Slots,
}

/// Objects that are to be made together, in the order of their numbers.
pub type NewObjs = Vec<NewObj>;

/// An object with its number.
#[derive(Drop)]
pub struct Entry {
    pub number: u64,
    pub obj: Obj,
}
