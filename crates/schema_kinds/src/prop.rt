ghost use Rattle.std.specs.Prelude.{◌≡◌, IfOk};

use crate::kind::Kind;
use obj_kinds::{NoMemory, Text};
use sqlite_items::Items;
use std::alloc::Global;

/// A property of a class, its own or inherited.
#[derive(Debug, PartialEq, Eq, Drop)]
pub struct Prop {
    pub name: Text,
    pub kind: Kind,
    /// Whether a save refuses the object while the property is empty.
    pub required: bool,
    /// What a new object has; only text, whole and truth properties start with it.
    pub initial: Text,
    /// The most bytes that a text may have; `None` is no limit.
    pub max_len: Option<u32>,
    /// The least whole number; `None` is no limit.
    pub min_val: Option<i64>,
    /// The largest whole number; `None` is no limit.
    pub max_val: Option<i64>,
}

/// The properties of a class: those of the first superclass, those that the other superclasses add, and its own.
pub type Props = Items<Prop>;

impl Prop {
    /// The same again; it fails only for want of memory.
    pub fn copy(&self, alloc: Global) -> Result<Prop, NoMemory>
        ensures { IfOk result (λ prop. prop ≡ self.now) }
    {
        let name = self.name.copy(alloc)?;
        let kind = self.kind.copy(alloc)?;
        let initial = self.initial.copy(alloc)?;
        Ok(Prop {
            name,
            kind,
            required: self.required,
            initial,
            max_len: self.max_len,
            min_val: self.min_val,
            max_val: self.max_val,
        })
    }
}

/// The same properties again; it fails only for want of memory.
pub fn copy_props(alloc: Global, props: &[Prop]) -> Result<Props, NoMemory>
    ensures { IfOk result (λ copy. copy ≡ props.now) }
{
    let mut copy = Items::new(alloc);
    for prop in props {
        copy.push(prop.copy(alloc)?)?;
    }
    Ok(copy)
}
