ghost use Rattle.std.specs.Prelude.{◌≡◌, ◌≢◌};
ghost use Rattle.oref_table.specs.declared.fill.Fill.{Fill};
ghost use Rattle.oref_table.specs.declared.fill.Fill.TheVariants.{Nothing};
ghost use Rattle.oref_table.specs.Filling.{slot_from};

use crate::oref::{Held, Oref};
use crate::slot::Slot;
use obj_kinds::{Id, Sub, Value};

/// A place of an object.
#[derive(Drop)]
pub enum Place {
    /// The slot of this number, counted from 0.
    Slot(u32),
    /// An item of the list in the slot, counted from 0; the number of items stands for a place after the last.
    Item(u32, u64),
    /// The element of the array in the slot that has this key, or is to have it.
    Pair(u32, Sub),
    /// One more among the members in the slot.
    Member(u32),
}

/// What is to stand at a place; nothing takes out what stands there, and leaves no id in a slot.
pub enum Fill {
    Plain(Value),
    Target(Option<Id>),
    To(Held),
    Nothing,
}

/// What stands there then. The hold passes into the slot.
pub fn slot_of(with: Fill) -> Slot
    ensures { result ≡ slot_from with }
{
    match with {
        Fill::Plain(value) => Slot::Plain(value),
        Fill::Target(id) => Slot::Target(id),
        Fill::To(held) => {
            let Held { number } = held;
            Slot::To(Oref(number))
        }
        Fill::Nothing => Slot::Target(None),
    }
}

/// What was to stand there, from what stands there. The hold passes out of the slot again.
pub fn fill_of(slot: Slot) -> Fill
    ensures { (with : Fill) → with ≢ Nothing → slot ≡ slot_from with → result ≡ with }
{
    match slot {
        Slot::Plain(value) => Fill::Plain(value),
        Slot::Target(id) => Fill::Target(id),
        Slot::To(oref) => Fill::To(Held { number: oref.0 }),
        _ => Fill::Nothing,
    }
}
