ghost use Rattle.std.specs.Prelude.{◌≡◌};
ghost use Rattle.std.specs.Option.{option_copied};
ghost use Rattle.oref_table.specs.declared.slot.Slot.TheViews.{out-Slot};
ghost use Rattle.obj_kinds.specs.declared.value.Value.TheViews.{out-Value};
ghost use Rattle.obj_shape.specs.Records.{items_of, pairs_of, part_slots, slots_at, text_in, text_of};

use obj_kinds::{Sub, Value};
use oref_table::{Oref, Slot, Table};

fn value_text(value: &Value) -> &[u8]
    ensures { result.now ≡ text_in (out-Value value.now) }
{
    match value {
        Value::Str(text) => text.as_slice(),
        Value::List(_) => &[],
    }
}

/// The text of a value; empty where none stands in the slot.
pub fn slot_text(slot: &Slot) -> &[u8]
    ensures { result.now ≡ text_of (out-Slot slot.now) }
{
    match slot {
        Slot::Plain(value) => value_text(value),
        Slot::Target(_) => &[],
        Slot::To(_) => &[],
        Slot::Items(_) => &[],
        Slot::Map(_) => &[],
        Slot::Members(_) => &[],
    }
}

/// The items of a list; none where the slot has no list.
pub fn slot_items(slot: &Slot) -> &[Slot]
    ensures { result.now ≡ items_of (out-Slot slot.now) }
{
    match slot {
        Slot::Plain(_) => &[],
        Slot::Target(_) => &[],
        Slot::To(_) => &[],
        Slot::Items(slots) => slots.as_slice(),
        Slot::Map(_) => &[],
        Slot::Members(_) => &[],
    }
}

/// The elements of an array with their keys; none where the slot has no array.
pub fn slot_pairs(slot: &Slot) -> &[(Sub, Slot)]
    ensures { result.now ≡ pairs_of (out-Slot slot.now) }
{
    match slot {
        Slot::Plain(_) => &[],
        Slot::Target(_) => &[],
        Slot::To(_) => &[],
        Slot::Items(_) => &[],
        Slot::Map(pairs) => pairs.as_slice(),
        Slot::Members(_) => &[],
    }
}

/// The slots of an object; none where it isn't live.
#[tactic(auto, using(crate::proofs::KeptLaws::slots_kept, crate::proofs::KeptLaws::no_slots))]
pub fn object_slots(table: &Table, oref: Oref) -> &[Slot]
    ensures { result.now ≡ slots_at table.now oref.0 }
{
    match table.get(oref) {
        Some(obj) => obj.slots.as_slice(),
        None => &[],
    }
}

/// The slots of the part that stands in the slot, which has an object or not; `None` where there is no part.
pub fn part_in<'a>(table: &'a Table, slot: &'a Slot) -> Option<&'a [Slot]>
    ensures { option_copied result ≡ part_slots table.now (out-Slot slot.now) }
{
    match slot {
        Slot::Plain(_) => None,
        Slot::Target(_) => None,
        Slot::To(oref) => Some(object_slots(table, *oref)),
        Slot::Items(slots) => Some(slots.as_slice()),
        Slot::Map(_) => None,
        Slot::Members(_) => None,
    }
}
