ghost use Rattle.std.specs.Prelude.{◌≡◌, ◌<◌, ◌≤◌, List, Some, None, insert, length, slice_get, slice_set};
ghost use Rattle.oref_table.specs.declared.slot.Slot.{Slot};
ghost use Rattle.oref_table.specs.declared.slot.Slot.TheVariants.{Items};

use crate::slot::{Slot, Slots};

/// A list with the item before the one at the place or at its end, or as it was, and then the item is handed
/// back.
fn with_item(items: Slots, before: usize, item: Slot) -> (Slots, Option<Slot>)
    requires { before ≤ length items }
    ensures added { result.1 ≡ None → result.0 ≡ insert items before item }
    ensures refused { (back : Slot) → result.1 ≡ Some back → (back ≡ item) × (result.0 ≡ items) }
{
    let mut items = items;
    match items.insert(before, item) {
        Ok(()) => (items, None),
        Err(refused) => (items, Some(refused.value)),
    }
}

/// Adds an item to the list in the slot, or hands it back.
pub fn insert_into(slots: &mut Slots, at: usize, before: usize, item: Slot) -> Option<Slot>
    requires within { at < length slots.old }
    requires list { (items : List Slot) × (slice_get slots.old at ≡ Some (Items items)) × (before ≤ length items) }
    ensures added { result ≡ None → (items : List Slot) × (slice_get slots.old at ≡ Some (Items items)) × (slots.new ≡ slice_set slots.old at (Items (insert items before item))) }
    ensures refused { (back : Slot) → result ≡ Some back → (back ≡ item) × (slots.new ≡ slots.old) }
{
    match slots.replace(at, Slot::Target(None)) {
        Slot::Items(items) => {
            let (items, back) = with_item(items, before, item);
            slots.set(at, Slot::Items(items));
            back
        }
        other => {
            slots.set(at, other);
            Some(item)
        }
    }
}
