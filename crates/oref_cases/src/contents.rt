ghost use Rattle.std.specs.Prelude.{◌≡◌, Some, IfSome, is_some};
ghost use Rattle.std.specs.FinMap.{find, is_sorted};
ghost use Rattle.std.specs.FinMap.Entries.{below_all};
ghost use Rattle.obj_kinds.specs.SubOrder.{sub_cmp};
ghost use Rattle.oref_table.specs.declared.slot.Slot.TheVariants.{Items, Map, Members};
ghost use Rattle.oref_table.specs.Filling.{is_member};
ghost use Rattle.oref_table.specs.Memory.{first_that};
ghost use Rattle.oref_cases.specs.Collections.{HasSlotAt};

use obj_kinds::Sub;
use oref_table::{Oref, Slot, Table};
use std::cmp::Ordering;

/// The slot of a live object.
fn slot_in<'a>(table: &'a Table, oref: Oref, slot: u32) -> Option<&'a Slot>
    ensures { IfSome result (λ found. HasSlotAt table.now.objects oref.0 slot found.now) }
{
    let obj = table.get(oref)?;
    obj.slots.as_slice().get(slot as usize)
}

fn items_of(slot: &Slot) -> Option<&[Slot]>
    ensures { IfSome result (λ items. slot.now ≡ Items items.now) }
{
    match slot {
        Slot::Items(items) => Some(items.as_slice()),
        _ => None,
    }
}

fn pairs_of(slot: &Slot) -> Option<&[(Sub, Slot)]>
    ensures { IfSome result (λ pairs. slot.now ≡ Map pairs.now) }
{
    match slot {
        Slot::Map(pairs) => Some(pairs.as_slice()),
        _ => None,
    }
}

fn members_of(slot: &Slot) -> Option<&[Oref]>
    ensures { IfSome result (λ members. slot.now ≡ Members members.now) }
{
    match slot {
        Slot::Members(members) => Some(members.as_slice()),
        _ => None,
    }
}

/// The items of the list in the slot of a live object.
pub fn items_in<'a>(table: &'a Table, oref: Oref, slot: u32) -> Option<&'a [Slot]>
    ensures { IfSome result (λ items. HasSlotAt table.now.objects oref.0 slot (Items items.now)) }
{
    items_of(slot_in(table, oref, slot)?)
}

/// The elements of the array in the slot of a live object.
pub fn pairs_in<'a>(table: &'a Table, oref: Oref, slot: u32) -> Option<&'a [(Sub, Slot)]>
    ensures { IfSome result (λ pairs. HasSlotAt table.now.objects oref.0 slot (Map pairs.now)) }
{
    pairs_of(slot_in(table, oref, slot)?)
}

/// The members in the slot of a live object.
pub fn members_in<'a>(table: &'a Table, oref: Oref, slot: u32) -> Option<&'a [Oref]>
    ensures { IfSome result (λ members. HasSlotAt table.now.objects oref.0 slot (Members members.now)) }
{
    members_of(slot_in(table, oref, slot)?)
}

fn is_below_all(key: &Sub, pairs: &[(Sub, Slot)]) -> bool
    ensures { result ≡ below_all sub_cmp key.now pairs.now }
{
    let mut rest = pairs;
    while let Some((first, more)) = rest.split_first() {
        if !matches!(key.compare(&first.0), Ordering::Less) {
            return false;
        }
        rest = more;
    }
    true
}

/// Whether the elements stand in the order of their keys.
pub fn are_in_order(pairs: &[(Sub, Slot)]) -> bool
    ensures { result ≡ is_sorted sub_cmp pairs.now }
{
    let mut rest = pairs;
    while let Some((first, more)) = rest.split_first() {
        if !is_below_all(&first.0, more) {
            return false;
        }
        rest = more;
    }
    true
}

/// Whether an element has the key.
pub fn has_key(pairs: &[(Sub, Slot)], key: &Sub) -> bool
    ensures { result ≡ is_some (find sub_cmp key.now pairs.now) }
{
    let mut rest = pairs;
    while let Some((first, more)) = rest.split_first() {
        if matches!(key.compare(&first.0), Ordering::Equal) {
            return true;
        }
        rest = more;
    }
    false
}

/// Whether the object is one of the members.
pub fn has_member(members: &[Oref], member: Oref) -> bool
    ensures { result ≡ is_some (first_that (is_member member.0) members.now) }
{
    let mut rest = members;
    while let Some((first, more)) = rest.split_first() {
        if first.0 == member.0 {
            return true;
        }
        rest = more;
    }
    false
}
