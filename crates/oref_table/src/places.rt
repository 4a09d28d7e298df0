ghost use Rattle.std.specs.Prelude.{ℕ, IsOk, ◌≡◌, ◌≢◌, ◌<◌, ◌≤◌, [], ◌∷◌, ◌++◌, List, Some, None, length, slice_get, slice_set, slice_index_or, insert, remove, IfOk, IfErr, OnOk, IsTrue, IsSome};
ghost use Rattle.std.specs.FinMap.{find, put, is_sorted};
ghost use Rattle.obj_kinds.specs.declared.sub.Sub.{Sub};
ghost use Rattle.obj_kinds.specs.SubOrder.{sub_cmp};
ghost use Rattle.obj_kinds.specs.Search.{IsHit, IsGap};
ghost use Rattle.oref_table.specs.declared.oref.Oref.{Oref};
ghost use Rattle.oref_table.specs.declared.slot.Slot.{Slot};
ghost use Rattle.oref_table.specs.declared.slot.Slot.TheVariants.{Target, Items, Map, Members};
ghost use Rattle.oref_table.specs.declared.fill.Place.TheVariants.{Slot as AtSlot};
ghost use Rattle.oref_table.specs.declared.fill.Fill.TheVariants.{Nothing, To};
ghost use Rattle.oref_table.specs.Refs.{refs_of, refs_in, refs_of_pairs};
ghost use Rattle.oref_table.specs.Memory.{without_first};
ghost use Rattle.oref_table.specs.Filling.{slot_from, passed};
ghost use Rattle.oref_table.specs.Places.{has_key, item_put, items_filled, ItemTakes, pairs_filled, PairTakes, with_members, MemberTakes, slot_number as number_in, PartTakes, PartFills, Takes, Fills, IsAmong, IsExchange, IsThere};

use crate::fill::{Fill, Place, fill_of, slot_of};
use crate::oref::{Held, Oref};
use crate::slot::{Orefs, Slot, SlotPairs, Slots};
use obj_kinds::{NoMemory, Sub};
use std::alloc::Global;

/// The items and one more at the end, or as they were, and the item.
fn push_item(items: Slots, item: Slot) -> (Slots, Result<Slot, Slot>)
    ensures ok { IfOk result.1 (λ old. (result.0 ≡ items ++ item ∷ []) × IsExchange (refs_in items) (refs_of item) (refs_in result.0) (refs_of old)) }
    ensures err { IfErr result.1 (λ back. (back ≡ item) × (result.0 ≡ items)) }
{
    let mut items = items;
    match items.push(item) {
        Ok(()) => (items, Ok(Slot::Target(None))),
        Err(refused) => (items, Err(refused.value)),
    }
}

/// The items with the item in the place of another, and that one.
fn set_item(items: Slots, at: usize, item: Slot) -> (Slots, Slot)
    requires { at < length items }
    ensures items { result.0 ≡ slice_set items at item }
    ensures exchange { IsExchange (refs_in items) (refs_of item) (refs_in result.0) (refs_of result.1) }
{
    let mut items = items;
    let old = items.replace(at, item);
    (items, old)
}

/// The items with the item in the place of another or at the end, and what stood there; for want of memory
/// as they were, and the item.
fn put_item(items: Slots, at: usize, item: Slot) -> (Slots, Result<Slot, Slot>)
    requires { at ≤ length items }
    ensures ok { IfOk result.1 (λ old. (result.0 ≡ item_put at item items) × IsExchange (refs_in items) (refs_of item) (refs_in result.0) (refs_of old)) }
    ensures err { IfErr result.1 (λ back. (back ≡ item) × (result.0 ≡ items)) }
    ensures there { at < length items → IsOk result.1 }
{
    if at == items.len() {
        return push_item(items, item);
    }
    let (items, old) = set_item(items, at, item);
    (items, Ok(old))
}

/// The items without the one at the place, and that one.
fn take_item(items: Slots, at: usize) -> (Slots, Slot)
    requires { at < length items }
    ensures rest { result.0 ≡ remove items at }
    ensures exchange { IsExchange (refs_in items) [] (refs_in result.0) (refs_of result.1) }
{
    let mut items = items;
    let old = items.remove(at);
    (items, old)
}

/// The same with what is to stand there.
fn put_filling(items: Slots, at: usize, with: Fill) -> (Slots, Result<Slot, Fill>)
    requires within { at ≤ length items }
    requires filling { with ≢ Nothing }
    ensures ok { IfOk result.1 (λ old. (result.0 ≡ item_put at (slot_from with) items) × IsExchange (refs_in items) (passed with) (refs_in result.0) (refs_of old)) }
    ensures err { IfErr result.1 (λ back. (back ≡ with) × (result.0 ≡ items)) }
    ensures there { at < length items → IsOk result.1 }
{
    let (items, put) = put_item(items, at, slot_of(with));
    match put {
        Ok(old) => (items, Ok(old)),
        Err(slot) => (items, Err(fill_of(slot))),
    }
}

/// The items once the place among them is filled, and what stood there; for want of memory as they were, and
/// what was to stand there.
fn fill_items(items: Slots, at: usize, with: Fill) -> (Slots, Result<Slot, Fill>)
    requires { ItemTakes at with items }
    ensures ok { IfOk result.1 (λ old. (result.0 ≡ items_filled at with items) × IsExchange (refs_in items) (passed with) (refs_in result.0) (refs_of old)) }
    ensures err { IfErr result.1 (λ back. (back ≡ with) × (result.0 ≡ items)) }
    ensures there { at < length items → IsOk result.1 }
{
    match with {
        Fill::Nothing => {
            let (items, old) = take_item(items, at);
            (items, Ok(old))
        }
        with => put_filling(items, at, with),
    }
}

/// The same in a slot that has a list.
fn fill_list(old: Slot, at: usize, with: Fill) -> (Slot, Result<Slot, Fill>)
    requires { (items : List Slot) × (old ≡ Items items) × ItemTakes at with items }
    ensures ok { IfOk result.1 (λ out. ((items : List Slot) × (old ≡ Items items) × (result.0 ≡ Items (items_filled at with items))) × IsExchange (refs_of old) (passed with) (refs_of result.0) (refs_of out)) }
    ensures err { IfErr result.1 (λ back. (back ≡ with) × (result.0 ≡ old)) }
    ensures there { (items : List Slot) → old ≡ Items items → at < length items → IsOk result.1 }
{
    match old {
        Slot::Items(items) => {
            let (items, filled) = fill_items(items, at, with);
            (Slot::Items(items), filled)
        }
        other => (other, Err(with)),
    }
}

/// Where the key stands among the pairs, or would stand. The pairs stand in the order of keys; it looks at as many
/// of them as the logarithm of their number.
fn pair_place(pairs: &[(Sub, Slot)], key: &Sub) -> Result<usize, usize>
    requires { IsTrue (is_sorted sub_cmp pairs.now) }
    ensures found { IfOk result (IsHit sub_cmp pairs.now key.now) }
    ensures absent { IfErr result (IsGap sub_cmp pairs.now key.now) }
{
    pairs.binary_search_by(|pair| pair.0.compare(key))
}

/// The pairs with the slot in the place of another, and that one.
fn set_pair(pairs: SlotPairs, at: usize, slot: Slot) -> (SlotPairs, Slot)
    requires { at < length pairs }
    ensures pairs { (d : Sub × Slot) → result.0 ≡ slice_set pairs at ((slice_index_or pairs at d).0, slot) }
    ensures old { (d : Sub × Slot) → result.1 ≡ (slice_index_or pairs at d).1 }
{
    let mut pairs = pairs;
    let (key, old) = pairs.replace(at, (Sub::Num(0), Slot::Target(None)));
    pairs.set(at, (key, slot));
    (pairs, old)
}

/// The pairs with one more at the place, or as they were, and the slot.
fn insert_pair(pairs: SlotPairs, at: usize, key: Sub, slot: Slot) -> (SlotPairs, Result<Slot, Slot>)
    requires { at ≤ length pairs }
    ensures ok { IfOk result.1 (λ old. (result.0 ≡ insert pairs at (key, slot)) × (old ≡ Target None)) }
    ensures err { IfErr result.1 (λ back. (back ≡ slot) × (result.0 ≡ pairs)) }
{
    let mut pairs = pairs;
    match pairs.insert(at, (key, slot)) {
        Ok(()) => (pairs, Ok(Slot::Target(None))),
        Err(refused) => {
            let (_, slot) = refused.value;
            (pairs, Err(slot))
        }
    }
}

/// The same with a copy of the key.
fn add_pair(
    alloc: Global,
    pairs: SlotPairs,
    at: usize,
    key: &Sub,
    slot: Slot,
) -> (SlotPairs, Result<Slot, Slot>)
    requires { at ≤ length pairs }
    ensures ok { IfOk result.1 (λ old. (result.0 ≡ insert pairs at (key.now, slot)) × (old ≡ Target None)) }
    ensures err { IfErr result.1 (λ back. (back ≡ slot) × (result.0 ≡ pairs)) }
{
    match key.copy(alloc) {
        Ok(key) => insert_pair(pairs, at, key, slot),
        Err(NoMemory) => (pairs, Err(slot)),
    }
}

/// The pairs with the slot in the place of the one of the key or among them, and what stood there; for want of memory
/// as they were, and the slot.
fn put_pair(
    alloc: Global,
    pairs: SlotPairs,
    key: &Sub,
    slot: Slot,
) -> (SlotPairs, Result<Slot, Slot>)
    requires { IsTrue (is_sorted sub_cmp pairs) }
    ensures ok { IfOk result.1 (λ old. (result.0 ≡ put sub_cmp key.now slot pairs) × IsExchange (refs_of_pairs pairs) (refs_of slot) (refs_of_pairs result.0) (refs_of old)) }
    ensures err { IfErr result.1 (λ back. (back ≡ slot) × (result.0 ≡ pairs)) }
    ensures there { IsSome (find sub_cmp key.now pairs) → IsOk result.1 }
{
    match pair_place(pairs.as_slice(), key) {
        Ok(at) => {
            let (pairs, old) = set_pair(pairs, at, slot);
            (pairs, Ok(old))
        }
        Err(at) => add_pair(alloc, pairs, at, key, slot),
    }
}

/// The same with what is to stand there.
fn put_pair_filling(
    alloc: Global,
    pairs: SlotPairs,
    key: &Sub,
    with: Fill,
) -> (SlotPairs, Result<Slot, Fill>)
    requires sorted { IsTrue (is_sorted sub_cmp pairs) }
    requires filling { with ≢ Nothing }
    ensures ok { IfOk result.1 (λ old. (result.0 ≡ put sub_cmp key.now (slot_from with) pairs) × IsExchange (refs_of_pairs pairs) (passed with) (refs_of_pairs result.0) (refs_of old)) }
    ensures err { IfErr result.1 (λ back. (back ≡ with) × (result.0 ≡ pairs)) }
    ensures there { IsSome (find sub_cmp key.now pairs) → IsOk result.1 }
{
    let (pairs, put) = put_pair(alloc, pairs, key, slot_of(with));
    match put {
        Ok(old) => (pairs, Ok(old)),
        Err(slot) => (pairs, Err(fill_of(slot))),
    }
}

/// The pairs without the one of the key, and what stood there.
fn take_pair(pairs: SlotPairs, key: &Sub) -> (SlotPairs, Slot)
    requires sorted { IsTrue (is_sorted sub_cmp pairs) }
    requires there { IsSome (find sub_cmp key.now pairs) }
    ensures rest { result.0 ≡ without_first (has_key key.now) pairs }
    ensures exchange { IsExchange (refs_of_pairs pairs) [] (refs_of_pairs result.0) (refs_of result.1) }
{
    let mut pairs = pairs;
    match pair_place(pairs.as_slice(), key) {
        Ok(at) => {
            let (_, old) = pairs.remove(at);
            (pairs, old)
        }
        Err(_) => (pairs, Slot::Target(None)),
    }
}

/// The elements once the one of the key is filled, and what stood there; for want of memory as they were, and what was
/// to stand there.
fn fill_pairs(
    alloc: Global,
    pairs: SlotPairs,
    key: &Sub,
    with: Fill,
) -> (SlotPairs, Result<Slot, Fill>)
    requires sorted { IsTrue (is_sorted sub_cmp pairs) }
    requires takes { PairTakes key.now with pairs }
    ensures ok { IfOk result.1 (λ old. (result.0 ≡ pairs_filled key.now with pairs) × IsExchange (refs_of_pairs pairs) (passed with) (refs_of_pairs result.0) (refs_of old)) }
    ensures err { IfErr result.1 (λ back. (back ≡ with) × (result.0 ≡ pairs)) }
    ensures there { IsSome (find sub_cmp key.now pairs) → IsOk result.1 }
{
    match with {
        Fill::Nothing => {
            let (pairs, old) = take_pair(pairs, key);
            (pairs, Ok(old))
        }
        with => put_pair_filling(alloc, pairs, key, with),
    }
}

/// The same in a slot that has an array.
fn fill_map(alloc: Global, old: Slot, key: &Sub, with: Fill) -> (Slot, Result<Slot, Fill>)
    requires { (pairs : List (Sub × Slot)) × (old ≡ Map pairs) × IsTrue (is_sorted sub_cmp pairs) × PairTakes key.now with pairs }
    ensures ok { IfOk result.1 (λ out. ((pairs : List (Sub × Slot)) × (old ≡ Map pairs) × (result.0 ≡ Map (pairs_filled key.now with pairs))) × IsExchange (refs_of old) (passed with) (refs_of result.0) (refs_of out)) }
    ensures err { IfErr result.1 (λ back. (back ≡ with) × (result.0 ≡ old)) }
    ensures there { (pairs : List (Sub × Slot)) → old ≡ Map pairs → IsSome (find sub_cmp key.now pairs) → IsOk result.1 }
{
    match old {
        Slot::Map(pairs) => {
            let (pairs, filled) = fill_pairs(alloc, pairs, key, with);
            (Slot::Map(pairs), filled)
        }
        other => (other, Err(with)),
    }
}

/// The members and one more; for want of memory as they were, and the hold.
fn add_member(members: Orefs, held: Held) -> (Orefs, Result<(), Held>)
    ensures ok { IfOk result.1 (λ _. result.0 ≡ members ++ record { 0 = held.number } ∷ []) }
    ensures err { IfErr result.1 (λ back. (back ≡ held) × (result.0 ≡ members)) }
{
    let Held { number } = held;
    let mut members = members;
    match members.push(Oref(number)) {
        Ok(()) => (members, Ok(())),
        Err(refused) => (
            members,
            Err(Held {
                number: refused.value.0,
            }),
        ),
    }
}

/// The same in a slot that has members.
fn add_in_slot(old: Slot, held: Held) -> (Slot, Result<Slot, Fill>)
    requires { (members : List Oref) × (old ≡ Members members) }
    ensures ok { IfOk result.1 (λ out. ((members : List Oref) × (old ≡ Members members) × (result.0 ≡ Members (members ++ record { 0 = held.number } ∷ []))) × IsExchange (refs_of old) (held.number ∷ []) (refs_of result.0) (refs_of out)) }
    ensures err { IfErr result.1 (λ back. (back ≡ To held) × (result.0 ≡ old)) }
{
    match old {
        Slot::Members(members) => {
            let (members, added) = add_member(members, held);
            match added {
                Ok(()) => (Slot::Members(members), Ok(Slot::Target(None))),
                Err(held) => (Slot::Members(members), Err(Fill::To(held))),
            }
        }
        other => (other, Err(Fill::To(held))),
    }
}

/// One member more in a slot that has members.
fn fill_members(old: Slot, with: Fill) -> (Slot, Result<Slot, Fill>)
    requires { (members : List Oref) × (old ≡ Members members) × MemberTakes with members }
    ensures ok { IfOk result.1 (λ out. ((members : List Oref) × (old ≡ Members members) × (result.0 ≡ Members (with_members with members))) × IsExchange (refs_of old) (passed with) (refs_of result.0) (refs_of out)) }
    ensures err { IfErr result.1 (λ back. (back ≡ with) × (result.0 ≡ old)) }
{
    match with {
        Fill::To(held) => add_in_slot(old, held),
        with => (old, Err(with)),
    }
}

/// The number of the slot that the place is in.
fn slot_number(at: &Place) -> u32
    ensures { result ≡ number_in at.now }
{
    match at {
        Place::Slot(slot) => *slot,
        Place::Item(slot, _) => *slot,
        Place::Pair(slot, _) => *slot,
        Place::Member(slot) => *slot,
    }
}

/// What stands in a slot once the place in it is filled, and what is given up; for want of memory what stood
/// there, and what was to stand there.
fn fill_part(alloc: Global, old: Slot, at: &Place, with: Fill) -> (Slot, Result<Slot, Fill>)
    requires { PartTakes at.now with old }
    ensures ok { IfOk result.1 (λ out. PartFills at.now with old result.0 × IsExchange (refs_of old) (passed with) (refs_of result.0) (refs_of out)) }
    ensures err { IfErr result.1 (λ back. (back ≡ with) × (result.0 ≡ old)) }
    ensures slot { (s : ℕ) → at.now ≡ AtSlot s → IsOk result.1 }
    ensures there { IsThere at.now old → IsOk result.1 }
{
    match at {
        Place::Slot(_) => (slot_of(with), Ok(old)),
        Place::Item(_, item) => fill_list(old, *item as usize, with),
        Place::Pair(_, key) => fill_map(alloc, old, key, with),
        Place::Member(_) => fill_members(old, with),
    }
}

/// Fills the place among the slots, and answers what is given up; for want of memory the slots are as before, and
/// what was to stand there comes back.
pub fn fill_slots(alloc: Global, slots: &mut Slots, at: &Place, with: Fill) -> Result<Slot, Fill>
    requires { Takes at.now with slots.old }
    ensures ok { IfOk result (λ out. Fills at.now with slots.old slots.new × IsExchange (refs_in slots.old) (passed with) (refs_in slots.new) (refs_of out)) }
    ensures err { IfErr result (λ back. (back ≡ with) × (slots.new ≡ slots.old)) }
    ensures slot { (s : ℕ) → at.now ≡ AtSlot s → IsOk result }
    ensures there { IsAmong at.now slots.old → IsOk result }
{
    let slot = slot_number(at) as usize;
    let old = slots.replace(slot, Slot::Target(None));
    let (part, filled) = fill_part(alloc, old, at, with);
    slots.set(slot, part);
    filled
}
