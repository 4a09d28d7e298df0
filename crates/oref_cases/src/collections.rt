ghost use Rattle.std.specs.Prelude.{ℕ, ◌≡◌, ◌-◌, ◌<◌, ◌∷◌, [], true};
ghost use Rattle.oref_table.specs.declared.fill.Fill.TheVariants.{To, Nothing};
ghost use Rattle.oref_table.specs.declared.fill.Place.TheVariants.{Item, Member, Pair};
ghost use Rattle.oref_table.specs.declared.oref.Held.{Held};
ghost use Rattle.oref_table.specs.Filling.{HasItems, HasMember};
ghost use Rattle.oref_table.specs.Memory.{outside_of, IsLive};
ghost use Rattle.oref_table.specs.Places.{MayFill};
ghost use Rattle.oref_table.specs.Refs.{times};

use crate::contents::{are_in_order, has_key, has_member, items_in, members_in, pairs_in};
use crate::failure::Failure;
use crate::filling::{give_back, put};
use obj_kinds::Sub;
use oref_table::{Fill, Held, Oref, Place, Table};

/// A slot of an object.
#[derive(Clone, Copy)]
pub struct Spot {
    pub oref: Oref,
    pub slot: u32,
}

/// Whether an item may be put at the place of the list in the slot.
fn takes_item(table: &Table, spot: Spot, at: u64) -> bool
    ensures put { result ≡ true → (h : Held) → MayFill table.now spot.oref.0 (Item spot.slot at) (To h) }
    ensures before { result ≡ true → HasItems table.now spot.oref.0 spot.slot at }
    ensures live { result ≡ true → IsLive table.now spot.oref.0 }
{
    match items_in(table, spot.oref, spot.slot) {
        None => false,
        Some(items) => at <= items.len() as u64,
    }
}

/// Whether there is such an item.
fn has_item(table: &Table, spot: Spot, at: u64) -> bool
    ensures { result ≡ true → MayFill table.now spot.oref.0 (Item spot.slot at) Nothing }
{
    match items_in(table, spot.oref, spot.slot) {
        None => false,
        Some(items) => at < items.len() as u64,
    }
}

/// Whether the slot has an array.
fn takes_pair(table: &Table, spot: Spot, key: &Sub) -> bool
    ensures { result ≡ true → (h : Held) → MayFill table.now spot.oref.0 (Pair spot.slot key.now) (To h) }
{
    match pairs_in(table, spot.oref, spot.slot) {
        None => false,
        Some(pairs) => are_in_order(pairs),
    }
}

/// Whether the slot has an array with the key.
fn has_pair(table: &Table, spot: Spot, key: &Sub) -> bool
    ensures { result ≡ true → MayFill table.now spot.oref.0 (Pair spot.slot key.now) Nothing }
{
    match pairs_in(table, spot.oref, spot.slot) {
        None => false,
        Some(pairs) => are_in_order(pairs) && has_key(pairs, key),
    }
}

/// Whether the slot has members, and the object isn't one of them.
fn takes_member(table: &Table, spot: Spot, member: Oref) -> bool
    ensures { result ≡ true → (h : Held) → h.number ≡ member.0 → MayFill table.now spot.oref.0 (Member spot.slot) (To h) }
{
    match members_in(table, spot.oref, spot.slot) {
        None => false,
        Some(members) => !has_member(members, member),
    }
}

/// Whether the object is a member in the slot.
fn is_member(table: &Table, spot: Spot, member: Oref) -> bool
    ensures member { result ≡ true → HasMember table.now spot.oref.0 spot.slot member.0 }
    ensures live { result ≡ true → IsLive table.now spot.oref.0 }
{
    match members_in(table, spot.oref, spot.slot) {
        None => false,
        Some(members) => has_member(members, member),
    }
}

/// Puts an item in the place of another or at the end, or gives it back, and answers whether there is such a place.
pub fn put_item(table: &mut Table, spot: Spot, at: u64, held: Held) -> Result<bool, Failure>
    requires { 0 < outside_of table.old held.number }
    ensures { (n : ℕ) → outside_of table.new n ≡ outside_of table.old n - times n (held.number ∷ []) }
{
    if takes_item(table, spot, at) {
        return put(
            table,
            spot.oref,
            &Place::Item(spot.slot, at),
            Fill::To(held),
        );
    }
    table.let_go(held);
    Ok(false)
}

/// Puts an item before another or at the end, or gives it back, and answers whether there is such a place.
pub fn insert_item(table: &mut Table, spot: Spot, at: u64, held: Held) -> Result<bool, Failure>
    requires { 0 < outside_of table.old held.number }
    ensures { (n : ℕ) → outside_of table.new n ≡ outside_of table.old n - times n (held.number ∷ []) }
{
    if !takes_item(table, spot, at) {
        table.let_go(held);
        return Ok(false);
    }
    match table.insert_item(spot.oref, spot.slot, at, Fill::To(held)) {
        Ok(()) => Ok(true),
        Err(refused) => {
            give_back(table, refused.0);
            Err(Failure::Room)
        }
    }
}

/// Takes an item out, and answers whether there is one.
pub fn take_item(table: &mut Table, spot: Spot, at: u64) -> Result<bool, Failure>
    ensures { (n : ℕ) → outside_of table.new n ≡ outside_of table.old n }
{
    if has_item(table, spot, at) {
        return put(table, spot.oref, &Place::Item(spot.slot, at), Fill::Nothing);
    }
    Ok(false)
}

/// Puts an element under its key, or gives it back, and answers whether the slot has an array.
pub fn put_pair(table: &mut Table, spot: Spot, key: Sub, held: Held) -> Result<bool, Failure>
    requires { 0 < outside_of table.old held.number }
    ensures { (n : ℕ) → outside_of table.new n ≡ outside_of table.old n - times n (held.number ∷ []) }
{
    if takes_pair(table, spot, &key) {
        return put(
            table,
            spot.oref,
            &Place::Pair(spot.slot, key),
            Fill::To(held),
        );
    }
    table.let_go(held);
    Ok(false)
}

/// Takes the element of the key out, and answers whether there is one.
pub fn take_pair(table: &mut Table, spot: Spot, key: Sub) -> Result<bool, Failure>
    ensures { (n : ℕ) → outside_of table.new n ≡ outside_of table.old n }
{
    if has_pair(table, spot, &key) {
        return put(
            table,
            spot.oref,
            &Place::Pair(spot.slot, key),
            Fill::Nothing,
        );
    }
    Ok(false)
}

/// Adds a member, or gives it back, and answers whether it may be added.
pub fn put_member(table: &mut Table, spot: Spot, member: Oref, held: Held) -> Result<bool, Failure>
    requires held { 0 < outside_of table.old held.number }
    requires same { held.number ≡ member.0 }
    ensures { (n : ℕ) → outside_of table.new n ≡ outside_of table.old n - times n (held.number ∷ []) }
{
    if takes_member(table, spot, member) {
        return put(table, spot.oref, &Place::Member(spot.slot), Fill::To(held));
    }
    table.let_go(held);
    Ok(false)
}

/// Takes a member out, and answers whether it is one.
pub fn take_member(table: &mut Table, spot: Spot, member: Oref) -> bool
    ensures { (n : ℕ) → outside_of table.new n ≡ outside_of table.old n }
{
    if is_member(table, spot, member) {
        table.drop_member(spot.oref, spot.slot, member);
        return true;
    }
    false
}
