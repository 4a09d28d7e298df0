ghost use Rattle.std.specs.Prelude.{ℕ, ◌≡◌, ◌<◌, ◌+◌, List, Some, None, insert, length, slice_get, slice_set, IfErr, IfNone, IfSome, IsErr, OnOk};
ghost use Rattle.std.specs.Option.{option_copied};
ghost use Rattle.oref_table.specs.declared.slot.Slot.{Slot};
ghost use Rattle.oref_table.specs.declared.slot.Slot.TheVariants.{Items};
ghost use Rattle.oref_table.specs.Filling.{IsHeldFor};
ghost use Rattle.obj_kinds.specs.declared.error_name.ErrorName.TheVariants.{IllegalValue};
ghost use Rattle.schema_kinds.specs.declared.class.Class.{Class};
ghost use Rattle.schema_kinds.specs.declared.kind.Item.{Item};
ghost use Rattle.obj_shape.specs.Fitting.{TableFits};
ghost use Rattle.obj_shape.specs.Wholeness.{IsWhole};
ghost use Rattle.obj_props.specs.Changes.{let_gone};
ghost use Rattle.obj_props.specs.Contents.{IsLack};
ghost use Rattle.obj_props.specs.declared.got.ShapeError.TheVariants.{Script};
ghost use Rattle.prop_setting.specs.Elements.{Takes, error_of as item_error, standing, stood};
ghost use Rattle.prop_setting.specs.Fits.{AreNamed};
ghost use Rattle.prop_setting.specs.Sets.{IsGiven, Tells};
ghost use Rattle.prop_setting.specs.Lists.{CopiesNoPart, HasList, IsList, IsListAt, IsListOf, IsNowhere, ItemRefuses, ListAdds, ListInserts, ListRemoves, ListSets, item_of_list};
ghost use Rattle.prop_setting.specs.Standings.{IsNoCopy};

use crate::changes::drop_given;
use crate::lists::{add_item, item_place, let_back_go, put_item, take_item};
use crate::set::{prop_in, props_at, refuse};
use crate::stand::{Stand, error_of, takes, to_stand};
use obj_kinds::{ErrorName, Lack};
use obj_props::{ShapeError, prop_place};
use obj_shape::{object_slots, slot_items};
use oref_table::{Fill, Oref, Slot, Table};
use schema_kinds::{Item, Kind, Schema};
use std::alloc::Global;

/// A collection: the property of a live object.
#[derive(Clone, Copy)]
pub struct CollectionAt<'a> {
    pub alloc: Global,
    pub schema: &'a Schema,
    pub oref: Oref,
    pub prop: &'a [u8],
}

/// The slot of a collection, its elements and their number.
#[derive(Clone, Copy)]
pub struct CollectionSpot<'a> {
    pub at: u32,
    pub item: &'a Item,
    pub len: u64,
}

fn list_item<'a>(kind: &'a Kind) -> Option<&'a Item>
    ensures { option_copied result ≡ item_of_list kind.now }
{
    match kind {
        Kind::Text => None,
        Kind::Whole => None,
        Kind::Truth => None,
        Kind::Ref(_) => None,
        Kind::Serial(_) => None,
        Kind::ListOf(item) => Some(item),
        Kind::ArrayOf(_) => None,
        Kind::Many(_, _) => None,
        Kind::One(_, _) => None,
    }
}

/// The slot at a place.
pub fn slot_in<'a>(slots: &'a [Slot], at: usize) -> Option<&'a Slot>
    ensures some { IfSome result (λ slot. slice_get slots.now at ≡ Some slot.now) }
    ensures none { IfNone result (slice_get slots.now at ≡ None) }
{
    slots.get(at)
}

/// The slot of the list, its elements and their number. It takes no memory.
pub fn find_list<'a>(table: &Table, list: &CollectionAt<'a>) -> CollectionSpot<'a>
    requires whole { IsWhole list.now.schema.now }
    requires fits { TableFits list.now.schema.now table.now }
    requires list { HasList list.now.schema.now table.now list.now.oref.0 list.now.prop.now }
    ensures spot { IsListOf list.now.schema.now table.now list.now.oref.0 result.at result.item.now result.len }
    ensures same { (at level : ℕ) (i : Item) (items : List Slot) → IsList list.now.schema.now table.now list.now.oref.0 list.now.prop.now at level i items → (result.at ≡ at) × (result.item.now ≡ i) × (result.len ≡ length items) }
{
    let props = props_at(table, list.schema, list.oref);
    let at = prop_place(props, list.prop).unwrap();
    let prop = prop_in(props, at).unwrap();
    let item = list_item(&prop.kind).unwrap();
    let slots = object_slots(table, list.oref);
    let slot = slot_in(slots, at).unwrap();
    CollectionSpot {
        at: at as u32,
        item,
        len: slot_items(slot).len() as u64,
    }
}

/// For want of memory what was to be set is given back.
pub fn lack(table: &mut Table, with: Fill) -> Result<(), ShapeError>
    requires { IsHeldFor table.old with }
    ensures memory { table.new ≡ let_gone table.old with }
    ensures lack { IfErr result IsLack }
    ensures err { IsErr result }
    ensures fits { (classes : List Class) → TableFits classes table.old → TableFits classes table.new }
{
    drop_given(table, with);
    Err(ShapeError::Lack(Lack::Memory))
}

fn put_element(
    table: &mut Table,
    list: &CollectionAt<'_>,
    spot: &CollectionSpot<'_>,
    place: u64,
    with: Fill,
) -> Result<(), ShapeError>
    requires list { IsListOf list.now.schema.now table.old list.now.oref.0 spot.now.at spot.now.item.now spot.now.len }
    requires place { place < spot.now.len }
    requires fits { TableFits list.now.schema.now table.old }
    requires named { AreNamed list.now.schema.now }
    requires held { IsHeldFor table.old with }
    requires given { IsGiven with }
    requires takes { Takes list.now.schema.now table.old spot.now.item.now with }
    requires no_copy { IsNoCopy spot.now.item.now with }
    ensures ok { (items : List Slot) → IsListAt table.old list.now.oref.0 spot.now.at items → OnOk result ((level : ℕ) → table.new ≡ stood list.now.oref.0 spot.now.at (λ s. Items (slice_set items place s)) (standing list.now.schema.now table.old level spot.now.item.now with)) }
    ensures err { IfErr result (λ e. (table.new ≡ let_gone table.old with) × IsLack e) }
    ensures fits { TableFits list.now.schema.now table.new }
{
    match to_stand(list.alloc, table, spot.item, with) {
        Err(back) => lack(table, back),
        Ok(stand) => {
            let Stand { filling, back } = stand;
            put_item(table, list.oref, spot.at, place, filling);
            let_back_go(table, back);
            Ok(())
        }
    }
}

fn add_element(
    table: &mut Table,
    list: &CollectionAt<'_>,
    spot: &CollectionSpot<'_>,
    before: u64,
    with: Fill,
) -> Result<(), ShapeError>
    requires list { IsListOf list.now.schema.now table.old list.now.oref.0 spot.now.at spot.now.item.now spot.now.len }
    requires before { before < spot.now.len + 1 }
    requires fits { TableFits list.now.schema.now table.old }
    requires named { AreNamed list.now.schema.now }
    requires held { IsHeldFor table.old with }
    requires given { IsGiven with }
    requires takes { Takes list.now.schema.now table.old spot.now.item.now with }
    requires no_copy { IsNoCopy spot.now.item.now with }
    ensures ok { (items : List Slot) → IsListAt table.old list.now.oref.0 spot.now.at items → OnOk result ((level : ℕ) → table.new ≡ stood list.now.oref.0 spot.now.at (λ s. Items (insert items before s)) (standing list.now.schema.now table.old level spot.now.item.now with)) }
    ensures err { IfErr result (λ e. (table.new ≡ let_gone table.old with) × IsLack e) }
    ensures fits { TableFits list.now.schema.now table.new }
{
    match to_stand(list.alloc, table, spot.item, with) {
        Err(back) => lack(table, back),
        Ok(stand) => {
            let Stand { filling, back } = stand;
            match add_item(table, list.oref, spot.at, before, filling) {
                Ok(()) => {
                    let_back_go(table, back);
                    Ok(())
                }
                Err(filling) => {
                    drop_given(table, filling);
                    let_back_go(table, back);
                    Err(ShapeError::Lack(Lack::Memory))
                }
            }
        }
    }
}

/// How many items the list has. It takes no memory.
pub fn list_count(list: &CollectionAt<'_>, table: &Table) -> u64
    requires whole { IsWhole list.now.schema.now }
    requires fits { TableFits list.now.schema.now table.now }
    requires list { HasList list.now.schema.now table.now list.now.oref.0 list.now.prop.now }
    ensures { (at level : ℕ) (i : Item) (items : List Slot) → IsList list.now.schema.now table.now list.now.oref.0 list.now.prop.now at level i items → result ≡ length items }
{
    let spot = find_list(table, list);
    spot.len
}

/// Sets the item at a position, counted from 1, and marks the object as modified; the item takes what a property of its kind
/// does, a part no object yet. What stood there is let go. The script errors: first that of what the item doesn't take, then
/// `<ILLEGAL VALUE>` where there is no such position. At a refusal the hold of what was given is let go, which is the only
/// change.
pub fn list_set(
    list: &CollectionAt<'_>,
    table: &mut Table,
    position: i64,
    with: Fill,
) -> Result<(), ShapeError>
    requires whole { IsWhole list.now.schema.now }
    requires named { AreNamed list.now.schema.now }
    requires fits { TableFits list.now.schema.now table.old }
    requires list { HasList list.now.schema.now table.old list.now.oref.0 list.now.prop.now }
    requires held { IsHeldFor table.old with }
    requires given { IsGiven with }
    requires no_copy { CopiesNoPart list.now.schema.now table.old list.now.oref.0 list.now.prop.now with }
    ensures ok { (at level : ℕ) (i : Item) (items : List Slot) → IsList list.now.schema.now table.old list.now.oref.0 list.now.prop.now at level i items → OnOk result (ListSets list.now.schema.now table.old list.now.oref.0 at level i items position with table.new) }
    ensures err { (at level : ℕ) (i : Item) (items : List Slot) → IsList list.now.schema.now table.old list.now.oref.0 list.now.prop.now at level i items → IfErr result (λ e. (table.new ≡ let_gone table.old with) × Tells (ItemRefuses list.now.schema.now table.old i (length items) position with) e) }
    ensures fits { TableFits list.now.schema.now table.new }
{
    let spot = find_list(table, list);
    if !takes(table, list.schema, spot.item, &with) {
        return refuse(table, with, error_of(spot.item));
    }
    match item_place(position, spot.len) {
        None => refuse(table, with, ErrorName::IllegalValue),
        Some(place) => put_element(table, list, &spot, place, with),
    }
}

/// Puts an item before the one at a position, counted from 1, or behind the last where the position is one more than there are, and
/// marks the object as modified. The script errors, and what a refusal leaves, are those of `list_set`. It costs a move of the
/// items behind the position.
pub fn list_insert_at(
    list: &CollectionAt<'_>,
    table: &mut Table,
    position: i64,
    with: Fill,
) -> Result<(), ShapeError>
    requires whole { IsWhole list.now.schema.now }
    requires named { AreNamed list.now.schema.now }
    requires fits { TableFits list.now.schema.now table.old }
    requires list { HasList list.now.schema.now table.old list.now.oref.0 list.now.prop.now }
    requires held { IsHeldFor table.old with }
    requires given { IsGiven with }
    requires no_copy { CopiesNoPart list.now.schema.now table.old list.now.oref.0 list.now.prop.now with }
    ensures ok { (at level : ℕ) (i : Item) (items : List Slot) → IsList list.now.schema.now table.old list.now.oref.0 list.now.prop.now at level i items → OnOk result (ListInserts list.now.schema.now table.old list.now.oref.0 at level i items position with table.new) }
    ensures err { (at level : ℕ) (i : Item) (items : List Slot) → IsList list.now.schema.now table.old list.now.oref.0 list.now.prop.now at level i items → IfErr result (λ e. (table.new ≡ let_gone table.old with) × Tells (ItemRefuses list.now.schema.now table.old i (length items + 1) position with) e) }
    ensures fits { TableFits list.now.schema.now table.new }
{
    let spot = find_list(table, list);
    if !takes(table, list.schema, spot.item, &with) {
        return refuse(table, with, error_of(spot.item));
    }
    match item_place(position, spot.len.saturating_add(1)) {
        None => refuse(table, with, ErrorName::IllegalValue),
        Some(place) => add_element(table, list, &spot, place, with),
    }
}

/// Puts an item behind the last one, and marks the object as modified. The script errors are those of what the item doesn't take;
/// what a refusal leaves is as for `list_set`.
pub fn list_insert(list: &CollectionAt<'_>, table: &mut Table, with: Fill) -> Result<(), ShapeError>
    requires whole { IsWhole list.now.schema.now }
    requires named { AreNamed list.now.schema.now }
    requires fits { TableFits list.now.schema.now table.old }
    requires list { HasList list.now.schema.now table.old list.now.oref.0 list.now.prop.now }
    requires held { IsHeldFor table.old with }
    requires given { IsGiven with }
    requires no_copy { CopiesNoPart list.now.schema.now table.old list.now.oref.0 list.now.prop.now with }
    ensures ok { (at level : ℕ) (i : Item) (items : List Slot) → IsList list.now.schema.now table.old list.now.oref.0 list.now.prop.now at level i items → OnOk result (ListAdds list.now.schema.now table.old list.now.oref.0 at level i items with table.new) }
    ensures err { (at level : ℕ) (i : Item) (items : List Slot) → IsList list.now.schema.now table.old list.now.oref.0 list.now.prop.now at level i items → IfErr result (λ e. (table.new ≡ let_gone table.old with) × Tells (λ n. (¬ Takes list.now.schema.now table.old i with) × (n ≡ item_error i)) e) }
    ensures fits { TableFits list.now.schema.now table.new }
{
    let spot = find_list(table, list);
    if !takes(table, list.schema, spot.item, &with) {
        return refuse(table, with, error_of(spot.item));
    }
    add_element(table, list, &spot, spot.len, with)
}

/// Takes the item at a position, counted from 1, out of the list, and marks the object as modified. What stood there is let go.
/// The script error `<ILLEGAL VALUE>` comes exactly where there is no such position, and then nothing changes. It takes no memory,
/// and costs a move of the items behind the position.
pub fn list_remove(
    list: &CollectionAt<'_>,
    table: &mut Table,
    position: i64,
) -> Result<(), ShapeError>
    requires whole { IsWhole list.now.schema.now }
    requires fits { TableFits list.now.schema.now table.old }
    requires list { HasList list.now.schema.now table.old list.now.oref.0 list.now.prop.now }
    ensures ok { (at level : ℕ) (i : Item) (items : List Slot) → IsList list.now.schema.now table.old list.now.oref.0 list.now.prop.now at level i items → OnOk result (ListRemoves table.old list.now.oref.0 at items position table.new) }
    ensures err { (at level : ℕ) (i : Item) (items : List Slot) → IsList list.now.schema.now table.old list.now.oref.0 list.now.prop.now at level i items → IfErr result (λ e. (table.new ≡ table.old) × IsNowhere position (length items) × (e ≡ Script IllegalValue)) }
    ensures fits { TableFits list.now.schema.now table.new }
{
    let spot = find_list(table, list);
    match item_place(position, spot.len) {
        None => Err(ShapeError::Script(ErrorName::IllegalValue)),
        Some(place) => {
            take_item(table, list.oref, spot.at, place);
            Ok(())
        }
    }
}
