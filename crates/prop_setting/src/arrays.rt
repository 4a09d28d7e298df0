ghost use Rattle.std.specs.Prelude.{ℕ, ◌≡◌, ◌≢◌, ◌-◌, List, [], None, Some, IsSome, IfErr, IfOk, slice_get, OnErr, OnOk, IsTrue, length};
ghost use Rattle.std.specs.FinMap.{find, is_sorted, put};
ghost use Rattle.std.specs.Option.{option_copied};
ghost use Rattle.obj_kinds.specs.declared.sub.Sub.{Sub};
ghost use Rattle.obj_kinds.specs.Limits.{is_legal_sub};
ghost use Rattle.obj_kinds.specs.SubOrder.{sub_cmp};
ghost use Rattle.oref_table.specs.declared.slot.Slot.{Slot};
ghost use Rattle.oref_table.specs.declared.slot.Slot.TheVariants.{Map};
ghost use Rattle.oref_table.specs.declared.fill.Fill.TheVariants.{Nothing};
ghost use Rattle.oref_table.specs.declared.fill.Place.TheVariants.{Pair as AtPair};
ghost use Rattle.oref_table.specs.Filling.{IsHeldFor, passed, slot_from};
ghost use Rattle.oref_table.specs.Memory.{IsLive, Object, object_of, outside_of, without_first};
ghost use Rattle.oref_table.specs.Places.{IsAmong, IsFilledTo, MayFill, has_key};
ghost use Rattle.oref_table.specs.Refs.{times};
ghost use Rattle.schema_kinds.specs.declared.class.Class.{Class};
ghost use Rattle.schema_kinds.specs.declared.kind.Item.{Item};
ghost use Rattle.obj_shape.specs.Fitting.{TableFits};
ghost use Rattle.obj_shape.specs.Wholeness.{IsWhole};
ghost use Rattle.obj_props.specs.Changes.{let_gone};
ghost use Rattle.obj_props.specs.Contents.{IsLack};
ghost use Rattle.prop_setting.specs.Elements.{Takes, error_of as item_error, slot_set, standing, stood};
ghost use Rattle.prop_setting.specs.Fits.{AreNamed, TakesSlot};
ghost use Rattle.prop_setting.specs.Sets.{IsGiven, Tells};
ghost use Rattle.prop_setting.specs.Arrays.{ArrayCopiesNoPart, ArrayRemoves, ArraySets, HasArray, HasPairsAt, IsArray, IsArrayAt, IsArrayOf, item_of_array};
ghost use Rattle.prop_setting.specs.Standings.{IsNoCopy};

use crate::changes::drop_given;
use crate::list_calls::{CollectionAt, CollectionSpot, lack, slot_in};
use crate::lists::let_back_go;
use crate::set::{prop_in, props_at, refuse};
use crate::stand::{Stand, error_of, takes, to_stand};
use obj_kinds::{Lack, NoMemory, Sub};
use obj_props::{ShapeError, give_back, prop_place, soundness};
use obj_shape::{object_slots, slot_pairs};
use oref_table::{Fill, Oref, Place, Slot, Table};
use schema_kinds::{Item, Kind};

fn is_marked(table: &Table, oref: Oref) -> bool
    ensures { (o : Object) → object_of oref.0 table.now.objects ≡ Some o → result ≡ o.modified }
{
    match table.get(oref) {
        Some(obj) => obj.modified,
        None => false,
    }
}

// Puts something as the element of the key, and marks the object. For want of memory, which comes only where the key is new, it
// hands it back, and the table is as before.
fn put_pair(table: &mut Table, oref: Oref, at: u32, key: Sub, with: Fill) -> Result<(), Fill>
    requires array { HasPairsAt table.old oref.0 at }
    requires held { IsHeldFor table.old with }
    requires filling { with ≢ Nothing }
    ensures memory { (pairs : List (Sub × Slot)) → IsArrayAt table.old oref.0 at pairs → OnOk result (table.new ≡ slot_set table.old oref.0 at (Map (put sub_cmp key (slot_from with) pairs)) (passed with)) }
    ensures holds { OnOk result ((n : ℕ) → outside_of table.new n ≡ outside_of table.old n - times n (passed with)) }
    ensures fits { (classes : List Class) (pairs : List (Sub × Slot)) → IsArrayAt table.old oref.0 at pairs → OnOk result (TakesSlot classes table.old oref.0 at (Map (put sub_cmp key (slot_from with) pairs)) → TableFits classes table.old → TableFits classes table.new) }
    ensures err { OnErr result (table.new ≡ table.old) }
    ensures back { IfErr result (λ back. back ≡ with) }
{
    soundness(table);
    let marked = is_marked(table, oref);
    table.set_modified(oref, true);
    match table.fill(oref, &Place::Pair(at, key), with) {
        Ok(()) => {
            soundness(table);
            Ok(())
        }
        Err((back, NoMemory)) => {
            table.set_modified(oref, marked);
            Err(back)
        }
    }
}

fn array_item<'a>(kind: &'a Kind) -> Option<&'a Item>
    ensures { option_copied result ≡ item_of_array kind.now }
{
    match kind {
        Kind::Text => None,
        Kind::Whole => None,
        Kind::Truth => None,
        Kind::Ref(_) => None,
        Kind::Serial(_) => None,
        Kind::ListOf(_) => None,
        Kind::ArrayOf(item) => Some(item),
        Kind::Many(_, _) => None,
        Kind::One(_, _) => None,
    }
}

/// The slot of the array, its elements and their number. It takes no memory.
pub fn find_array<'a>(table: &Table, array: &CollectionAt<'a>) -> CollectionSpot<'a>
    requires whole { IsWhole array.now.schema.now }
    requires fits { TableFits array.now.schema.now table.now }
    requires array { HasArray array.now.schema.now table.now array.now.oref.0 array.now.prop.now }
    ensures spot { IsArrayOf array.now.schema.now table.now array.now.oref.0 result.at result.item.now result.len }
    ensures same { (at level : ℕ) (i : Item) (pairs : List (Sub × Slot)) → IsArray array.now.schema.now table.now array.now.oref.0 array.now.prop.now at level i pairs → (result.at ≡ at) × (result.item.now ≡ i) × (result.len ≡ length pairs) }
{
    let props = props_at(table, array.schema, array.oref);
    let at = prop_place(props, array.prop).unwrap();
    let prop = prop_in(props, at).unwrap();
    let item = array_item(&prop.kind).unwrap();
    let slots = object_slots(table, array.oref);
    let slot = slot_in(slots, at).unwrap();
    CollectionSpot {
        at: at as u32,
        item,
        len: slot_pairs(slot).len() as u64,
    }
}

fn put_under(
    table: &mut Table,
    array: &CollectionAt<'_>,
    spot: &CollectionSpot<'_>,
    key: Sub,
    with: Fill,
) -> Result<(), ShapeError>
    requires array { IsArrayOf array.now.schema.now table.old array.now.oref.0 spot.now.at spot.now.item.now spot.now.len }
    requires fits { TableFits array.now.schema.now table.old }
    requires named { AreNamed array.now.schema.now }
    requires legal { IsTrue (is_legal_sub key) }
    requires held { IsHeldFor table.old with }
    requires given { IsGiven with }
    requires takes { Takes array.now.schema.now table.old spot.now.item.now with }
    requires no_copy { IsNoCopy spot.now.item.now with }
    ensures ok { (pairs : List (Sub × Slot)) → IsArrayAt table.old array.now.oref.0 spot.now.at pairs → OnOk result ((level : ℕ) → table.new ≡ stood array.now.oref.0 spot.now.at (λ s. Map (put sub_cmp key s pairs)) (standing array.now.schema.now table.old level spot.now.item.now with)) }
    ensures err { IfErr result (λ e. (table.new ≡ let_gone table.old with) × IsLack e) }
    ensures fits { TableFits array.now.schema.now table.new }
{
    match to_stand(array.alloc, table, spot.item, with) {
        Err(back) => lack(table, back),
        Ok(stand) => {
            let Stand { filling, back } = stand;
            match put_pair(table, array.oref, spot.at, key, filling) {
                Ok(()) => {
                    let_back_go(table, back);
                    Ok(())
                }
                Err(filling) => {
                    drop_given(table, filling);
                    let_back_go(table, back);
                    Err(ShapeError::Lack(Lack::Memory))
                }
            }
        }
    }
}

/// How many elements the array has. It takes no memory.
pub fn array_count(array: &CollectionAt<'_>, table: &Table) -> u64
    requires whole { IsWhole array.now.schema.now }
    requires fits { TableFits array.now.schema.now table.now }
    requires array { HasArray array.now.schema.now table.now array.now.oref.0 array.now.prop.now }
    ensures { (at level : ℕ) (i : Item) (pairs : List (Sub × Slot)) → IsArray array.now.schema.now table.now array.now.oref.0 array.now.prop.now at level i pairs → result ≡ length pairs }
{
    let spot = find_array(table, array);
    spot.len
}

/// Sets the element of a key within the limits, whether there is one or not, and marks the object as modified; the element takes what
/// a property of its kind does, a part no object yet. What stood there is let go. The script errors are those of what the element
/// doesn't take; at a refusal the hold of what was given is let go, which is the only change. It costs a search among the keys,
/// and for a new key a move of the elements behind it.
pub fn array_set(
    array: &CollectionAt<'_>,
    table: &mut Table,
    key: Sub,
    with: Fill,
) -> Result<(), ShapeError>
    requires whole { IsWhole array.now.schema.now }
    requires named { AreNamed array.now.schema.now }
    requires fits { TableFits array.now.schema.now table.old }
    requires array { HasArray array.now.schema.now table.old array.now.oref.0 array.now.prop.now }
    requires legal { IsTrue (is_legal_sub key) }
    requires held { IsHeldFor table.old with }
    requires given { IsGiven with }
    requires no_copy { ArrayCopiesNoPart array.now.schema.now table.old array.now.oref.0 array.now.prop.now with }
    ensures ok { (at level : ℕ) (i : Item) (pairs : List (Sub × Slot)) → IsArray array.now.schema.now table.old array.now.oref.0 array.now.prop.now at level i pairs → OnOk result (ArraySets array.now.schema.now table.old array.now.oref.0 at level i pairs key with table.new) }
    ensures err { (at level : ℕ) (i : Item) (pairs : List (Sub × Slot)) → IsArray array.now.schema.now table.old array.now.oref.0 array.now.prop.now at level i pairs → IfErr result (λ e. (table.new ≡ let_gone table.old with) × Tells (λ n. (¬ Takes array.now.schema.now table.old i with) × (n ≡ item_error i)) e) }
    ensures fits { TableFits array.now.schema.now table.new }
{
    let spot = find_array(table, array);
    if !takes(table, array.schema, spot.item, &with) {
        return refuse(table, with, error_of(spot.item));
    }
    put_under(table, array, &spot, key, with)
}

/// Fills the element of a key that is there. It takes no memory.
pub fn fill_pair(table: &mut Table, oref: Oref, at: u32, key: Sub, with: Fill)
    requires live { IsLive table.old oref.0 }
    requires place { MayFill table.old oref.0 (AtPair at key) with }
    requires there { (o : Object) × (object_of oref.0 table.old.objects ≡ Some o) × IsAmong (AtPair at key) o.slots }
    requires held { IsHeldFor table.old with }
    ensures { IsFilledTo table.old table.new oref.0 (AtPair at key) with }
{
    match table.fill(oref, &Place::Pair(at, key), with) {
        Ok(()) => {}
        // an element that is there refuses nothing
        Err((back, _)) => give_back(table, back),
    }
}

// Takes the element of the key out, and marks the object. It takes no memory.
fn take_pair(table: &mut Table, oref: Oref, at: u32, key: Sub)
    requires { (pairs : List (Sub × Slot)) × IsArrayAt table.old oref.0 at pairs × IsTrue (is_sorted sub_cmp pairs) × IsSome (find sub_cmp key pairs) }
    ensures memory { (pairs : List (Sub × Slot)) → IsArrayAt table.old oref.0 at pairs → table.new ≡ slot_set table.old oref.0 at (Map (without_first (has_key key) pairs)) [] }
    ensures fits { (classes : List Class) (pairs : List (Sub × Slot)) → IsArrayAt table.old oref.0 at pairs → TakesSlot classes table.old oref.0 at (Map (without_first (has_key key) pairs)) → TableFits classes table.old → TableFits classes table.new }
{
    soundness(table);
    table.set_modified(oref, true);
    fill_pair(table, oref, at, key, Fill::Nothing);
    soundness(table);
}

/// The elements of the array in the slot.
pub fn array_pairs(table: &Table, oref: Oref, at: u32) -> &[(Sub, Slot)]
    ensures { (pairs : List (Sub × Slot)) → IsArrayAt table.now oref.0 at pairs → result.now ≡ pairs }
{
    match slot_in(object_slots(table, oref), at as usize) {
        Some(slot) => slot_pairs(slot),
        None => &[],
    }
}

/// Where the element of the key is, or where it would go.
pub fn pair_place(pairs: &[(Sub, Slot)], key: &Sub) -> Result<usize, usize>
    requires { IsTrue (is_sorted sub_cmp pairs.now) }
    ensures found { IfOk result (λ at. (p : Sub × Slot) × (slice_get pairs.now at ≡ Some p) × (find sub_cmp key.now pairs.now ≡ Some p.1)) }
    ensures absent { OnErr result (find sub_cmp key.now pairs.now ≡ None) }
{
    pairs.binary_search_by(|pair| pair.0.compare(key))
}

/// Takes the element of a key out of the array, and marks the object as modified. What stood there is let go. It answers whether
/// there was one; where there was none nothing changes. It takes no memory, and costs a search among the keys and a move of the
/// elements behind it.
pub fn array_remove(array: &CollectionAt<'_>, table: &mut Table, key: Sub) -> bool
    requires whole { IsWhole array.now.schema.now }
    requires fits { TableFits array.now.schema.now table.old }
    requires array { HasArray array.now.schema.now table.old array.now.oref.0 array.now.prop.now }
    ensures answer { (at level : ℕ) (i : Item) (pairs : List (Sub × Slot)) → IsArray array.now.schema.now table.old array.now.oref.0 array.now.prop.now at level i pairs → ArrayRemoves table.old array.now.oref.0 at pairs key result table.new }
    ensures fits { TableFits array.now.schema.now table.new }
{
    let spot = find_array(table, array);
    let pairs = array_pairs(table, array.oref, spot.at);
    let Ok(_) = pair_place(pairs, &key) else {
        return false;
    };
    take_pair(table, array.oref, spot.at, key);
    true
}
