ghost use Rattle.std.specs.Prelude.{ℕ, ℤ, ◌≡◌, ◌≢◌, ◌<◌, ◌≤◌, ◌+◌, ◌-◌, List, [], Some, insert, length, slice_set, IfErr, IfNone, IfSome, OnErr, OnOk};
ghost use Rattle.std.specs.List.{remove};
ghost use Rattle.oref_table.specs.declared.slot.Slot.{Slot};
ghost use Rattle.oref_table.specs.declared.slot.Slot.TheVariants.{Items};
ghost use Rattle.oref_table.specs.declared.fill.Fill.TheVariants.{Nothing};
ghost use Rattle.oref_table.specs.declared.fill.Place.TheVariants.{Item as AtItem};
ghost use Rattle.oref_table.specs.Filling.{IsHeldFor, passed, slot_from};
ghost use Rattle.oref_table.specs.Memory.{IsLive, Object, object_of, outside_of};
ghost use Rattle.oref_table.specs.Places.{IsAmong, IsFilledTo, MayFill};
ghost use Rattle.oref_table.specs.Refs.{times};
ghost use Rattle.schema_kinds.specs.declared.class.Class.{Class};
ghost use Rattle.obj_shape.specs.Fitting.{TableFits};
ghost use Rattle.prop_setting.specs.Elements.{given_back, slot_set};
ghost use Rattle.prop_setting.specs.Fits.{TakesSlot};
ghost use Rattle.prop_setting.specs.Lists.{HasItemsAt, IsAt, IsListAt, IsNowhere};
ghost use Rattle.prop_setting.specs.Standings.{IsHeldBack};

use crate::changes::let_go;
use obj_kinds::NoMemory;
use obj_props::{give_back, soundness};
use oref_table::{Fill, Held, Oref, Place, Table};
use part_copies::standing;

/// The place of the item at a position, which is counted from 1; none where it is none of so many.
#[tactic(auto, using(std::proofs::lemmas::Int::ints))]
pub fn item_place(position: i64, len: u64) -> Option<u64>
    ensures some { IfSome result (λ k. IsAt position k × (k < len)) }
    ensures none { IfNone result (IsNowhere position len) }
{
    if position < 1 {
        return None;
    }
    let place = position as u64 - 1;
    if place < len {
        return Some(place);
    }
    None
}

/// Fills the place of an item that is there. It takes no memory.
pub fn fill_item(table: &mut Table, oref: Oref, at: u32, place: u64, with: Fill)
    requires live { IsLive table.old oref.0 }
    requires place { MayFill table.old oref.0 (AtItem at place) with }
    requires there { (o : Object) × (object_of oref.0 table.old.objects ≡ Some o) × IsAmong (AtItem at place) o.slots }
    requires held { IsHeldFor table.old with }
    ensures memory { IsFilledTo table.old table.new oref.0 (AtItem at place) with }
    ensures holds { (n : ℕ) → outside_of table.new n ≡ outside_of table.old n - times n (passed with) }
{
    match table.fill(oref, &Place::Item(at, place), with) {
        Ok(()) => {}
        // an item that is there refuses nothing
        Err((back, _)) => give_back(table, back),
    }
}

/// Puts something in the place of an item of a list, and marks the object. It takes no memory.
pub fn put_item(table: &mut Table, oref: Oref, at: u32, place: u64, with: Fill)
    requires list { HasItemsAt table.old oref.0 at (place + 1) }
    requires held { IsHeldFor table.old with }
    requires filling { with ≢ Nothing }
    ensures memory { (items : List Slot) → IsListAt table.old oref.0 at items → table.new ≡ slot_set table.old oref.0 at (Items (slice_set items place (slot_from with))) (passed with) }
    ensures holds { (n : ℕ) → outside_of table.new n ≡ outside_of table.old n - times n (passed with) }
    ensures fits { (classes : List Class) (items : List Slot) → IsListAt table.old oref.0 at items → TakesSlot classes table.old oref.0 at (Items (slice_set items place (slot_from with))) → TableFits classes table.old → TableFits classes table.new }
{
    soundness(table);
    table.set_modified(oref, true);
    fill_item(table, oref, at, place, with);
    soundness(table);
}

/// Takes an item out of a list, and marks the object. It takes no memory.
pub fn take_item(table: &mut Table, oref: Oref, at: u32, place: u64)
    requires { HasItemsAt table.old oref.0 at (place + 1) }
    ensures memory { (items : List Slot) → IsListAt table.old oref.0 at items → table.new ≡ slot_set table.old oref.0 at (Items (remove items place)) [] }
    ensures fits { (classes : List Class) (items : List Slot) → IsListAt table.old oref.0 at items → TakesSlot classes table.old oref.0 at (Items (remove items place)) → TableFits classes table.old → TableFits classes table.new }
{
    soundness(table);
    table.set_modified(oref, true);
    fill_item(table, oref, at, place, Fill::Nothing);
    soundness(table);
}

/// Puts something before an item of a list, or at its end, and marks the object. For want of memory it hands it back, and the
/// table is as before.
pub fn add_item(table: &mut Table, oref: Oref, at: u32, before: u64, with: Fill) -> Result<(), Fill>
    requires list { HasItemsAt table.old oref.0 at before }
    requires held { IsHeldFor table.old with }
    requires filling { with ≢ Nothing }
    ensures memory { (items : List Slot) → IsListAt table.old oref.0 at items → OnOk result (table.new ≡ slot_set table.old oref.0 at (Items (insert items before (slot_from with))) (passed with)) }
    ensures holds { OnOk result ((n : ℕ) → outside_of table.new n ≡ outside_of table.old n - times n (passed with)) }
    ensures fits { (classes : List Class) (items : List Slot) → IsListAt table.old oref.0 at items → OnOk result (TakesSlot classes table.old oref.0 at (Items (insert items before (slot_from with))) → TableFits classes table.old → TableFits classes table.new) }
    ensures err { OnErr result (table.new ≡ table.old) }
    ensures back { IfErr result (λ back. back ≡ with) }
{
    standing(table);
    match table.insert_item(oref, at, before, with) {
        Ok(()) => {
            table.set_modified(oref, true);
            standing(table);
            Ok(())
        }
        Err((back, NoMemory)) => Err(back),
    }
}

/// Gives back the hold of an object of which only a text stands somewhere, where there is one.
pub fn let_back_go(table: &mut Table, back: Option<Held>)
    requires { (h : Held) → back ≡ Some h → 0 < outside_of table.old h.number }
    ensures memory { table.new ≡ given_back table.old back }
    ensures fits { (classes : List Class) → TableFits classes table.old → TableFits classes table.new }
{
    if let Some(held) = back {
        let_go(table, held);
    }
}
