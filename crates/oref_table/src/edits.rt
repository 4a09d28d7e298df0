ghost use Rattle.std.specs.Prelude.{IsOk, ℕ, ◌≡◌, ◌+◌, ◌<◌, ◌≤◌, ◌^◌, ◌↔◌, List, Some, None, insert, slice_get, slice_set, IfOk, IfErr, OnOk, OnErr, IsErr};
ghost use Rattle.std.specs.List.{AllByRecursion};
ghost use Rattle.std.specs.Map.{lookup};
ghost use Rattle.std.specs.BTreeMap.{is_at};
ghost use Rattle.std.specs.Ordering.{nat_cmp};
ghost use Rattle.obj_kinds.specs.declared.memory.Lack.TheVariants.{Count};
ghost use Rattle.oref_table.specs.declared.fill.Place.TheVariants.{Slot as AtSlot};
ghost use Rattle.oref_table.specs.declared.obj.Entry.{Entry};
ghost use Rattle.oref_table.specs.declared.obj.Obj.{Obj};
ghost use Rattle.oref_table.specs.declared.slot.Slot.{Slot};
ghost use Rattle.oref_table.specs.declared.slot.Slot.TheVariants.{Items, Members};
ghost use Rattle.oref_table.specs.declared.oref.Oref.{Oref};
ghost use Rattle.oref_table.specs.Memory.{without_first};
ghost use Rattle.oref_table.specs.Filling.{is_member};
ghost use Rattle.oref_table.specs.Entries.{HasHolder, raised, with_entry_id, with_entry_level, with_entry_mark};
ghost use Rattle.oref_table.specs.Exchanges.{DropsRow, FillsRow, HasItemsAt, HasMembersAt, InsertsRow, IsFilling};
ghost use Rattle.oref_table.specs.Places.{IsAmong, Takes};
ghost use Rattle.oref_table.specs.Refs.{refs_of};
ghost use Rattle.oref_table.specs.Rows.{entries_in, IsRowEdit};

use crate::fill::{Fill, Place};
use crate::items::insert_into;
use crate::members::drop_from;
use crate::obj::Obj;
use crate::places::fill_slots;
use crate::rows::ByNumber;
use crate::slot::Slot;
use obj_kinds::{Id, Lack};
use std::alloc::Global;

fn put_id(obj: &mut Obj, id: Id)
    ensures { obj.new ≡ record obj.old { id = Some id } }
{
    obj.id = Some(id);
}

/// Gives the object of the number an id.
pub fn set_id(rows: &mut ByNumber, number: u64, id: Id)
    ensures { IsRowEdit number (with_entry_id id) rows.old.entries rows.new.entries }
{
    match rows.get_mut(&number) {
        None => {}
        Some(obj) => put_id(obj, id),
    }
}

fn put_level(obj: &mut Obj, level: u8)
    ensures { obj.new ≡ record obj.old { level = level } }
{
    obj.level = level;
}

/// Notes the level of the object of the number.
pub fn set_level(rows: &mut ByNumber, number: u64, level: u8)
    ensures { IsRowEdit number (with_entry_level level) rows.old.entries rows.new.entries }
{
    match rows.get_mut(&number) {
        None => {}
        Some(obj) => put_level(obj, level),
    }
}

fn put_mark(obj: &mut Obj, modified: bool)
    ensures { obj.new ≡ record obj.old { modified = modified } }
{
    obj.modified = modified;
}

/// Marks the object of the number as modified, or takes the mark away.
pub fn set_modified(rows: &mut ByNumber, number: u64, modified: bool)
    ensures { IsRowEdit number (with_entry_mark modified) rows.old.entries rows.new.entries }
{
    match rows.get_mut(&number) {
        None => {}
        Some(obj) => put_mark(obj, modified),
    }
}

/// Counts one holder more, if the count has room.
fn raise_count(obj: &mut Obj) -> Result<(), Lack>
    ensures ok { OnOk result (obj.new ≡ record obj.old { count = obj.old.count + 1 }) }
    ensures err { IfErr result (λ e. (e ≡ Count) × (obj.new ≡ obj.old)) }
    ensures count { IsErr result ↔ (2 ^ 64 ≤ obj.old.count + 1) }
{
    if obj.is_full() {
        return Err(Lack::Count);
    }
    obj.count += 1;
    Ok(())
}

/// Counts one holder more of the object of the number, which has one.
pub fn raise(rows: &mut ByNumber, number: u64) -> Result<(), Lack>
    requires { AllByRecursion HasHolder (entries_in rows.old.entries) }
    ensures ok { OnOk result (IsRowEdit number raised rows.old.entries rows.new.entries) }
    ensures err { IfErr result (λ e. (e ≡ Count) × (rows.new.entries ≡ rows.old.entries)) }
    ensures count { (v : Obj) → lookup (is_at (nat_cmp number)) rows.old.entries ≡ Some v → IsErr result ↔ (2 ^ 64 ≤ v.count + 1) }
{
    match rows.get_mut(&number) {
        None => Ok(()),
        Some(obj) => raise_count(obj),
    }
}

fn fill_obj(alloc: Global, obj: &mut Obj, at: &Place, with: Fill) -> Result<Slot, Fill>
    requires { Takes at.now with obj.old.slots }
    ensures ok { IfOk result (λ out. (slots : List Slot) × (obj.new ≡ record obj.old { slots = slots }) × IsFilling at.now with obj.old.slots slots (refs_of out)) }
    ensures err { IfErr result (λ back. (back ≡ with) × (obj.new ≡ obj.old)) }
    ensures slot { (s : ℕ) → at.now ≡ AtSlot s → IsOk result }
    ensures there { IsAmong at.now obj.old.slots → IsOk result }
{
    fill_slots(alloc, &mut obj.slots, at, with)
}

/// Fills the place of the object of the number, and answers what is given up; for want of memory what was to stand there
/// comes back, and nothing changes.
pub fn fill(
    alloc: Global,
    rows: &mut ByNumber,
    number: u64,
    at: &Place,
    with: Fill,
) -> Result<Slot, Fill>
    requires { (v : Obj) × (lookup (is_at (nat_cmp number)) rows.old.entries ≡ Some v) × Takes at.now with v.slots }
    ensures ok { IfOk result (λ out. FillsRow at.now with number rows.old.entries rows.new.entries (refs_of out)) }
    ensures err { IfErr result (λ back. (back ≡ with) × (rows.new.entries ≡ rows.old.entries)) }
    ensures slot { (s : ℕ) → at.now ≡ AtSlot s → IsOk result }
    ensures there { (v : Obj) → lookup (is_at (nat_cmp number)) rows.old.entries ≡ Some v → IsAmong at.now v.slots → IsOk result }
{
    match rows.get_mut(&number) {
        None => Err(with),
        Some(obj) => fill_obj(alloc, obj, at, with),
    }
}

fn insert_in(obj: &mut Obj, at: usize, before: usize, item: Slot) -> Option<Slot>
    requires { HasItemsAt at before obj.old.slots }
    ensures added { result ≡ None → (items : List Slot) × (slice_get obj.old.slots at ≡ Some (Items items)) × (obj.new ≡ record obj.old { slots = slice_set obj.old.slots at (Items (insert items before item)) }) }
    ensures refused { (back : Slot) → result ≡ Some back → (back ≡ item) × (obj.new ≡ obj.old) }
{
    insert_into(&mut obj.slots, at, before, item)
}

/// Adds an item before the place to the list in the slot of the object of the number, or hands it back, and then
/// nothing changes.
pub fn insert_item(
    rows: &mut ByNumber,
    number: u64,
    at: usize,
    before: usize,
    item: Slot,
) -> Option<Slot>
    requires { (v : Obj) × (lookup (is_at (nat_cmp number)) rows.old.entries ≡ Some v) × HasItemsAt at before v.slots }
    ensures added { result ≡ None → InsertsRow number at before item rows.old.entries rows.new.entries }
    ensures refused { (back : Slot) → result ≡ Some back → (back ≡ item) × (rows.new.entries ≡ rows.old.entries) }
{
    match rows.get_mut(&number) {
        None => Some(item),
        Some(obj) => insert_in(obj, at, before, item),
    }
}

fn drop_in(obj: &mut Obj, at: usize, member: u64)
    requires { HasMembersAt at obj.old.slots }
    ensures { (members : List Oref) × (slice_get obj.old.slots at ≡ Some (Members members)) × (obj.new ≡ record obj.old { slots = slice_set obj.old.slots at (Members (without_first (is_member member) members)) }) }
{
    drop_from(&mut obj.slots, at, member);
}

/// Takes the member out of the slot of the object of the number.
pub fn drop_member(rows: &mut ByNumber, number: u64, at: usize, member: u64)
    requires { (v : Obj) × (lookup (is_at (nat_cmp number)) rows.old.entries ≡ Some v) × HasMembersAt at v.slots }
    ensures { DropsRow number at member rows.old.entries rows.new.entries }
{
    match rows.get_mut(&number) {
        None => {}
        Some(obj) => drop_in(obj, at, member),
    }
}
