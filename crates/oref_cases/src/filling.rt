ghost use Rattle.std.specs.Prelude.{ℕ, ◌≡◌, ◌-◌, ◌<◌, Some, length, true};
ghost use Rattle.oref_table.specs.Filling.{IsHeldFor, passed};
ghost use Rattle.oref_table.specs.Memory.{Object, object_of, outside_of};
ghost use Rattle.oref_table.specs.Places.{MayFill};
ghost use Rattle.oref_table.specs.Refs.{times};

use crate::failure::Failure;
use obj_kinds::Value;
use oref_table::{Fill, Oref, Place, Table};

/// Whether the object is live, and has a slot of this number.
fn has_slot(table: &Table, oref: Oref, slot: u32) -> bool
    ensures { result ≡ true → (o : Object) × (object_of oref.0 table.now.objects ≡ Some o) × (slot < length o.slots) }
{
    match table.get(oref) {
        None => false,
        Some(obj) => (slot as usize) < obj.slots.len(),
    }
}

/// A value that isn't stored.
fn let_value_go(_value: Value) {}

/// Gives back what was to be stored.
pub fn give_back(table: &mut Table, with: Fill)
    requires { IsHeldFor table.old with }
    ensures { (n : ℕ) → outside_of table.new n ≡ outside_of table.old n - times n (passed with) }
{
    match with {
        Fill::To(held) => table.let_go(held),
        Fill::Plain(value) => let_value_go(value),
        Fill::Target(_) => {}
        Fill::Nothing => {}
    }
}

/// Fills a place that may be filled so.
pub fn put(table: &mut Table, oref: Oref, at: &Place, with: Fill) -> Result<bool, Failure>
    requires place { MayFill table.old oref.0 at.now with }
    requires held { IsHeldFor table.old with }
    ensures { (n : ℕ) → outside_of table.new n ≡ outside_of table.old n - times n (passed with) }
{
    match table.fill(oref, at, with) {
        Ok(()) => Ok(true),
        Err(refused) => {
            give_back(table, refused.0);
            Err(Failure::Room)
        }
    }
}

/// Fills a slot, or gives back what was to stand there, and answers whether there is such a slot.
pub fn fill_slot(table: &mut Table, oref: Oref, slot: u32, with: Fill) -> Result<bool, Failure>
    requires { IsHeldFor table.old with }
    ensures { (n : ℕ) → outside_of table.new n ≡ outside_of table.old n - times n (passed with) }
{
    if !has_slot(table, oref, slot) {
        give_back(table, with);
        return Ok(false);
    }
    put(table, oref, &Place::Slot(slot), with)
}
