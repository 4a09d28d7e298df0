ghost use Rattle.std.specs.Prelude.{ℕ, ◌≡◌, ◌-◌, ◌<◌, ◌∷◌, [], Some, List};
ghost use Rattle.oref_table.specs.Filling.{IsHeldFor, passed, slot_from};
ghost use Rattle.oref_table.specs.Memory.{outside_of};
ghost use Rattle.oref_table.specs.Refs.{times};
ghost use Rattle.schema_kinds.specs.declared.class.Class.{Class};
ghost use Rattle.obj_shape.specs.Fitting.{TableFits};
ghost use Rattle.obj_props.specs.Changes.{HasSlot, let_gone};
ghost use Rattle.prop_setting.specs.Elements.{given_back, slot_set};
ghost use Rattle.prop_setting.specs.Fits.{TakesSlot};

use obj_props::{fill_slot, give_back, soundness};
use oref_table::{Fill, Held, Oref, Table};

/// Fills the slot and marks the object. It takes no memory.
pub fn put(table: &mut Table, oref: Oref, at: u32, with: Fill)
    requires slot { HasSlot table.old oref.0 at }
    requires held { IsHeldFor table.old with }
    ensures memory { table.new ≡ slot_set table.old oref.0 at (slot_from with) (passed with) }
    ensures holds { (n : ℕ) → outside_of table.new n ≡ outside_of table.old n - times n (passed with) }
    ensures fits { (classes : List Class) → TakesSlot classes table.old oref.0 at (slot_from with) → TableFits classes table.old → TableFits classes table.new }
{
    soundness(table);
    table.set_modified(oref, true);
    fill_slot(table, oref, at, with);
    soundness(table);
}

/// Gives a hold back. It takes no memory.
pub fn let_go(table: &mut Table, held: Held)
    requires { 0 < outside_of table.old held.number }
    ensures memory { table.new ≡ given_back table.old (Some held) }
    ensures holds { (n : ℕ) → outside_of table.new n ≡ outside_of table.old n - times n (held.number ∷ []) }
    ensures fits { (classes : List Class) → TableFits classes table.old → TableFits classes table.new }
{
    soundness(table);
    table.let_go(held);
    soundness(table);
}

/// Gives back the hold of what was to be stored. It takes no memory.
pub fn drop_given(table: &mut Table, with: Fill)
    requires { IsHeldFor table.old with }
    ensures memory { table.new ≡ let_gone table.old with }
    ensures fits { (classes : List Class) → TableFits classes table.old → TableFits classes table.new }
{
    soundness(table);
    give_back(table, with);
    soundness(table);
}
