ghost use Rattle.std.specs.Prelude.{ℕ, ◌≡◌, ◌+◌, ◌-◌, ◌<◌, ◌^◌, ◌∷◌, []};
ghost use Rattle.oref_table.specs.declared.fill.Place.TheVariants.{Slot as AtSlot};
ghost use Rattle.oref_table.specs.Filling.{IsHeldFor, passed};
ghost use Rattle.oref_table.specs.Kept.{holders_of};
ghost use Rattle.oref_table.specs.Memory.{IsLive, edited, outside_of, tighten};
ghost use Rattle.oref_table.specs.Places.{IsFilledTo, MayFill};
ghost use Rattle.oref_table.specs.Refs.{times};
ghost use Rattle.oref_table.specs.Sound.{IsSound};
ghost use Rattle.obj_props.specs.Changes.{let_gone};

use oref_table::{Fill, Held, Oref, Place, Table};

/// What holds of every table. It takes no memory.
pub fn soundness(table: &Table)
    ensures { IsSound table.now }
{
    let _ = table.live();
}

/// Gives back the hold of what was to be stored. It takes no memory.
#[tactic(auto, unfolding(crate::specs::Changes::let_gone, oref_table::specs::Filling::IsHeldFor))]
pub fn give_back(table: &mut Table, with: Fill)
    requires { IsHeldFor table.old with }
    ensures { table.new ≡ let_gone table.old with }
{
    match with {
        Fill::Plain(_) => {}
        Fill::Target(_) => {}
        Fill::To(held) => table.let_go(held),
        Fill::Nothing => {}
    }
}

/// Fills a slot, which takes no memory.
pub fn fill_slot(table: &mut Table, oref: Oref, at: u32, with: Fill)
    requires live { IsLive table.old oref.0 }
    requires place { MayFill table.old oref.0 (AtSlot at) with }
    requires held { IsHeldFor table.old with }
    ensures memory { IsFilledTo table.old table.new oref.0 (AtSlot at) with }
    ensures holds { (n : ℕ) → outside_of table.new n ≡ outside_of table.old n - times n (passed with) }
{
    match table.fill(oref, &Place::Slot(at), with) {
        Ok(()) => {}
        // a slot refuses nothing
        Err((back, _)) => give_back(table, back),
    }
}

/// One hold more of an object that has room for one. It takes no memory.
pub fn hold_again(table: &mut Table, held: &Held) -> Held
    requires live { IsLive table.old held.now.number }
    requires few { holders_of table.old held.now.number + 1 < 2 ^ 64 }
    ensures memory { table.new ≡ edited table.old held.now.number tighten }
    ensures held { result.number ≡ held.now.number }
    ensures outside { 0 < outside_of table.new result.number }
    ensures holds { (n : ℕ) → outside_of table.new n ≡ outside_of table.old n + times n (held.now.number ∷ []) }
{
    match table.hold(held.oref()) {
        Ok(again) => again,
        // there is room
        Err(_) => table.unpark(held.oref()),
    }
}
