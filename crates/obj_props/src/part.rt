ghost use Rattle.std.specs.Prelude.{ℕ, ◌≡◌, ◌+◌, ◌≤◌, ◌^◌, ◌↔◌, ◌∷◌, [], Err, IfOk, OnErr, OnOk};
ghost use Rattle.obj_kinds.specs.declared.memory.Lack.TheVariants.{Count};
ghost use Rattle.oref_table.specs.Memory.{outside_of};
ghost use Rattle.oref_table.specs.Refs.{refs_in, times};
ghost use Rattle.oref_table.specs.declared.slot.Slot.TheVariants.{To};
ghost use Rattle.obj_props.specs.Changes.{HasSlot};
ghost use Rattle.obj_props.specs.Properties.{part_made};

use crate::store::{fill_slot, hold_again, soundness};
use obj_kinds::{ClassName, Lack};
use oref_table::{Fill, Held, Oref, Slots, Table};

/// A part that is to have an object.
#[derive(Drop)]
pub struct NewPart {
    pub class: ClassName,
    pub extent: Option<ClassName>,
    pub level: u8,
    pub slots: Slots,
}

/// Gives a part an object, which the slot of its holder then has, and answers a hold of it. `Count` where no number is left;
/// at a refusal the table is as before.
pub fn make_part(table: &mut Table, holder: Oref, at: u32, part: NewPart) -> Result<Held, Lack>
    requires slot { HasSlot table.old holder.0 at }
    requires no_refs { refs_in part.slots ≡ [] }
    ensures memory { OnOk result (table.new ≡ part_made table.old holder.0 part.level at part.class part.extent part.slots (To (record { 0 = table.old.last + 1 }))) }
    ensures held { IfOk result (λ h. h.number ≡ table.old.last + 1) }
    ensures holds { IfOk result (λ h. (n : ℕ) → outside_of table.new n ≡ outside_of table.old n + times n (h.number ∷ [])) }
    ensures err { OnErr result (table.new ≡ table.old) }
    ensures count { (result ≡ Err Count) ↔ (2 ^ 64 ≤ table.old.last + 1) }
{
    soundness(table);
    let held = table.make(part.class, part.extent, None, part.level, part.slots)?;
    let again = hold_again(table, &held);
    fill_slot(table, holder, at, Fill::To(again));
    Ok(held)
}
