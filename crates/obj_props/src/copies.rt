ghost use Rattle.std.specs.Prelude.{◌≡◌, IfOk};

use item_rows::Rows;
use obj_kinds::{NoMemory, Sub};
use oref_table::{Oref, Orefs, Slot, SlotPairs, Slots};
use std::alloc::Global;

fn copy_orefs(alloc: Global, orefs: &[Oref]) -> Result<Orefs, NoMemory>
    ensures { IfOk result (λ copy. copy ≡ orefs.now) }
{
    let mut copy = Rows::new(alloc);
    for oref in orefs {
        copy.push(*oref)?;
    }
    Ok(copy)
}

/// The same slot again. It fails only for want of memory.
#[cycle(copy)]
pub fn copy_slot(alloc: Global, slot: &Slot) -> Result<Slot, NoMemory>
    ensures { IfOk result (λ copy. copy ≡ slot.now) }
{
    match slot {
        Slot::Plain(value) => Ok(Slot::Plain(value.copy(alloc)?)),
        Slot::Target(id) => Ok(Slot::Target(*id)),
        Slot::To(oref) => Ok(Slot::To(*oref)),
        Slot::Items(slots) => Ok(Slot::Items(copy_slots(alloc, slots.as_slice())?)),
        Slot::Map(pairs) => Ok(Slot::Map(copy_pairs(alloc, pairs.as_slice())?)),
        Slot::Members(orefs) => Ok(Slot::Members(copy_orefs(alloc, orefs.as_slice())?)),
    }
}

/// The same slots again. It fails only for want of memory.
#[cycle(copy)]
pub fn copy_slots(alloc: Global, slots: &[Slot]) -> Result<Slots, NoMemory>
    ensures { IfOk result (λ copy. copy ≡ slots.now) }
{
    let mut copy = Rows::new(alloc);
    for slot in slots {
        copy.push(copy_slot(alloc, slot)?)?;
    }
    Ok(copy)
}

#[cycle(copy)]
fn copy_pairs(alloc: Global, pairs: &[(Sub, Slot)]) -> Result<SlotPairs, NoMemory>
    ensures { IfOk result (λ copy. copy ≡ pairs.now) }
{
    let mut copy = Rows::new(alloc);
    for pair in pairs {
        let key = pair.0.copy(alloc)?;
        let slot = copy_slot(alloc, &pair.1)?;
        copy.push((key, slot))?;
    }
    Ok(copy)
}
