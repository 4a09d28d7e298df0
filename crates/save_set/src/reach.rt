ghost use Rattle.std.specs.Prelude.{◌≡◌, IfOk, OnOk, map};
ghost use Rattle.oref_table.specs.Memory.{IsLive};
ghost use Rattle.oref_table.specs.Refs.{refs_of, refs_in, refs_of_pairs, numbers};
ghost use Rattle.object_calls.specs.Reach.{reached};
ghost use Rattle.object_members.specs.Seeing.{numbers_of};
ghost use Rattle.save_set.specs.Marking.{found_in, mark_one, mark_each, refs_at};

use obj_kinds::{NoMemory, Sub};
use obj_shape::object_slots;
use oref_table::{Oref, Slot, Table};
use sqlite_items::Items;
use std::alloc::Global;
use std::collections::BTreeSet;

/// The numbers of objects, each once, in rising order.
pub type Numbers = BTreeSet<u64>;

/// What was found of the objects that a root reaches.
#[derive(Drop)]
pub struct Reach {
    /// The objects that were found.
    pub marks: Numbers,
    /// Those of them whose slots are still to be looked at.
    pub ahead: Items<u64>,
}

// The object is found, and will be looked at where it wasn't found before.
#[tactic(auto, unfolding(crate::specs::Marking::mark_one))]
fn mark(reach: &mut Reach, number: u64) -> Result<(), NoMemory>
    ensures { OnOk result (found_in reach.new ≡ mark_one number (found_in reach.old)) }
{
    if reach.marks.insert(number)? {
        reach.ahead.push(number)?;
    }
    Ok(())
}

fn mark_orefs(reach: &mut Reach, orefs: &[Oref]) -> Result<(), NoMemory>
    ensures { OnOk result (found_in reach.new ≡ mark_each (numbers orefs.now) (found_in reach.old)) }
{
    for oref in orefs {
        mark(reach, oref.0)?;
    }
    Ok(())
}

// All that the slot names is found.
#[cycle(mark)]
fn mark_slot(reach: &mut Reach, slot: &Slot) -> Result<(), NoMemory>
    ensures { OnOk result (found_in reach.new ≡ mark_each (refs_of slot.now) (found_in reach.old)) }
{
    match slot {
        Slot::Plain(_) => Ok(()),
        Slot::Target(_) => Ok(()),
        Slot::To(oref) => mark(reach, oref.0),
        Slot::Items(slots) => mark_slots(reach, slots.as_slice()),
        Slot::Map(pairs) => mark_pairs(reach, pairs.as_slice()),
        Slot::Members(orefs) => mark_orefs(reach, orefs.as_slice()),
    }
}

#[cycle(mark)]
fn mark_slots(reach: &mut Reach, slots: &[Slot]) -> Result<(), NoMemory>
    ensures { OnOk result (found_in reach.new ≡ mark_each (refs_in slots.now) (found_in reach.old)) }
{
    for slot in slots {
        mark_slot(reach, slot)?;
    }
    Ok(())
}

#[cycle(mark)]
fn mark_pairs(reach: &mut Reach, pairs: &[(Sub, Slot)]) -> Result<(), NoMemory>
    ensures { OnOk result (found_in reach.new ≡ mark_each (refs_of_pairs pairs.now) (found_in reach.old)) }
{
    for pair in pairs {
        mark_slot(reach, &pair.1)?;
    }
    Ok(())
}

#[tactic(auto, using(crate::proofs::Walking::refs_kept))]
fn look_at(reach: &mut Reach, table: &Table, number: u64) -> Result<(), NoMemory>
    ensures { OnOk result (found_in reach.new ≡ mark_each (refs_at table.now number) (found_in reach.old)) }
{
    mark_slots(reach, object_slots(table, Oref(number)))
}

/// The live objects that the root reaches by OREFs in slots. It looks at each of them once, and fails only for want of memory.
pub fn reach_of(alloc: Global, table: &Table, root: Oref) -> Result<Numbers, NoMemory>
    requires { IsLive table.now root.0 }
    ensures { IfOk result (λ found. found.keys ≡ reached (refs_at table.now) (numbers_of table.now) root.0) }
{
    let _ = table.live();
    let mut reach = Reach {
        marks: BTreeSet::new(alloc),
        ahead: Items::new(alloc),
    };
    mark(&mut reach, root.0)?;
    while let Some(number) = reach.ahead.pop() {
        look_at(&mut reach, table, number)?;
    }
    let _ = reach.marks.len();
    Ok(reach.marks)
}
