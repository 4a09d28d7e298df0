ghost use Rattle.std.specs.Prelude.{◌≡◌, ◌<◌, [], vec_len, IfOk};
ghost use Rattle.oref_table.specs.Refs.{refs_in, refs_of};
ghost use Rattle.oref_cases.specs.Parked.{AreParked};

use crate::collections::{
    Spot, insert_item, put_item, put_member, put_pair, take_item, take_member, take_pair,
};
use crate::failure::Failure;
use crate::filling::fill_slot;
use obj_kinds::{ClassName, Id, Sub};
use oref_table::{Fill, Oref, Orefs, Slot, SlotPairs, Slots, Table};
use std::alloc::Global;
use std::marker::Model;

/// A table, and the holds outside it, which are all parked here.
#[derive(Drop)]
pub struct Player {
    table: Table,
    held: Vec<Oref>,
}

impl Model for Player {
    ghost use Rattle.oref_table.specs.Memory.{Memory};
    ghost use Rattle.oref_table.specs.MemoryCode.{memory_code};
    ghost use Rattle.oref_cases.specs.Parked.{AreParked};

    ghost Value = { Memory };

    ghost coded = { memory_code };

    ghost view = { λ p. p.table };

    ghost invariant = { λ p. AreParked p.table p.held.items };
}

/// A slot as its letter says: `s` one without an id, `l` a list, `a` an array, `m` members.
fn empty_slot(alloc: Global, letter: u8) -> Result<Slot, Failure>
    ensures { IfOk result (λ slot. refs_of slot ≡ []) }
{
    match letter {
        b's' => Ok(Slot::Target(None)),
        b'l' => Ok(Slot::Items(Slots::new(alloc))),
        b'a' => Ok(Slot::Map(SlotPairs::new(alloc))),
        b'm' => Ok(Slot::Members(Orefs::new(alloc))),
        _ => Err(Failure::Line),
    }
}

/// A slot for each letter.
fn empty_slots(alloc: Global, letters: &[u8]) -> Result<Slots, Failure>
    ensures { IfOk result (λ slots. refs_in slots ≡ []) }
{
    let mut slots = Slots::new(alloc);
    for letter in letters {
        slots.push(empty_slot(alloc, *letter)?)?;
    }
    Ok(slots)
}

/// Gives the hold at the place back.
fn let_go_at(table: &mut Table, held: &mut Vec<Oref>, at: usize)
    requires parked { AreParked table.old held.old.items }
    requires within { at < vec_len held.old }
    ensures { AreParked table.new held.new.items }
{
    let oref = held.remove(at);
    let hold = table.unpark(oref);
    table.let_go(hold);
}

impl Player {
    /// No objects and no holds.
    pub fn new(alloc: Global) -> Player {
        Player {
            table: Table::new(alloc),
            held: Vec::new(alloc),
        }
    }

    /// The table.
    pub fn table(&self) -> &Table {
        &self.table
    }

    /// Forgets what is told of released objects.
    pub fn clear_released(&mut self) {
        self.table.clear_released();
    }

    /// A new object with a slot for each letter, and its hold.
    pub fn make(&mut self, alloc: Global, class: ClassName, letters: &str) -> Result<(), Failure> {
        let slots = empty_slots(alloc, letters.as_bytes())?;
        self.held.reserve(1)?;
        let made = self.table.make(class, None, None, 0, slots)?;
        let oref = self.table.park(made);
        self.held.push_reserved(oref);
        Ok(())
    }

    /// The same with an id in an extent; it answers whether the two were free.
    pub fn make_keyed(
        &mut self,
        alloc: Global,
        class: ClassName,
        extent: ClassName,
        id: Id,
        letters: &str,
    ) -> Result<bool, Failure> {
        if self.table.by_id(&extent, id).is_some() {
            return Ok(false);
        }
        let slots = empty_slots(alloc, letters.as_bytes())?;
        self.held.reserve(1)?;
        let made = self.table.make(class, Some(extent), Some(id), 0, slots)?;
        let oref = self.table.park(made);
        self.held.push_reserved(oref);
        Ok(true)
    }

    /// A further hold of an object, if it is live.
    pub fn hold(&mut self, oref: Oref) -> Result<bool, Failure> {
        if self.table.get(oref).is_none() {
            return Ok(false);
        }
        self.held.reserve(1)?;
        let hold = self.table.hold(oref)?;
        let parked = self.table.park(hold);
        self.held.push_reserved(parked);
        Ok(true)
    }

    /// Gives a hold of the object back, if there is one.
    pub fn let_go(&mut self, oref: Oref) -> bool {
        match self.held.iter().position(|held| held.0 == oref.0) {
            None => false,
            Some(at) => {
                let_go_at(&mut self.table, &mut self.held, at);
                true
            }
        }
    }

    /// Gives the hold that was taken last back, if there is one.
    pub fn let_last_go(&mut self) -> bool {
        match self.held.len().checked_sub(1) {
            None => false,
            Some(at) => {
                let_go_at(&mut self.table, &mut self.held, at);
                true
            }
        }
    }

    /// Has a slot of an object name another one; it answers whether there are such.
    pub fn link(&mut self, at: Spot, to: Oref) -> Result<bool, Failure> {
        if self.table.get(to).is_none() {
            return Ok(false);
        }
        let held = self.table.hold(to)?;
        fill_slot(&mut self.table, at.oref, at.slot, Fill::To(held))
    }

    /// Has a slot of an object name none; it answers whether there is such a slot.
    pub fn clear(&mut self, at: Spot) -> Result<bool, Failure> {
        fill_slot(&mut self.table, at.oref, at.slot, Fill::Nothing)
    }

    /// Puts an object in the place of an item or at the end; it answers whether there are such.
    pub fn put_item(&mut self, at: Spot, place: u64, to: Oref) -> Result<bool, Failure> {
        if self.table.get(to).is_none() {
            return Ok(false);
        }
        let held = self.table.hold(to)?;
        put_item(&mut self.table, at, place, held)
    }

    /// Puts an object before an item or at the end; it answers whether there are such.
    pub fn insert_item(&mut self, at: Spot, place: u64, to: Oref) -> Result<bool, Failure> {
        if self.table.get(to).is_none() {
            return Ok(false);
        }
        let held = self.table.hold(to)?;
        insert_item(&mut self.table, at, place, held)
    }

    /// Takes an item out; it answers whether there is one.
    pub fn take_item(&mut self, at: Spot, place: u64) -> Result<bool, Failure> {
        take_item(&mut self.table, at, place)
    }

    /// Puts an object under a key; it answers whether there are an array and the object.
    pub fn put_pair(&mut self, at: Spot, key: Sub, to: Oref) -> Result<bool, Failure> {
        if self.table.get(to).is_none() {
            return Ok(false);
        }
        let held = self.table.hold(to)?;
        put_pair(&mut self.table, at, key, held)
    }

    /// Takes the element of a key out; it answers whether there is one.
    pub fn take_pair(&mut self, at: Spot, key: Sub) -> Result<bool, Failure> {
        take_pair(&mut self.table, at, key)
    }

    /// Adds a member; it answers whether it may be added.
    pub fn put_member(&mut self, at: Spot, member: Oref) -> Result<bool, Failure> {
        if self.table.get(member).is_none() {
            return Ok(false);
        }
        let held = self.table.hold(member)?;
        put_member(&mut self.table, at, member, held)
    }

    /// Takes a member out; it answers whether it is one.
    pub fn take_member(&mut self, at: Spot, member: Oref) -> bool {
        take_member(&mut self.table, at, member)
    }
}
