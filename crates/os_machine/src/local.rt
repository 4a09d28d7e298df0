ghost use Rattle.std.specs.Prelude.{◌≡◌, ℕ, ◌+◌, ◌-◌, ◌<◌, min, IfOk, OnErr, IfSome, IfNone};
ghost use Rattle.os_machine.specs.Places.{CountsTold, CountsTo, places_at};
ghost use Rattle.os_machine.specs.States.{Steps, Quiet, Tells, Passes, left};

use crate::stepped::{Awaits, Sight, Stepped};
use crate::work::Work;
use obj_kinds::{ErrorName, NoMemory};
use os_code::Instruction;
use os_kinds::{Call, Val};
use sqlite_items::at;
use std::alloc::Global;

/// What a run comes to.
#[derive(Debug, Drop)]
pub(crate) enum Told {
    Shows(Sight),
    /// It asks, and waits for the answer.
    Asks(Call, Awaits),
    /// The frame is left with a value.
    Leaves(Val),
    Fails(ErrorName, u32),
    Halts,
    /// A unit is wanted, and none is left.
    Fuel,
}

/// A frame at one place of its code: the object whose method runs, and what the frame has there.
#[derive(Drop)]
pub(crate) struct Local {
    pub(crate) place: usize,
    pub(crate) this: Option<Val>,
    pub(crate) work: Work,
}

impl Local {
    // Takes a unit and goes on at the next place, or is out of fuel.
    fn take_unit(&mut self, next: usize, units: &mut u32) -> Option<Told>
        ensures none { IfNone result ((self.new ≡ record self.old { place = next }) × (units.old ≡ units.new + 1)) }
        ensures some { IfSome result (λ t. (t ≡ Told.Fuel) × (self.new ≡ self.old) × (units.old ≡ 0) × (units.new ≡ 0)) }
    {
        if *units == 0 {
            return Some(Told::Fuel);
        }
        *units -= 1;
        self.place = next;
        None
    }

    // Goes on behind an instruction.
    fn after(&mut self, end: usize, stepped: Stepped, units: &mut u32) -> Option<Told>
        requires { self.old.place < end }
        ensures { Passes end units.old units.new stepped self.old result self.new }
    {
        match stepped {
            Stepped::Goes(over) => {
                self.place = behind(self.place, over, end);
                None
            }
            Stepped::Shows(sight, over) => {
                self.place = behind(self.place, over, end);
                Some(Told::Shows(sight))
            }
            Stepped::Stays(sight) => Some(Told::Shows(sight)),
            Stepped::Asks(call, awaits) => {
                self.place += 1;
                Some(Told::Asks(call, awaits))
            }
            Stepped::Leaves(value) => Some(Told::Leaves(value)),
            Stepped::Spends => self.take_unit(self.place + 1, units),
            Stepped::Returns(back) => self.take_unit(back_from(self.place + 1, back), units),
            Stepped::Fails(name, line) => Some(Told::Fails(name, line)),
            Stepped::Halts => Some(Told::Halts),
        }
    }

    // One instruction of the code.
    fn step(
        &mut self,
        alloc: Global,
        code: &[Instruction],
        units: &mut u32,
    ) -> Result<Option<Told>, NoMemory>
        ensures ok { IfOk result (λ t. Steps code.now t units.old units.new self.old self.new) }
        ensures orefs { IfOk result (λ t. CountsTo t self.old self.new) }
        ensures falls { IfOk result (λ t. IfNone t (left code.now units.new self.new < left code.now units.old self.old)) }
        ensures err { OnErr result ((self.new ≡ self.old) × (units.new ≡ units.old)) }
    {
        match at(code, self.place) {
            None => Ok(Some(Told::Halts)),
            Some(instruction) => {
                let stepped = self.work.act(alloc, &self.this, instruction)?;
                Ok(self.after(code.len(), stepped, units))
            }
        }
    }

    /// Runs until there is something to tell. Where memory runs out it stands behind what was done so far.
    pub(crate) fn run(
        &mut self,
        alloc: Global,
        code: &[Instruction],
        units: &mut u32,
    ) -> Result<Told, NoMemory>
        ensures ok { IfOk result (λ t. Tells code.now t units.old units.new self.old self.new) }
        ensures orefs { IfOk result (λ t. CountsTold t self.old self.new) }
        ensures err { OnErr result (Quiet code.now units.old units.new self.old self.new) }
        ensures kept { OnErr result ((k : ℕ) → places_at k self.new ≡ places_at k self.old) }
    {
        'steps: loop {
            match self.step(alloc, code, units)? {
                None => {}
                Some(told) => return Ok(told),
            }
        }
    }

    /// Goes on behind so many of the following instructions.
    pub(crate) fn pass(&mut self, over: usize, end: usize)
        ensures { self.new ≡ record self.old { place = min (self.old.place + over) end } }
    {
        self.place = beyond(self.place, over, end);
    }
}

// The place so many instructions before.
fn back_from(place: usize, back: usize) -> usize
    ensures { result ≡ place - back }
{
    if back < place { place - back } else { 0 }
}

// The place behind so many instructions, or the end.
fn beyond(place: usize, over: usize, end: usize) -> usize
    ensures { result ≡ min (place + over) end }
{
    if place < end && over < end - place {
        place + over
    } else {
        end
    }
}

// The place behind this instruction and so many more, or the end.
fn behind(place: usize, over: usize, end: usize) -> usize
    requires { place < end }
    ensures { result ≡ min (place + 1 + over) end }
{
    beyond(place + 1, over, end)
}
