ghost use Rattle.std.specs.Prelude.{◌≡◌, ◌≤◌, true, false, IfOk, OnOk, OnErr};
ghost use Rattle.std.specs.Option.{option_copied};
ghost use Rattle.oref_table.specs.Memory.{Memory};
ghost use Rattle.load_plan.specs.Loads.{load_of};
ghost use Rattle.open_plan.specs.Opens.{IsBegun, IsNext, IsTaken, GoesOn, Stays, KeepsPlace, HasPlace, is_asking, is_opened, is_settled, found_in};

use crate::ends::{hold, make};
use crate::phase::Phase;
use crate::start::first_phase;
use crate::step::OpenStep;
use crate::turns::{made, refusal, turn};
use load_plan::LoadCall;
use obj_kinds::{Lack, NoMemory, Reply};
use oref_table::Table;
use schema_kinds::{Record, Schema};
use std::alloc::Global;

/// The opening of a stored object on its way.
#[derive(Drop)]
pub struct OpenPlan<'s> {
    alloc: Global,
    /// How far it is.
    pub phase: Phase<'s>,
}

impl<'s> OpenPlan<'s> {
    /// The plan of an opening, at its begin: the live object of the key is raised where its level is lower, another is
    /// loaded. It fails only for want of memory.
    pub fn new(
        alloc: Global,
        schema: &'s Schema,
        table: &Table,
        call: LoadCall,
    ) -> Result<OpenPlan<'s>, NoMemory>
        requires { 1 ≤ call.tries }
        ensures begun { IfOk result (λ plan. IsBegun table.now schema.now (load_of call) call.tries plan.phase) }
        ensures place { IfOk result (λ plan. HasPlace table.now plan.phase) }
        ensures opened { IfOk result (λ plan. is_opened plan.phase ≡ false) }
    {
        let phase = first_phase(alloc, schema, table, call)?;
        Ok(OpenPlan { alloc, phase })
    }

    /// What comes next: it asks an operation of the store, or ends with the object, which the caller holds from then
    /// on, or with why there is none. It may be asked again until it has ended. At want of memory, or of a number of
    /// objects or of holds, the table is as before and there is the same to do.
    pub fn next(&mut self, table: &mut Table) -> Result<OpenStep, Lack>
        requires opened { is_opened self.old.phase ≡ false }
        requires place { HasPlace table.old self.old.phase }
        ensures says { IfOk result (λ step. IsNext table.old table.new step self.old.phase) }
        ensures goes { IfOk result (λ step. GoesOn table.old table.new step self.old.phase self.new.phase) }
        ensures err { OnErr result (Stays self.old.phase self.new.phase) }
        ensures table { OnErr result (table.new ≡ table.old) }
    {
        match turn(&mut self.phase)? {
            Some(op) => Ok(OpenStep::Ask(op)),
            None => self.end(table),
        }
    }

    /// Takes the reply to what it asked. It fails only for want of memory, and then there is the same to do.
    pub fn take(&mut self, reply: Reply) -> Result<(), NoMemory>
        requires { is_asking self.old.phase ≡ true }
        ensures ok { OnOk result ((m : Memory) → IsTaken m reply self.old.phase self.new.phase) }
        ensures place { KeepsPlace self.old.phase self.new.phase }
        ensures opened { is_opened self.new.phase ≡ false }
        ensures err { OnErr result (Stays self.old.phase self.new.phase) }
    {
        match &mut self.phase {
            Phase::Loading(plan) => plan.take(reply),
            Phase::Raising(raising) => {
                raising.plan.take(reply);
                Ok(())
            }
            _ => unreachable!(),
        }
    }

    /// The record of which it made an object; nothing where it hasn't ended, or ended without a new object.
    pub fn found(&self) -> Option<&Record>
        ensures { option_copied result ≡ found_in self.now.phase }
    {
        match &self.phase {
            Phase::Opened(record) => record.as_ref(),
            _ => None,
        }
    }

    // The answer, where the load or the raise is over.
    fn end(&mut self, table: &mut Table) -> Result<OpenStep, Lack>
        requires settled { is_settled self.old.phase ≡ true }
        requires place { HasPlace table.old self.old.phase }
        ensures says { IfOk result (λ step. IsNext table.old table.new step self.old.phase) }
        ensures goes { IfOk result (λ step. GoesOn table.old table.new step self.old.phase self.new.phase) }
        ensures err { OnErr result (self.new ≡ self.old) }
        ensures table { OnErr result (table.new ≡ table.old) }
    {
        match &self.phase {
            Phase::Found(found) => {
                let held = make(self.alloc, table, found)?;
                made(&mut self.phase);
                Ok(OpenStep::Open(Ok(held)))
            }
            Phase::Raised(raised) => {
                let held = hold(table, raised)?;
                self.phase = Phase::Opened(None);
                Ok(OpenStep::Open(Ok(held)))
            }
            _ => {
                let cause = refusal(&mut self.phase);
                Ok(OpenStep::Open(Err(cause)))
            }
        }
    }
}
