ghost use Rattle.std.specs.Prelude.{◌≡◌, ◌≤◌, true, false, IfOk, OnOk, OnErr};
ghost use Rattle.load_plan.specs.Loads.{load_of, to_come, is_asking, is_told, IsBegun, IsNext, IsTaken, GoesOn, Stays, GoesToRead, is_reading, is_over};

use crate::asking::{lock, unlock};
use crate::call::{LoadCall, LoadStep};
use crate::phase::Phase;
use crate::taking::{first_phase, read_ends, read_step, taken};
use obj_kinds::{NoMemory, Op, Reply};
use read_plan::ReadStep;
use schema_kinds::Schema;
use std::alloc::Global;
use std::mem;

/// A load on its way.
#[derive(Drop)]
pub struct LoadPlan<'s> {
    alloc: Global,
    /// The schema of the classes.
    pub schema: &'s Schema,
    /// What is opened.
    pub call: LoadCall,
    /// How far it is.
    pub phase: Phase<'s>,
}

impl<'s> LoadPlan<'s> {
    /// The plan of a load, at its begin. It fails only for want of memory.
    pub fn new(alloc: Global, schema: &'s Schema, call: LoadCall) -> Result<LoadPlan<'s>, NoMemory>
        requires { 1 ≤ call.tries }
        ensures schema { IfOk result (λ plan. plan.schema.now ≡ schema.now) }
        ensures call { IfOk result (λ plan. plan.call ≡ call) }
        ensures asks { IfOk result (λ plan. is_asking plan.phase ≡ true) }
        ensures told { IfOk result (λ plan. is_told plan.phase ≡ false) }
        ensures begun { IfOk result (λ plan. IsBegun schema.now (load_of call) call.tries plan.phase) }
    {
        let phase = first_phase(alloc, schema, &call)?;
        Ok(LoadPlan {
            alloc,
            schema,
            call,
            phase,
        })
    }

    /// What comes next: it asks an operation of the store, or tells what was loaded. It may be asked again until it
    /// was told. It fails only for want of memory, and then has the same to do.
    pub fn next(&mut self) -> Result<LoadStep, NoMemory>
        requires { is_told self.old.phase ≡ false }
        ensures says { IfOk result (λ step. IsNext self.old.schema.now (load_of self.old.call) step self.old.phase) }
        ensures goes { IfOk result (λ step. GoesOn self.old.schema.now (load_of self.old.call) step self.old.phase self.new.phase) }
        ensures err { OnErr result (Stays self.old.schema.now (load_of self.old.call) self.old.phase self.new.phase) }
        ensures schema { self.new.schema.now ≡ self.old.schema.now }
        ensures call { self.new.call ≡ self.old.call }
    {
        match self.read_on()? {
            Some(op) => Ok(LoadStep::Ask(op)),
            None => self.ask_or_tell(),
        }
    }

    /// Takes the reply to what it asked. It fails only for want of memory, and then nothing has changed.
    pub fn take(&mut self, reply: Reply) -> Result<(), NoMemory>
        requires { is_asking self.old.phase ≡ true }
        ensures ok { OnOk result (IsTaken self.old.schema.now (load_of self.old.call) reply self.old.phase self.new.phase) }
        ensures told { is_told self.new.phase ≡ false }
        ensures err { OnErr result (self.new.phase ≡ self.old.phase) }
        ensures schema { self.new.schema.now ≡ self.old.schema.now }
        ensures call { self.new.call ≡ self.old.call }
    {
        taken(self.alloc, self.schema, &self.call, &mut self.phase, reply)
    }

    // What the read asks; nothing where the load isn't at its read, or no longer.
    fn read_on(&mut self) -> Result<Option<Op>, NoMemory>
        requires { is_told self.old.phase ≡ false }
        ensures on { IfOk result (λ op. GoesToRead self.old.schema.now (load_of self.old.call) op self.old.phase self.new.phase) }
        ensures err { OnErr result (self.new.phase ≡ self.old.phase) }
        ensures schema { self.new.schema.now ≡ self.old.schema.now }
        ensures call { self.new.call ≡ self.old.call }
    {
        let Phase::Reading(reading) = &mut self.phase else {
            return Ok(None);
        };
        match read_step(self.schema, &self.call, reading)? {
            ReadStep::Ask(op) => Ok(Some(op)),
            ReadStep::Read(outcome) => {
                self.phase = read_ends(&self.call, reading.lock, outcome);
                Ok(None)
            }
        }
    }

    #[tactic(auto, unfolding(crate::specs::Loads::to_come_within))]
    fn ask_or_tell(&mut self) -> Result<LoadStep, NoMemory>
        requires reading { is_reading self.old.phase ≡ false }
        requires told { is_told self.old.phase ≡ false }
        ensures says { IfOk result (λ step. IsNext self.old.schema.now (load_of self.old.call) step self.old.phase) }
        ensures goes { IfOk result (λ step. GoesOn self.old.schema.now (load_of self.old.call) step self.old.phase self.new.phase) }
        ensures err { OnErr result (self.new.phase ≡ self.old.phase) }
        ensures schema { self.new.schema.now ≡ self.old.schema.now }
        ensures call { self.new.call ≡ self.old.call }
    {
        match &self.phase {
            Phase::Locking(mode, _) => {
                let op = lock(self.alloc, &self.call.key, *mode)?;
                Ok(LoadStep::Ask(op))
            }
            Phase::Unlocking(mode, _) => {
                let op = unlock(self.alloc, &self.call.key, *mode)?;
                Ok(LoadStep::Ask(op))
            }
            _ => Ok(self.hand_out()),
        }
    }

    // The answer, where it is there.
    #[tactic(auto, unfolding(crate::specs::Loads::to_come_within))]
    fn hand_out(&mut self) -> LoadStep
        requires { is_over self.old.phase ≡ true }
        ensures says { IsNext self.old.schema.now (load_of self.old.call) result self.old.phase }
        ensures goes { GoesOn self.old.schema.now (load_of self.old.call) result self.old.phase self.new.phase }
        ensures schema { self.new.schema.now ≡ self.old.schema.now }
        ensures call { self.new.call ≡ self.old.call }
    {
        match mem::replace(&mut self.phase, Phase::Told) {
            Phase::Over(answer) => LoadStep::Load(answer),
            _ => unreachable!(),
        }
    }
}
