ghost use Rattle.std.specs.Prelude.{◌≡◌, true, false, IfOk, OnOk, OnErr};
ghost use Rattle.read_plan.specs.Reads.{IsBegun, IsNext, IsOwnStep, StaysAt, IsTaken, is_asking, is_told};

use crate::asking::operation;
use crate::call::{ReadCall, ReadStep};
use crate::gathering::gathered;
use crate::phase::Phase;
use crate::taking::taken;
use obj_kinds::{NoMemory, Reply};
use std::alloc::Global;
use std::mem;

/// A read on its way. Each of its calls is given what is read, the same each time.
#[derive(Drop)]
pub struct ReadPlan<'s> {
    alloc: Global,
    /// How far it is.
    pub phase: Phase<'s>,
}

impl<'s> ReadPlan<'s> {
    /// A read at its begin.
    #[tactic(auto, unfolding(crate::specs::Reads::to_come_within))]
    pub fn new(alloc: Global) -> ReadPlan<'s>
        ensures asks { is_asking result.phase ≡ true }
        ensures left { IsBegun result.phase }
    {
        ReadPlan {
            alloc,
            phase: Phase::AtRow,
        }
    }

    /// What comes next: it asks an operation of the store, or tells what was read. It may be asked again until it
    /// was told. Only the row of the key and nodes below it are read. It fails only for want of memory, and then
    /// nothing has changed.
    pub fn next(&mut self, call: ReadCall<'s, '_>) -> Result<ReadStep, NoMemory>
        requires { is_told self.old.phase ≡ false }
        ensures says { IfOk result (λ step. IsNext call.entry step self.old.phase) }
        ensures own { IfOk result (IsOwnStep call.entry.key.now) }
        ensures stays { IfOk result (λ step. StaysAt step self.old.phase self.new.phase) }
        ensures err { OnErr result (self.new ≡ self.old) }
    {
        match operation(self.alloc, call.key, &self.phase)? {
            Some(op) => Ok(ReadStep::Ask(op)),
            None => self.tell(call),
        }
    }

    /// Takes the reply to what it asked. It fails only for want of memory, and then nothing has changed.
    pub fn take(&mut self, call: ReadCall<'s, '_>, reply: Reply) -> Result<(), NoMemory>
        requires { is_asking self.old.phase ≡ true }
        ensures ok { OnOk result (IsTaken call.entry reply self.old.phase self.new.phase) }
        ensures told { is_told self.new.phase ≡ false }
        ensures err { OnErr result (self.new ≡ self.old) }
    {
        taken(self.alloc, call, &mut self.phase, reply)
    }

    // Tells what was read.
    #[tactic(auto, unfolding(crate::specs::Reads::to_come_within))]
    fn tell(&mut self, call: ReadCall<'s, '_>) -> Result<ReadStep, NoMemory>
        requires asked { is_asking self.old.phase ≡ false }
        requires told { is_told self.old.phase ≡ false }
        ensures says { IfOk result (λ step. IsNext call.entry step self.old.phase) }
        ensures own { IfOk result (IsOwnStep call.entry.key.now) }
        ensures stays { IfOk result (λ step. StaysAt step self.old.phase self.new.phase) }
        ensures err { OnErr result (self.new ≡ self.old) }
    {
        if let Phase::Full(begun, maps) = &self.phase {
            let outcome = gathered(self.alloc, call, begun, maps.as_slice())?;
            self.phase = Phase::Told;
            return Ok(ReadStep::Read(outcome));
        }
        match mem::replace(&mut self.phase, Phase::Told) {
            Phase::Over(outcome) => Ok(ReadStep::Read(outcome)),
            _ => unreachable!(),
        }
    }
}
