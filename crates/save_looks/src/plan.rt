ghost use Rattle.std.specs.Prelude.{◌≡◌, true, false, IfOk, OnOk, OnErr};
ghost use Rattle.save_looks.specs.Looks.{item_of, is_asking, is_told, is_reading, IsBegun, IsNext, IsTaken, GoesOn, GoesToRead, Stays};

use crate::call::{LookCall, LookStep};
use crate::phase::Phase;
use crate::taking::{hand_out, read_call, taken};
use obj_kinds::{NoMemory, Op, Reply};
use read_plan::{ReadPlan, ReadStep};
use std::alloc::Global;
use storage_map::data_node;

/// A look on its way. Each of its calls is given the object, the same each time.
#[derive(Drop)]
pub struct LookPlan<'s> {
    alloc: Global,
    /// How far it is.
    pub phase: Phase<'s>,
}

impl<'s> LookPlan<'s> {
    /// A look at its begin, for an object that is new or not. It takes no memory.
    #[tactic(auto, unfolding(crate::specs::Looks::to_come_within, object_calls::specs::Saves::look))]
    pub fn new(alloc: Global, is_new: bool) -> LookPlan<'s>
        ensures begun { IsBegun is_new result.phase }
        ensures asks { is_asking result.phase ≡ true }
        ensures told { is_told result.phase ≡ false }
    {
        if is_new {
            return LookPlan {
                alloc,
                phase: Phase::AtRow,
            };
        }
        let read = ReadPlan::new(alloc);
        LookPlan {
            alloc,
            phase: Phase::Reading(read),
        }
    }

    /// What comes next: it asks an operation of the store, or tells what stands under the key. It may be asked again until it was
    /// told. It fails only for want of memory, and then has the same to do.
    pub fn next(&mut self, call: LookCall<'s, '_>) -> Result<LookStep, NoMemory>
        requires { is_told self.old.phase ≡ false }
        ensures says { IfOk result (λ step. IsNext call.entry.schema.now (item_of call.entry.item.now) step self.old.phase) }
        ensures goes { IfOk result (λ step. GoesOn call.entry.schema.now (item_of call.entry.item.now) step self.old.phase self.new.phase) }
        ensures err { OnErr result (Stays call.entry.schema.now (item_of call.entry.item.now) self.old.phase self.new.phase) }
    {
        match self.read_on(call)? {
            Some(op) => Ok(LookStep::Ask(op)),
            None => self.ask_or_tell(call),
        }
    }

    /// Takes the reply to what it asked. It fails only for want of memory, and then nothing has changed.
    pub fn take(&mut self, call: LookCall<'s, '_>, reply: Reply) -> Result<(), NoMemory>
        requires { is_asking self.old.phase ≡ true }
        ensures ok { OnOk result (IsTaken call.entry.schema.now (item_of call.entry.item.now) reply self.old.phase self.new.phase) }
        ensures told { is_told self.new.phase ≡ false }
        ensures err { OnErr result (self.new.phase ≡ self.old.phase) }
    {
        taken(call, &mut self.phase, reply)
    }

    // What the read asks; nothing where the look isn't at its read, or no longer.
    fn read_on(&mut self, call: LookCall<'s, '_>) -> Result<Option<Op>, NoMemory>
        requires { is_told self.old.phase ≡ false }
        ensures on { IfOk result (λ op. GoesToRead call.entry.schema.now (item_of call.entry.item.now) op self.old.phase self.new.phase) }
        ensures err { OnErr result (self.new.phase ≡ self.old.phase) }
    {
        let Phase::Reading(read) = &mut self.phase else {
            return Ok(None);
        };
        match read.next(read_call(call))? {
            ReadStep::Ask(op) => Ok(Some(op)),
            ReadStep::Read(outcome) => {
                self.phase = Phase::Read(outcome);
                Ok(None)
            }
        }
    }

    #[tactic(auto, unfolding(crate::specs::Looks::to_come_within))]
    fn ask_or_tell(&mut self, call: LookCall<'s, '_>) -> Result<LookStep, NoMemory>
        requires reading { is_reading self.old.phase ≡ false }
        requires told { is_told self.old.phase ≡ false }
        ensures says { IfOk result (λ step. IsNext call.entry.schema.now (item_of call.entry.item.now) step self.old.phase) }
        ensures goes { IfOk result (λ step. GoesOn call.entry.schema.now (item_of call.entry.item.now) step self.old.phase self.new.phase) }
        ensures err { OnErr result (self.new.phase ≡ self.old.phase) }
    {
        match &self.phase {
            Phase::AtRow => {
                let row = data_node(self.alloc, &call.item.key)?;
                Ok(LookStep::Ask(Op::Get(row)))
            }
            _ => {
                let looked = hand_out(self.alloc, call, &mut self.phase)?;
                Ok(LookStep::Look(looked))
            }
        }
    }
}
