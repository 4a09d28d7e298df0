ghost use Rattle.std.specs.Prelude.{◌≡◌, ◌≤◌, true, false, IfOk, OnOk, OnErr};
ghost use Rattle.member_plan.specs.Nexts.{IsBegun, IsNext, IsTaken, StaysAt, is_asking, is_over, is_told};

use crate::asking::operation;
use crate::call::{MemberCall, MemberStep};
use crate::phase::MemberPhase;
use crate::taking::{first_phase, taken};
use obj_kinds::{NoMemory, Reply};
use schema_kinds::Schema;
use std::alloc::Global;
use std::mem;

/// The look for a member on its way.
#[derive(Drop)]
pub struct MemberPlan<'s> {
    alloc: Global,
    /// The schema of the classes.
    pub schema: &'s Schema,
    /// Which member is looked for.
    pub call: MemberCall,
    /// How far it is.
    pub phase: MemberPhase,
}

impl<'s> MemberPlan<'s> {
    /// The plan of a look, at its begin.
    pub fn new(alloc: Global, schema: &'s Schema, call: MemberCall) -> MemberPlan<'s>
        requires { 1 ≤ call.tries }
        ensures schema { result.schema.now ≡ schema.now }
        ensures call { result.call ≡ call }
        ensures begun { IsBegun schema.now call result.phase }
        ensures told { is_told result.phase ≡ false }
    {
        let phase = first_phase(call.level, call.tries);
        MemberPlan {
            alloc,
            schema,
            call,
            phase,
        }
    }

    /// What comes next: it asks an operation of the store, or tells which member there is. It may be asked again until
    /// it was told. It fails only for want of memory, and then nothing has changed.
    pub fn next(&mut self) -> Result<MemberStep, NoMemory>
        requires { is_told self.old.phase ≡ false }
        ensures says { IfOk result (λ step. IsNext self.old.schema.now self.old.call step self.old.phase) }
        ensures stays { IfOk result (λ step. StaysAt step self.old.phase self.new.phase) }
        ensures schema { self.new.schema.now ≡ self.old.schema.now }
        ensures call { self.new.call ≡ self.old.call }
        ensures err { OnErr result (self.new ≡ self.old) }
    {
        match operation(self.alloc, self.schema, &self.call, &self.phase)? {
            Some(op) => Ok(MemberStep::Ask(op)),
            None => Ok(self.hand_out()),
        }
    }

    /// Takes the reply to what it asked, which is one within the limits of replies. It fails only for want of memory, and
    /// then nothing has changed.
    pub fn take(&mut self, reply: Reply) -> Result<(), NoMemory>
        requires { is_asking self.old.phase ≡ true }
        ensures ok { OnOk result (IsTaken self.old.schema.now self.old.call reply self.old.phase self.new.phase) }
        ensures told { is_told self.new.phase ≡ false }
        ensures schema { self.new.schema.now ≡ self.old.schema.now }
        ensures call { self.new.call ≡ self.old.call }
        ensures err { OnErr result (self.new ≡ self.old) }
    {
        taken(self.alloc, self.schema, &self.call, &mut self.phase, reply)
    }

    // The answer, where it is there.
    #[tactic(auto, unfolding(crate::specs::Nexts::to_come_now))]
    fn hand_out(&mut self) -> MemberStep
        requires { is_over self.old.phase ≡ true }
        ensures says { IsNext self.old.schema.now self.old.call result self.old.phase }
        ensures stays { StaysAt result self.old.phase self.new.phase }
        ensures schema { self.new.schema.now ≡ self.old.schema.now }
        ensures call { self.new.call ≡ self.old.call }
    {
        match mem::replace(&mut self.phase, MemberPhase::Told) {
            MemberPhase::Over(answer) => MemberStep::Member(answer),
            _ => unreachable!(),
        }
    }
}
