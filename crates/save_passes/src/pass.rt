ghost use Rattle.std.specs.Prelude.{◌≡◌, ◌≤◌, ◌<◌, ◌+◌, true, length, List, IfOk, OnOk, OnErr};
ghost use Rattle.obj_kinds.specs.Limits.{is_legal_reply};
ghost use Rattle.schema_kinds.specs.declared.class.Class.{Class};
ghost use Rattle.object_calls.specs.Asking.{done};
ghost use Rattle.asking_plan.specs.Asked.{to_come as list_to_come};
ghost use Rattle.save_passes.specs.Passes.{Asked, asked_of, asks_all, is_asking, to_come, IsTaken, Says};

use crate::asking::{Stage, askings_for};
use crate::works::{Works, old_at};
use asking_plan::AskingPlan;
use obj_kinds::{Cause, NoMemory, Op, Reply};
use sqlite_items::Items;
use std::alloc::Global;

/// A pass over the objects of a save, on its way. Each of its calls is given the objects, the same each time.
#[derive(Drop)]
pub struct Pass {
    alloc: Global,
    /// What is asked for each object.
    pub stage: Stage,
    /// How many objects are behind it, or are being asked for.
    pub at: usize,
    /// What is asked for the last of these.
    pub asking: AskingPlan,
}

impl Pass {
    /// A pass at its begin. It takes no memory.
    #[tactic(auto, unfolding(crate::specs::Passes::to_come))]
    pub fn new(alloc: Global, stage: Stage, tries: u32) -> Pass
        requires { 1 ≤ tries }
        ensures { (a : Asked) → to_come a result ≡ asks_all a stage }
    {
        let asking = AskingPlan::new(Items::new(alloc), tries);
        Pass {
            alloc,
            stage,
            at: 0,
            asking,
        }
    }

    /// What comes next: an operation of the store; nothing where all was asked. It may be asked again. It fails only for want of memory,
    /// and then has the same to do.
    #[tactic(auto, using(crate::proofs::PassLaws::said_some, crate::proofs::PassLaws::said_end, crate::proofs::PassLaws::works_over))]
    pub fn next(&mut self, of: &Works<'_, '_>) -> Result<Option<Op>, NoMemory>
        requires { 1 ≤ of.now.tries }
        ensures says { IfOk result (λ op. Says (asked_of of.now) op self.old self.new) }
        ensures err { OnErr result (to_come (asked_of of.now) self.new ≡ to_come (asked_of of.now) self.old) }
        ensures stage { self.new.stage ≡ self.old.stage }
    {
        while self.at < of.items.len() {
            match self.asking.next(self.alloc)? {
                Some(op) => return Ok(Some(op)),
                None => self.go_on(of)?,
            }
        }
        self.asking.next(self.alloc)
    }

    /// Takes the reply to what it asked: nothing, or why the save has failed. It fails itself only for want of memory, and then nothing
    /// has changed.
    #[tactic(auto, using(crate::proofs::PassLaws::taken_ok))]
    pub fn take(&mut self, reply: Reply) -> Result<Option<Cause>, NoMemory>
        requires asked { is_asking self.old }
        requires legal { is_legal_reply reply ≡ true }
        ensures taken { IfOk result (λ cause. (a : Asked) → IsTaken a reply self.old self.new cause) }
        ensures err { OnErr result (self.new ≡ self.old) }
        ensures stage { self.new.stage ≡ self.old.stage }
    {
        self.asking.take(self.alloc, reply)
    }

    // All was asked for the objects so far: what is asked for the next one stands ready. For want of memory nothing has changed.
    #[tactic(auto, using(crate::proofs::PassLaws::next_object))]
    fn go_on(&mut self, of: &Works<'_, '_>) -> Result<(), NoMemory>
        requires tries { 1 ≤ of.now.tries }
        requires there { self.old.at < length of.now.items.now }
        requires asked { (classes : List Class) → list_to_come classes self.old.asking ≡ done }
        ensures ok { OnOk result (to_come (asked_of of.now) self.new ≡ to_come (asked_of of.now) self.old) }
        ensures on { OnOk result (self.new.at ≡ self.old.at + 1) }
        ensures err { OnErr result (self.new ≡ self.old) }
        ensures stage { self.new.stage ≡ self.old.stage }
    {
        let item = &of.items[self.at];
        let old = old_at(of.olds, self.at);
        let askings = askings_for(self.alloc, self.stage, of.schema, of.put, item, old)?;
        self.asking = AskingPlan::new(askings, of.tries);
        self.at += 1;
        Ok(())
    }
}
