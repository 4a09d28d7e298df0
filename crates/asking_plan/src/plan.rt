ghost use Rattle.std.specs.Prelude.{◌≡◌, ◌≤◌, ◌-◌, true, IfOk, OnErr, List};
ghost use Rattle.obj_kinds.specs.Limits.{is_legal_reply};
ghost use Rattle.schema_kinds.specs.declared.class.Class.{Class};
ghost use Rattle.store_calls.specs.Calls.{all};
ghost use Rattle.asking_plan.specs.Asked.{asks, behind, is_asking, to_come, IsTaken, IsVerdict, Says};

use crate::asking::{Asking, operation};
use crate::verdict::{Verdict, verdict_on};
use obj_kinds::{Cause, NoMemory, Op, Reply};
use sqlite_items::{Items, at};
use std::alloc::Global;

/// What is asked one after the other, on its way.
#[derive(Drop)]
pub struct AskingPlan {
    /// What is asked, in order.
    pub askings: Items<Asking>,
    /// How many of them are done.
    pub at: usize,
    /// How often each lock is asked again at most, where it is refused.
    pub each: u32,
    /// How often the next one still is, if it is a lock.
    pub more: u32,
}

impl AskingPlan {
    /// A plan at its begin, of locks that are asked so many times at most.
    #[tactic(auto, using(crate::proofs::AskedLaws::all_left))]
    pub fn new(askings: Items<Asking>, tries: u32) -> AskingPlan
        requires { 1 ≤ tries }
        ensures { (classes : List Class) → to_come classes result ≡ all (asks classes (tries - 1)) askings }
    {
        AskingPlan {
            askings,
            at: 0,
            each: tries - 1,
            more: tries - 1,
        }
    }

    /// What is asked next; nothing where all was asked. It fails only for want of memory.
    pub fn next(&self, alloc: Global) -> Result<Option<Op>, NoMemory>
        ensures { IfOk result (Says self.now) }
    {
        match at(self.askings.as_slice(), self.at) {
            None => Ok(None),
            Some(asking) => Ok(Some(operation(alloc, asking)?)),
        }
    }

    /// Takes the reply to what it asked: nothing, or why it has failed. It fails itself only for want of memory, and then nothing
    /// has changed.
    pub fn take(&mut self, alloc: Global, reply: Reply) -> Result<Option<Cause>, NoMemory>
        requires asked { is_asking self.old }
        requires legal { is_legal_reply reply ≡ true }
        ensures taken { IfOk result (IsTaken reply self.old self.new) }
        ensures err { OnErr result (self.new ≡ self.old) }
    {
        match verdict_on(alloc, &self.askings.as_slice()[self.at], self.more, reply)? {
            Verdict::Done => {
                self.at += 1;
                self.more = self.each;
                Ok(None)
            }
            Verdict::Again => {
                self.more = self.more.saturating_sub(1);
                Ok(None)
            }
            Verdict::Refused(cause) => Ok(Some(cause)),
        }
    }
}
