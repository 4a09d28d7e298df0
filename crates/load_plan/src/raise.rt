ghost use Rattle.std.specs.Prelude.{◌≡◌, ◌≤◌, true, false, IfOk, OnErr};
ghost use Rattle.record_layout.specs.Rows.{data_node};
ghost use Rattle.store_calls.specs.Calls.{Plain, Got, bind, try_from};
ghost use Rattle.object_calls.specs.Asking.{lock_counted};
ghost use Rattle.load_plan.specs.declared.raise.RaisePhase.TheVariants.{Locking};
ghost use Rattle.load_plan.specs.Raises.{locked as locked_in, to_come, IsBegun, IsTaken, IsNext, StaysAt, is_asking, is_over, is_told};

use crate::asking::{lock, unlock};
use obj_kinds::{Cause, Mode, NoMemory, Op, Reply};
use schema_kinds::Key;
use std::alloc::Global;
use std::mem;

/// Which live object is raised, and how far.
#[derive(Drop)]
pub struct RaiseCall {
    /// Its key.
    pub key: Key,
    /// The level of concurrency that it has, from 0 to 4.
    pub from: u8,
    /// The level that is wanted.
    pub to: u8,
    /// How often a lock is asked for at most, 1 or more.
    pub tries: u32,
}

/// What a raise answers: that the object may have the level, or `Busy` by the last try of the lock.
pub type Raised = Result<(), Cause>;

/// What a raise does next.
#[derive(Drop)]
pub enum RaiseStep {
    /// It asks this of the store, and waits for the reply.
    Ask(Op),
    /// It has ended.
    Raise(Raised),
}

/// What a raise waits for.
#[derive(Drop)]
pub enum RaisePhase {
    /// The lock of the row in this mode, which is asked for so many times more where it is refused.
    Locking(Mode, u32),
    /// That the shared lock of level 3 is given back.
    Unlocking,
    /// Nothing: it has ended, and this is the answer.
    Over(Raised),
    /// Nothing: the answer was handed out.
    Told,
}

/// A raise on its way.
#[derive(Drop)]
pub struct RaisePlan {
    alloc: Global,
    /// What is raised.
    pub call: RaiseCall,
    /// How far it is.
    pub phase: RaisePhase,
}

// The phase in which a raise begins.
#[tactic(auto, unfolding(crate::specs::Raises::to_come, object_calls::specs::Loads::raise))]
fn first_phase(call: &RaiseCall) -> RaisePhase
    requires { 1 ≤ call.now.tries }
    ensures begun { IsBegun call.now result }
    ensures told { is_told result ≡ false }
{
    if call.to <= call.from {
        return RaisePhase::Over(Ok(()));
    }
    match call.to {
        3 => RaisePhase::Locking(Mode::Shared, call.tries - 1),
        4 => RaisePhase::Locking(Mode::Exclusive, call.tries - 1),
        _ => RaisePhase::Over(Ok(())),
    }
}

// Behind the lock: where level 3 kept a shared one, it is given back.
#[tactic(auto, unfolding(crate::specs::Raises::to_come))]
fn locked(call: &RaiseCall) -> RaisePhase
    ensures left { to_come call.now result ≡ locked_in call.now (Got tt) }
    ensures told { is_told result ≡ false }
{
    if call.to == 4 && call.from == 3 {
        RaisePhase::Unlocking
    } else {
        RaisePhase::Over(Ok(()))
    }
}

// A try of the lock was refused, and so many are left.
#[tactic(auto, unfolding(crate::specs::Raises::to_come))]
fn refused(call: &RaiseCall, mode: Mode, left: u32, cause: Cause) -> RaisePhase
    ensures left { to_come call.now result ≡ bind (try_from cause Plain left (lock_counted mode (data_node call.now.key))) (locked_in call.now) }
    ensures told { is_told result ≡ false }
{
    if left == 0 {
        RaisePhase::Over(Err(cause))
    } else {
        RaisePhase::Locking(mode, left - 1)
    }
}

#[tactic(auto, unfolding(crate::specs::Raises::to_come))]
fn lock_taken(call: &RaiseCall, mode: Mode, left: u32, reply: Reply) -> RaisePhase
    ensures taken { IsTaken call.now reply (Locking mode left) result }
    ensures told { is_told result ≡ false }
{
    match reply {
        Reply::Granted => locked(call),
        Reply::Held { pid, node, .. } => refused(call, mode, left, Cause::Busy { pid, node }),
        _ => refused(call, mode, left, Cause::NotFound),
    }
}

impl RaisePlan {
    /// The plan of a raise, at its begin.
    pub fn new(alloc: Global, call: RaiseCall) -> RaisePlan
        requires { 1 ≤ call.tries }
        ensures call { result.call ≡ call }
        ensures begun { IsBegun call result.phase }
        ensures told { is_told result.phase ≡ false }
    {
        let phase = first_phase(&call);
        RaisePlan { alloc, call, phase }
    }

    /// What comes next: it asks an operation of the store, or tells that it has ended. It may be asked again until it
    /// was told. It fails only for want of memory, and then nothing has changed.
    #[tactic(auto, unfolding(crate::specs::Raises::to_come))]
    pub fn next(&mut self) -> Result<RaiseStep, NoMemory>
        requires { is_told self.old.phase ≡ false }
        ensures says { IfOk result (λ step. IsNext self.old.call step self.old.phase) }
        ensures stays { IfOk result (λ step. StaysAt step self.old.phase self.new.phase) }
        ensures call { self.new.call ≡ self.old.call }
        ensures err { OnErr result (self.new ≡ self.old) }
    {
        match &self.phase {
            RaisePhase::Locking(mode, _) => {
                let op = lock(self.alloc, &self.call.key, *mode)?;
                Ok(RaiseStep::Ask(op))
            }
            RaisePhase::Unlocking => {
                let op = unlock(self.alloc, &self.call.key, Mode::Shared)?;
                Ok(RaiseStep::Ask(op))
            }
            _ => Ok(self.hand_out()),
        }
    }

    /// Takes the reply to what it asked. It takes no memory.
    #[tactic(auto, unfolding(crate::specs::Raises::to_come))]
    pub fn take(&mut self, reply: Reply)
        requires { is_asking self.old.phase ≡ true }
        ensures taken { IsTaken self.old.call reply self.old.phase self.new.phase }
        ensures told { is_told self.new.phase ≡ false }
        ensures call { self.new.call ≡ self.old.call }
    {
        match &self.phase {
            RaisePhase::Locking(mode, left) => {
                self.phase = lock_taken(&self.call, *mode, *left, reply);
            }
            RaisePhase::Unlocking => self.phase = RaisePhase::Over(Ok(())),
            _ => unreachable!(),
        }
    }

    // The answer, where it is there.
    #[tactic(auto, unfolding(crate::specs::Raises::to_come))]
    fn hand_out(&mut self) -> RaiseStep
        requires { is_over self.old.phase ≡ true }
        ensures says { IsNext self.old.call result self.old.phase }
        ensures stays { StaysAt result self.old.phase self.new.phase }
        ensures call { self.new.call ≡ self.old.call }
    {
        match mem::replace(&mut self.phase, RaisePhase::Told) {
            RaisePhase::Over(answer) => RaiseStep::Raise(answer),
            _ => unreachable!(),
        }
    }
}
