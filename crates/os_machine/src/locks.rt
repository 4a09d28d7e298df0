ghost use Rattle.std.specs.Prelude.{◌≡◌, IfOk, Some};
ghost use Rattle.os_code.specs.declared.instruction.Instruction.TheVariants as i;
ghost use Rattle.os_machine.specs.Moves.{above, lock_times, moves, times_of};
ghost use Rattle.os_machine.specs.Stacks.{top_of};

use crate::stepped::{Awaits, Stepped, Wanted};
use crate::store::asks;
use crate::values::{Checked, number_of, tries_of};
use crate::work::Work;
use obj_kinds::{Mode, NoMemory, Op, Owner, Text};
use os_kinds::{Call, Val};
use std::alloc::Global;

/// How often a lock is tried, by its timeout.
fn times_of(alloc: Global, timeout: &Val) -> Result<Checked<Option<u64>>, NoMemory>
    ensures { IfOk result (λ r. Some r ≡ times_of (Some timeout.now)) }
{
    match number_of(alloc, timeout)? {
        Ok(seconds) => Ok(Ok(Some(tries_of(seconds)))),
        Err(name) => Ok(Err(name)),
    }
}

/// How many values a timeout is.
fn above(timed: bool) -> usize
    ensures { result ≡ above timed }
{
    if timed { 1 } else { 0 }
}

impl Work {
    /// How often a lock is tried, by the timeout on top where it has one.
    fn lock_times(
        &self,
        alloc: Global,
        timed: bool,
    ) -> Result<Option<Checked<Option<u64>>>, NoMemory>
        ensures { IfOk result (λ r. r ≡ lock_times timed (top_of self.now.stack)) }
    {
        if !timed {
            return Ok(Some(Ok(None)));
        }
        match self.stack.top() {
            None => Ok(None),
            Some(timeout) => Ok(Some(times_of(alloc, timeout)?)),
        }
    }

    pub(crate) fn test_lock(
        &self,
        alloc: Global,
        global: &Text,
        count: usize,
        timed: bool,
        line: u32,
    ) -> Result<Stepped, NoMemory>
        ensures { IfOk result (λ s. (s, self.now) ≡ moves (i.TestLock global.now count timed line) self.now) }
    {
        match self.lock_times(alloc, timed)? {
            None => Ok(Stepped::Halts),
            Some(Err(name)) => Ok(Stepped::Fails(name, line)),
            Some(Ok(_)) => match self.node(alloc, global, above(timed), count)? {
                Ok(_) => Ok(Stepped::Goes(0)),
                Err(name) => Ok(Stepped::Fails(name, line)),
            },
        }
    }

    pub(crate) fn try_lock(
        &self,
        alloc: Global,
        global: &Text,
        count: usize,
        mode: Mode,
        timed: bool,
        line: u32,
    ) -> Result<Stepped, NoMemory>
        ensures { IfOk result (λ s. (s, self.now) ≡ moves (i.TryLock global.now count mode timed line) self.now) }
    {
        match self.lock_times(alloc, timed)? {
            None => Ok(Stepped::Halts),
            Some(Err(name)) => Ok(Stepped::Fails(name, line)),
            Some(Ok(tries)) => match self.node(alloc, global, above(timed), count)? {
                Ok(node) => Ok(Stepped::Asks(Call::TryLock { node, mode, tries }, Awaits::Tried)),
                Err(name) => Ok(Stepped::Fails(name, line)),
            },
        }
    }

    pub(crate) fn unlock(
        &self,
        alloc: Global,
        global: &Text,
        count: usize,
        mode: Mode,
        timed: bool,
        line: u32,
    ) -> Result<Stepped, NoMemory>
        ensures { IfOk result (λ s. (s, self.now) ≡ moves (i.Unlock global.now count mode timed line) self.now) }
    {
        match self.lock_times(alloc, timed)? {
            None => Ok(Stepped::Halts),
            Some(Err(name)) => Ok(Stepped::Fails(name, line)),
            Some(Ok(_)) => match self.node(alloc, global, above(timed), count)? {
                Ok(node) => Ok(asks(Op::Unlock(node, mode, Owner::Script), Wanted::GivenBack)),
                Err(name) => Ok(Stepped::Fails(name, line)),
            },
        }
    }
}
