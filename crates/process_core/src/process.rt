//! A process of one script without classes.

ghost use Rattle.std.specs.Prelude.{◌≡◌, OnOk, OnErr, ℕ, true, false, []};
ghost use Rattle.os_meaning.specs.Syntax.{Block};
ghost use Rattle.os_code.specs.Coding.{script_code};
ghost use Rattle.host_meaning.specs.Process.{process};
ghost use Rattle.host_meaning.specs.Samples.{no_objects};
ghost use Rattle.frame_stack.specs.Stacks.{IsReady, IsAsked};
ghost use Rattle.process_core.specs.declared.process.Phase.TheVariants.{Runs as IsRunning};
ghost use Rattle.process_core.specs.Left.{alone, behind_try, claims, next_try, left_of, replied, is_asking, is_ask, Stands, IsOfScript, Shows, Steps, Settles, Takes, needed, asked, answered, closed};
ghost use Rattle.process_core.specs.Ends.{ending_by, end_refused};
ghost use Rattle.host_meaning.specs.declared.ending.Ending.TheVariants.{DeviceFault as IsDeviceFault};
ghost use Rattle.os_kinds.specs.declared.call.Answer.TheVariants.{Error as AnError};
ghost use Rattle.os_kinds.specs.declared.call.Call.TheVariants.{Special as IsSpecial};
ghost use Rattle.store_calls.specs.Calls.{Give};

use crate::end::{End, end_by, end_refused, ending_by};
use crate::kept::{Kept, LevelMove, level_move, put_level, special_value, test_granted};
use crate::turn::Turn;
use frame_stack::{RunningFrame, Stack};
use host_meaning::Limits;
use obj_kinds::{ErrorName, Keep, Mode, NoMemory, Node, Op, Owner, Reply};
use os_code::Instruction;
use os_kinds::{Answer, Call, Event, Special};
use os_machine::{Machine, Variables};
use std::alloc::Global;
use std::mem;
use store_core::ApplyError;

/// A lock of a script: how often it is still tried, where it has a timeout.
#[derive(Drop)]
pub(crate) struct Claim {
    pub(crate) node: Node,
    pub(crate) mode: Mode,
    pub(crate) times: Option<u64>,
}

/// What a process does next.
#[derive(Drop)]
pub(crate) enum Phase {
    /// Its frame runs.
    Runs,
    /// It has asked an operation for its script.
    Stores(LevelMove),
    /// It is to ask for a lock.
    Tries(Claim),
    /// It has asked for the lock, and may do so again.
    Locks(Claim),
    Ended(End),
}

/// A process of one script: it goes on by [`Proc::next`], and after it has asked, by [`Proc::take`].
#[derive(Drop)]
pub struct Proc<'a> {
    stack: Stack<'a>,
    kept: Kept,
    units: u32,
    fuel: u32,
    phase: Phase,
    alloc: Global,
}

/// The most steps of a process that show nothing before it asks, prints or ends.
const MOST_STEPS: u64 = u64::MAX;

impl<'a> Proc<'a> {
    /// A process of this code at its beginning. It takes no memory yet.
    pub fn new(alloc: Global, code: &'a [Instruction], limits: &Limits) -> Proc<'a>
        ensures stands { (script : Block) → code.now ≡ script_code script → Stands result }
        ensures means { (script : Block) → code.now ≡ script_code script → left_of result ≡ process no_objects alone limits.now.fuel script }
        ensures asks { is_asking result ≡ false }
    {
        Proc {
            stack: Stack::new(
                alloc,
                RunningFrame {
                    machine: Machine::new(alloc, code, None, Variables::new(alloc)),
                    declarer: None,
                    called_on: None,
                },
            ),
            kept: Kept {
                test: false,
                level: 0,
            },
            units: limits.fuel,
            fuel: limits.fuel,
            phase: Phase::Runs,
            alloc,
        }
    }

    /// Goes on until it asks, prints or ends. After its end it answers the same end.
    pub fn next(&mut self) -> Turn
        requires stands { Stands self.old }
        requires taken { is_asking self.old ≡ false }
        ensures stands { Stands self.new }
        ensures shows { Shows result (left_of self.old) self.new }
        ensures asks { is_asking self.new ≡ is_ask result }
    {
        for _step in 0..MOST_STEPS {
            if let Some(turn) = self.step() {
                return turn;
            }
        }
        self.close(End::NoMemory)
    }

    /// Takes the reply to what it asked, or that its operation was refused.
    pub fn take(&mut self, reply: Result<Reply, ApplyError>)
        requires stands { Stands self.old }
        requires asked { is_asking self.old ≡ true }
        ensures stands { Stands self.new }
        ensures takes { Takes reply self.old self.new }
        ensures asks { is_asking self.new ≡ false }
    {
        match reply {
            Ok(reply) => self.take_reply(reply),
            Err(error) => self.refuse(error),
        }
    }

    fn refuse(&mut self, error: ApplyError)
        requires stands { Stands self.old }
        ensures stands { Stands self.new }
        ensures ends { left_of self.new ≡ Give (ending_by (end_refused error)) }
        ensures asks { is_asking self.new ≡ false }
    {
        self.close(end_refused(error));
    }

    /// A put of what it printed failed. It takes no memory.
    pub fn fault(&mut self)
        requires stands { Stands self.old }
        ensures stands { Stands self.new }
        ensures ends { left_of self.new ≡ Give IsDeviceFault }
        ensures asks { is_asking self.new ≡ false }
    {
        self.close(End::DeviceFault);
    }

    fn close(&mut self, end: End) -> Turn
        ensures { (result, self.new) ≡ closed end self.old }
    {
        self.phase = Phase::Ended(end);
        Turn::Ended(ending_by(end))
    }

    fn step(&mut self) -> Option<Turn>
        requires stands { Stands self.old }
        requires taken { is_asking self.old ≡ false }
        ensures stands { Stands self.new }
        ensures steps { Steps result (left_of self.old) self.new }
    {
        match mem::replace(&mut self.phase, Phase::Runs) {
            Phase::Runs => self.run(),
            Phase::Tries(claim) => self.try_lock(claim),
            Phase::Ended(end) => Some(self.close(end)),
            Phase::Stores(_) => None,
            Phase::Locks(_) => None,
        }
    }

    fn run(&mut self) -> Option<Turn>
        requires runs { self.old.phase ≡ IsRunning }
        requires ready { IsReady self.old.stack }
        requires script { IsOfScript self.old.stack }
        ensures stands { Stands self.new }
        ensures steps { Steps result (left_of self.old) self.new }
    {
        match self.stack.go(&mut self.units) {
            Ok(Event::Need(call)) => self.need(call),
            Ok(Event::Print(text)) => Some(Turn::Print(text)),
            Ok(Event::More(_)) => None,
            Ok(Event::Less(_)) => None,
            Ok(Event::Point) => None,
            Ok(Event::Finished(end)) => Some(self.close(end_by(end))),
            Err(NoMemory) => Some(self.close(End::NoMemory)),
        }
    }

    /// Gives the frame its answer. For want of memory nothing is changed.
    fn give(&mut self, answer: Answer) -> Result<(), NoMemory>
        requires runs { self.old.phase ≡ IsRunning }
        requires asked { IsAsked self.old.stack }
        requires script { IsOfScript self.old.stack }
        ensures goes_on { OnOk result (left_of self.new ≡ answered answer self.old) }
        ensures stands { OnOk result (Stands self.new) }
        ensures runs { self.new.phase ≡ IsRunning }
        ensures err { OnErr result (self.new ≡ self.old) }
    {
        self.stack.give(answer)
    }

    fn answer(&mut self, answer: Answer) -> Option<Turn>
        requires runs { self.old.phase ≡ IsRunning }
        requires asked { IsAsked self.old.stack }
        requires script { IsOfScript self.old.stack }
        ensures stands { Stands self.new }
        ensures steps { Steps result (answered answer self.old) self.new }
    {
        match self.give(answer) {
            Ok(()) => None,
            Err(NoMemory) => Some(self.close(End::NoMemory)),
        }
    }

    /// The same where the answer comes of a reply.
    fn settle(&mut self, answer: Answer)
        requires runs { self.old.phase ≡ IsRunning }
        requires asked { IsAsked self.old.stack }
        requires script { IsOfScript self.old.stack }
        ensures stands { Stands self.new }
        ensures takes { Settles (answered answer self.old) self.new }
        ensures asks { is_asking self.new ≡ false }
    {
        match self.give(answer) {
            Ok(()) => {}
            Err(NoMemory) => {
                self.close(End::NoMemory);
            }
        }
    }

    fn fail(&mut self, name: ErrorName) -> Option<Turn>
        requires runs { self.old.phase ≡ IsRunning }
        requires asked { IsAsked self.old.stack }
        requires script { IsOfScript self.old.stack }
        ensures stands { Stands self.new }
        ensures steps { Steps result (answered (AnError name) self.old) self.new }
    {
        self.answer(Answer::Error(name))
    }

    fn ask_store(&mut self, op: Op) -> Option<Turn>
        requires runs { self.old.phase ≡ IsRunning }
        requires asked { IsAsked self.old.stack }
        requires script { IsOfScript self.old.stack }
        ensures stands { Stands self.new }
        ensures steps { Steps result (asked op self.old) self.new }
    {
        if self.units == 0 {
            return Some(self.close(End::Fuel));
        }
        self.units -= 1;
        self.phase = Phase::Stores(level_move(&op));
        Some(Turn::Ask(op))
    }

    fn tell_special(&mut self, special: Special) -> Option<Turn>
        requires runs { self.old.phase ≡ IsRunning }
        requires asked { IsAsked self.old.stack }
        requires script { IsOfScript self.old.stack }
        ensures stands { Stands self.new }
        ensures steps { Steps result (needed (IsSpecial special) self.old) self.new }
    {
        match special_value(self.alloc, &self.kept, special) {
            Ok(value) => self.answer(Answer::Got(value)),
            Err(NoMemory) => Some(self.close(End::NoMemory)),
        }
    }

    fn need(&mut self, call: Call) -> Option<Turn>
        requires runs { self.old.phase ≡ IsRunning }
        requires asked { IsAsked self.old.stack }
        requires script { IsOfScript self.old.stack }
        ensures stands { Stands self.new }
        ensures steps { Steps result (needed call self.old) self.new }
    {
        match call {
            Call::Store(op) => self.ask_store(op),
            Call::TryLock { node, mode, tries } => {
                self.phase = Phase::Tries(Claim {
                    node,
                    mode,
                    times: tries,
                });
                None
            }
            Call::Special(special) => self.tell_special(special),
            Call::OnClass { .. } => self.fail(ErrorName::ClassDoesNotExist),
            Call::OnOwn { .. } => self.fail(ErrorName::InvalidOref),
            Call::OnObject { .. } => self.fail(ErrorName::InvalidOref),
            Call::Read { .. } => self.fail(ErrorName::InvalidOref),
            Call::Write { .. } => self.fail(ErrorName::InvalidOref),
            Call::OnItems { .. } => self.fail(ErrorName::InvalidOref),
        }
    }

    /// Asks for a lock: again and again without a timeout; else so often, and then `$TEST` is 0.
    fn try_lock(&mut self, claim: Claim) -> Option<Turn>
        requires runs { self.old.phase ≡ IsRunning }
        requires asked { IsAsked self.old.stack }
        requires script { IsOfScript self.old.stack }
        ensures stands { Stands self.new }
        ensures steps { Steps result (claims self.old.fuel claim self.old.stack self.old.units self.old.kept) self.new }
    {
        match claim.times {
            Some(0) => {
                self.kept.test = false;
                self.answer(Answer::Done)
            }
            Some(times) => self.ask_lock(claim.node, claim.mode, Some(times - 1)),
            None => self.ask_lock(claim.node, claim.mode, None),
        }
    }

    fn ask_lock(&mut self, node: Node, mode: Mode, times: Option<u64>) -> Option<Turn>
        requires runs { self.old.phase ≡ IsRunning }
        requires asked { IsAsked self.old.stack }
        requires script { IsOfScript self.old.stack }
        ensures stands { Stands self.new }
        ensures steps { Steps result (next_try self.old.fuel node mode times self.old.stack self.old.units self.old.kept) self.new }
    {
        if self.units == 0 {
            return Some(self.close(End::Fuel));
        }
        match node.copy(self.alloc) {
            Ok(copy) => {
                self.units -= 1;
                self.phase = Phase::Locks(Claim {
                    node: copy,
                    mode,
                    times,
                });
                Some(Turn::Ask(Op::Lock(node, mode, Owner::Script, Keep::Counted)))
            }
            Err(NoMemory) => Some(self.close(End::NoMemory)),
        }
    }

    fn take_reply(&mut self, reply: Reply)
        requires stands { Stands self.old }
        requires asked { is_asking self.old ≡ true }
        ensures stands { Stands self.new }
        ensures takes { Settles (replied self.old reply) self.new }
        ensures asks { is_asking self.new ≡ false }
    {
        match mem::replace(&mut self.phase, Phase::Runs) {
            Phase::Stores(moved) => {
                put_level(&mut self.kept, moved, &reply);
                self.settle(Answer::Reply(reply));
            }
            Phase::Locks(claim) => self.take_lock(claim, reply),
            _ => {}
        }
    }

    fn take_lock(&mut self, claim: Claim, reply: Reply)
        requires runs { self.old.phase ≡ IsRunning }
        requires asked { IsAsked self.old.stack }
        requires script { IsOfScript self.old.stack }
        ensures stands { Stands self.new }
        ensures takes { Settles (behind_try self.old.fuel claim self.old.stack self.old.units self.old.kept reply) self.new }
        ensures asks { is_asking self.new ≡ false }
    {
        match reply {
            Reply::Granted => {
                self.kept.test = test_granted(claim.times, self.kept.test);
                self.settle(Answer::Done);
            }
            _ => self.phase = Phase::Tries(claim),
        }
    }
}
