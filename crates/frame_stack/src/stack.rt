//! Frames, one above the other: the one on top runs, and each other one waits for the answer of the one above it.

ghost use Rattle.std.specs.Prelude.{◌≡◌, ℕ, ◌+◌, ◌≤◌, ◌<◌, ◌↔◌, [], ◌∷◌, ◌++◌, true, false, IsTrue, length, IfOk, OnOk, OnErr, IfErr};
ghost use Rattle.std.specs.Option.{option_copied};
ghost use Rattle.os_meaning.specs.Accounts.{given};
ghost use Rattle.os_machine.specs.Runs.{running, awaited, is_waiting, is_need, Sees, CountsEvent, places};
ghost use Rattle.frame_stack.specs.Stacks.{with_machine, IsPushed, IsSame, IsReady, IsAsked, AreCallers, callers, StandsAfter, Popped, most_callers, declarer_of, called_on_of, all_places};
ghost use Rattle.frame_stack.specs.declared.stack.PushError.TheVariants.{Full as IsFull, NoMemory as LacksMemory};

use crate::frame::RunningFrame;
use obj_kinds::{ClassName, NoMemory};
use os_kinds::{Answer, Event};
use std::alloc::Global;
use std::mem;

/// The most frames that wait below another one: 64 in all.
const MOST_CALLERS: usize = 63;

/// Why a frame isn't put on top.
#[derive(Clone, Copy, Debug, PartialEq, Eq)]
pub enum PushError {
    /// There are 64 frames.
    Full,
    NoMemory,
}

/// The frames of a process. There is always one on top.
#[derive(Drop)]
pub struct Stack<'a> {
    top: RunningFrame<'a>,
    /// Those below it, the script's first.
    below: Vec<RunningFrame<'a>>,
}

impl<'a> Stack<'a> {
    /// One frame alone. It takes no memory yet.
    pub fn new(alloc: Global, frame: RunningFrame<'a>) -> Stack<'a>
        ensures top { result.top ≡ frame.entry }
        ensures alone { callers result ≡ [] }
    {
        Stack {
            top: frame,
            below: Vec::new(alloc),
        }
    }

    /// The class that declares the method of the frame on top.
    pub fn declarer(&self) -> Option<&'a ClassName>
        ensures { option_copied result ≡ declarer_of self.now.top }
    {
        self.top.declarer
    }

    /// The class on which the method of the frame on top was called.
    pub fn called_on(&self) -> Option<&'a ClassName>
        ensures { option_copied result ≡ called_on_of self.now.top }
    {
        self.top.called_on
    }

    /// Whether there are 64 frames.
    pub fn is_full(&self) -> bool
        ensures { IsTrue result ↔ (most_callers ≤ length (callers self.now)) }
    {
        self.below.len() >= MOST_CALLERS
    }

    /// The frame on top runs up to its next event, as `Machine::go` does. For want of memory all that was left is left.
    #[tactic(auto, using(crate::proofs::Standing::stands, crate::proofs::Standing::fewer, crate::proofs::Standing::still_ready, crate::proofs::Standing::counts))]
    pub fn go(&mut self, units: &mut u32) -> Result<Event, NoMemory>
        requires ready { IsReady self.old }
        ensures sees { IfOk result (λ e. Sees e units.old units.new (running self.old.top.machine) self.new.top.machine) }
        ensures stands { IfOk result (λ e. StandsAfter e self.new) }
        ensures fewer { units.new ≤ units.old }
        ensures orefs { IfOk result (λ e. (o : ℕ) → CountsEvent e o (all_places o self.old) (all_places o self.new)) }
        ensures others { self.new ≡ with_machine self.new.top.machine self.old }
        ensures units { OnErr result (units.new ≡ units.old) }
        ensures same { OnErr result ((n : ℕ) → running self.new.top.machine n ≡ running self.old.top.machine n) }
        ensures ready { OnErr result (IsReady self.new) }
        ensures kept { OnErr result ((o : ℕ) → all_places o self.new ≡ all_places o self.old) }
    {
        self.top.machine.go(units)
    }

    /// Gives the frame on top the answer to what it asked. For want of memory nothing is changed.
    #[tactic(auto, using(crate::proofs::Standing::answered_ready))]
    pub fn give(&mut self, answer: Answer) -> Result<(), NoMemory>
        requires asked { IsAsked self.old }
        ensures goes_on { OnOk result ((n : ℕ) → running self.new.top.machine n ≡ awaited self.old.top.machine answer n) }
        ensures ready { OnOk result (IsReady self.new) }
        ensures orefs { OnOk result ((o : ℕ) → all_places o self.new ≡ all_places o self.old + given o answer) }
        ensures others { OnOk result (self.new ≡ with_machine self.new.top.machine self.old) }
        ensures err { OnErr result (self.new ≡ self.old) }
    {
        self.top.machine.give(answer)
    }

    /// Puts a frame on top of the one that asked for it. It refuses to be the 65th, and for want of memory; the frames are as
    /// before then.
    pub fn push(&mut self, frame: RunningFrame<'a>) -> Result<(), PushError>
        ensures ok { OnOk result (IsPushed frame.entry self.old self.new) }
        ensures room { OnOk result (length (callers self.old) < most_callers) }
        ensures err { OnErr result (IsSame self.old self.new) }
        ensures full { IfErr result (λ e. e ≡ IsFull → most_callers ≤ length (callers self.old)) }
        ensures lack { IfErr result (λ e. e ≡ LacksMemory → length (callers self.old) < most_callers) }
    {
        if self.is_full() {
            return Err(PushError::Full);
        }
        let caller = mem::replace(&mut self.top, frame);
        match self.below.push(caller) {
            Ok(()) => Ok(()),
            Err(failed) => {
                self.top = failed.value;
                Err(PushError::NoMemory)
            }
        }
    }

    /// Takes the frame on top away, so that the one below it is on top, and answers whether there was one below.
    pub fn pop(&mut self) -> bool
        ensures { Popped result self.old self.new }
    {
        match self.below.pop() {
            Some(caller) => {
                self.top = caller;
                true
            }
            None => false,
        }
    }
}
