ghost use Rattle.std.specs.Prelude.{◌≡◌, ℕ, ◌+◌, ◌-◌, ◌<◌, true, false, IfOk, OnOk, OnErr};
ghost use Rattle.os_code.specs.Machine.{flat};
ghost use Rattle.os_meaning.specs.Accounts.{given};
ghost use Rattle.os_meaning.specs.Accounts.{count_some, count_vars};
ghost use Rattle.os_machine.specs.States.{behind, frame_at, frame_with};
ghost use Rattle.os_machine.specs.Places.{places_at};
ghost use Rattle.os_machine.specs.declared.machine.Phase.TheVariants.{Runs, Waits, Halts};
ghost use Rattle.os_machine.specs.Runs.{running, awaited, is_waiting, is_need, Sees, CountsEvent, places, announced, left_with};

use crate::local::{Local, Told};
use crate::numbers::Numbers;
use crate::stack::Stack;
use crate::stepped::{Awaits, Received};
use crate::variables::Variables;
use crate::work::Work;
use obj_kinds::{ErrorName, NoMemory};
use os_code::Instruction;
use os_kinds::{Answer, Event, ScriptEnd, Val};
use std::alloc::Global;
use std::mem;

/// What a machine does next.
#[derive(Debug, Drop)]
pub(crate) enum Phase {
    /// It runs its code.
    Runs,
    /// It waits for an answer.
    Waits(Awaits),
    /// It ends with a value.
    Done(Val),
    /// It ends with an error and its line.
    Fails(ErrorName, u32),
    /// It halts.
    Halts,
}

/// One frame over its code. It runs up to the next event at each call of [`Machine::go`], and where it has asked, it waits for
/// [`Machine::give`].
#[derive(Drop)]
pub struct Machine<'a> {
    code: &'a [Instruction],
    local: Local,
    phase: Phase,
    /// Units that were taken and handed back when memory ran out behind them.
    owed: u32,
    alloc: Global,
}

impl<'a> Machine<'a> {
    /// A frame at the beginning of its code, with the object whose method runs and its first variables. It takes no memory yet.
    pub fn new(
        alloc: Global,
        code: &'a [Instruction],
        this: Option<Val>,
        vars: Variables,
    ) -> Machine<'a>
        ensures frame { (n : ℕ) → running result n ≡ flat this n code.now vars }
        ensures ready { is_waiting result ≡ false }
        ensures places { (o : ℕ) → places o result ≡ count_some o this + count_vars o vars }
    {
        Machine {
            code,
            local: Local {
                place: 0,
                this,
                work: Work {
                    stack: Stack::new(alloc),
                    numbers: Numbers::new(alloc),
                    vars,
                },
            },
            phase: Phase::Runs,
            owed: 0,
            alloc,
        }
    }

    /// Whether it has asked, and waits for the answer.
    pub fn is_waiting(&self) -> bool
        ensures { result ≡ is_waiting self.now }
    {
        match &self.phase {
            Phase::Waits(_) => true,
            _ => false,
        }
    }

    /// Runs up to the next event, and takes a unit for each command argument and loop test. It ends the frame with `Fuel` where
    /// one more unit is wanted than there are. For want of memory the units are as before, and all that was left of the frame is
    /// left: so it may be called again.
    pub fn go(&mut self, units: &mut u32) -> Result<Event, NoMemory>
        requires ready { is_waiting self.old ≡ false }
        ensures sees { IfOk result (λ e. Sees e units.old units.new (running self.old) self.new) }
        ensures waits { IfOk result (λ e. is_waiting self.new ≡ is_need e) }
        ensures orefs { IfOk result (λ e. (o : ℕ) → CountsEvent e o (places o self.old) (places o self.new)) }
        ensures units { OnErr result (units.new ≡ units.old) }
        ensures same { OnErr result ((n : ℕ) → running self.new n ≡ running self.old n) }
        ensures still { OnErr result (is_waiting self.new ≡ false) }
        ensures kept { OnErr result ((o : ℕ) → places o self.new ≡ places o self.old) }
    {
        match mem::replace(&mut self.phase, Phase::Halts) {
            Phase::Runs => self.run(units),
            Phase::Done(value) => Ok(Event::Finished(ScriptEnd::Done(value))),
            Phase::Fails(name, line) => {
                self.phase = Phase::Fails(name, line);
                Ok(Event::Finished(ScriptEnd::Error { name, line }))
            }
            Phase::Halts => Ok(Event::Finished(ScriptEnd::Halt)),
            Phase::Waits(_) => Ok(Event::Finished(ScriptEnd::Halt)),
        }
    }

    fn run(&mut self, units: &mut u32) -> Result<Event, NoMemory>
        requires { self.old.phase ≡ Halts }
        ensures sees { IfOk result (λ e. Sees e units.old units.new (behind self.old.owed (frame_at self.old.code.now self.old.local)) self.new) }
        ensures waits { IfOk result (λ e. is_waiting self.new ≡ is_need e) }
        ensures orefs { IfOk result (λ e. (o : ℕ) → CountsEvent e o (places_at o self.old.local) (places o self.new)) }
        ensures units { OnErr result (units.new ≡ units.old) }
        ensures runs { OnErr result (self.new.phase ≡ Runs) }
        ensures same { OnErr result ((n : ℕ) → running self.new n ≡ behind self.old.owed (frame_at self.old.code.now self.old.local) n) }
        ensures kept { OnErr result ((o : ℕ) → places o self.new ≡ places_at o self.old.local) }
    {
        let start = *units;
        if start < self.owed {
            *units = 0;
            return Ok(Event::Finished(ScriptEnd::Fuel));
        }
        *units -= self.owed;
        match self.local.run(self.alloc, self.code, units) {
            Ok(told) => {
                self.owed = 0;
                Ok(self.tell(told))
            }
            Err(NoMemory) => {
                self.phase = Phase::Runs;
                self.owed = start - *units;
                *units = start;
                Err(NoMemory)
            }
        }
    }

    /// The event of what was told, and what the machine does next.
    fn tell(&mut self, told: Told) -> Event
        requires { self.old.phase ≡ Halts }
        ensures { (result, self.new) ≡ announced told self.old }
    {
        match told {
            Told::Shows(sight) => {
                self.phase = Phase::Runs;
                sight.event()
            }
            Told::Asks(call, awaits) => {
                self.phase = Phase::Waits(awaits);
                Event::Need(call)
            }
            Told::Leaves(value) => self.leave(value),
            Told::Fails(name, line) => Event::Finished(ScriptEnd::Error { name, line }),
            Told::Halts => Event::Finished(ScriptEnd::Halt),
            Told::Fuel => Event::Finished(ScriptEnd::Fuel),
        }
    }

    /// Ends with a value. The object whose method ran has lost its place then.
    fn leave(&mut self, value: Val) -> Event
        requires { self.old.phase ≡ Halts }
        ensures { (result, self.new) ≡ left_with self.old.local.this value self.old }
    {
        match mem::replace(&mut self.local.this, None) {
            Some(Val::Ref { number, .. }) => {
                self.phase = Phase::Done(value);
                Event::Less(number)
            }
            Some(Val::Data(_)) => Event::Finished(ScriptEnd::Done(value)),
            None => Event::Finished(ScriptEnd::Done(value)),
        }
    }

    /// Gives the answer to the call that was asked. An answer that doesn't fit halts the frame. For want of memory nothing is changed.
    pub fn give(&mut self, answer: Answer) -> Result<(), NoMemory>
        requires waits { is_waiting self.old ≡ true }
        ensures goes_on { OnOk result ((n : ℕ) → running self.new n ≡ awaited self.old answer n) }
        ensures ready { OnOk result (is_waiting self.new ≡ false) }
        ensures orefs { OnOk result ((o : ℕ) → places o self.new ≡ places o self.old + given o answer) }
        ensures err { OnErr result (self.new ≡ self.old) }
    {
        match self.phase {
            Phase::Waits(awaits) => self.take(awaits, answer),
            _ => Ok(()),
        }
    }

    fn take(&mut self, awaits: Awaits, answer: Answer) -> Result<(), NoMemory>
        requires { self.old.phase ≡ Waits awaits }
        ensures goes_on { OnOk result ((n : ℕ) → running self.new n ≡ frame_with self.old.code.now self.old.local awaits answer n) }
        ensures ready { OnOk result (is_waiting self.new ≡ false) }
        ensures orefs { OnOk result ((o : ℕ) → places o self.new ≡ places_at o self.old.local + given o answer) }
        ensures err { OnErr result (self.new ≡ self.old) }
    {
        let received = self.local.work.take(self.alloc, awaits, answer)?;
        self.owed = 0;
        match received {
            Received::Goes(over) => {
                self.local.pass(over, self.code.len());
                self.phase = Phase::Runs;
            }
            Received::Fails(name, line) => self.phase = Phase::Fails(name, line),
            Received::Halts => self.phase = Phase::Halts,
        }
        Ok(())
    }
}
