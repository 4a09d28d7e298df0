//! One process over a store: it runs a script and answers what the script asks.

ghost use Rattle.std.specs.Prelude.{◌≡◌, ◌≢◌, [], None, false, IfOk, OnOk, IfNone, IfSome};
ghost use Rattle.os_machine.specs.Runs.{is_waiting};
ghost use Rattle.lone_process.specs.Processes.{IsPlayed, IsPlayedTo};
ghost use Rattle.obj_kinds.specs.declared.op.Op.TheVariants.{End};
ghost use Rattle.os_meaning.specs.Meaning.{meaning};
ghost use Rattle.os_meaning.specs.Values.{number_value};
ghost use Rattle.os_code.specs.Machine.{flat};
ghost use Rattle.lone_process.specs.Plays.{answered, asked, entered, fresh, level_by, level_move, locked, plays, reply_to, special_value, told_level};

use crate::error::PlayError;
use obj_kinds::{ErrorName, Keep, Mode, Node, Op, Owner, Pid, Reply, Text, Value, number_value};
use os_code::Instruction;
use os_compile::code_of;
use os_kinds::{Answer, Call, Event, Script, ScriptEnd, Special, Val};
use os_machine::{Machine, Variables};
use std::alloc::Global;
use store_core::Store;

/// The one process of a store.
pub const PID: Pid = Pid(1);

/// The most events of a run.
const MOST_EVENTS: u32 = u32::MAX;

/// What an operation does to the number of open transactions.
#[derive(Clone, Copy, Debug, PartialEq, Eq)]
enum LevelMove {
    Stays,
    /// The reply tells it, where it is a number.
    Told,
    /// None is open any more.
    Ended,
}

/// What a process keeps beside its store.
#[derive(Debug, Drop)]
struct Kept {
    /// `$TEST`
    test: bool,
    /// `$TLEVEL`
    level: i64,
}

/// Whether an operation ends a process.
fn is_end(op: &Op) -> bool
    ensures { result ≡ false → op.now ≢ End }
{
    matches!(op, Op::End)
}

fn level_move(op: &Op) -> LevelMove
    ensures { result ≡ level_move op.now }
{
    match op {
        Op::Begin => LevelMove::Told,
        Op::Commit => LevelMove::Told,
        Op::RollbackOne => LevelMove::Told,
        Op::RollbackAll => LevelMove::Ended,
        _ => LevelMove::Stays,
    }
}

fn told_level(reply: &Reply, level: i64) -> i64
    ensures { result ≡ told_level reply.now level }
{
    match reply {
        Reply::Number(told) => *told,
        _ => level,
    }
}

fn level_after(moved: LevelMove, reply: &Reply, level: i64) -> i64
    ensures { result ≡ level_by moved reply.now level }
{
    match moved {
        LevelMove::Told => told_level(reply, level),
        LevelMove::Ended => 0,
        LevelMove::Stays => level,
    }
}

/// Asks an operation of the store.
fn ask(store: &mut Store, op: Op) -> Result<Reply, PlayError>
    ensures reply { IfOk result (λ r. r ≡ reply_to op store.old) }
    ensures entry { OnOk result (store.new ≡ entered op store.old) }
{
    if is_end(&op) || !op.is_legal() || !store.is_live(PID) {
        return Err(PlayError::Call);
    }
    let reply = store.apply(PID, op)?;
    Ok(reply)
}

fn answer_store(store: &mut Store, kept: &mut Kept, op: Op) -> Result<Answer, PlayError>
    ensures { IfOk result (λ a. (a, (kept.new, store.new)) ≡ asked op kept.old store.old) }
{
    let moved = level_move(&op);
    let reply = ask(store, op)?;
    kept.level = level_after(moved, &reply, kept.level);
    Ok(Answer::Reply(reply))
}

/// A lock: no other process is there, so it is granted.
fn answer_lock(
    store: &mut Store,
    kept: &mut Kept,
    node: Node,
    mode: Mode,
    timed: bool,
) -> Result<Answer, PlayError>
    ensures { IfOk result (λ a. (a, (kept.new, store.new)) ≡ locked node mode timed kept.old store.old) }
{
    let lock = Op::Lock(node, mode, Owner::Script, Keep::Counted);
    match ask(store, lock)? {
        Reply::Granted => {
            kept.test = kept.test || timed;
            Ok(Answer::Done)
        }
        _ => Err(PlayError::Call),
    }
}

fn number(alloc: Global, number: i64) -> Result<Val, PlayError>
    ensures { IfOk result (λ v. v ≡ number_value number) }
{
    Ok(Val::Data(number_value(alloc, number)?))
}

fn special_value(alloc: Global, kept: &Kept, special: Special) -> Result<Val, PlayError>
    ensures { IfOk result (λ v. v ≡ special_value special kept.now) }
{
    match special {
        Special::Test => {
            if kept.test {
                number(alloc, 1)
            } else {
                number(alloc, 0)
            }
        }
        Special::Level => number(alloc, kept.level),
        Special::LastError => Ok(Val::Data(Value::Str(Text::new(alloc)))),
    }
}

/// The answer to a call. There are no classes.
fn answer(
    alloc: Global,
    store: &mut Store,
    kept: &mut Kept,
    call: Call,
) -> Result<Answer, PlayError>
    ensures { IfOk result (λ a. (a, (kept.new, store.new)) ≡ answered call kept.old store.old) }
{
    match call {
        Call::Store(op) => answer_store(store, kept, op),
        Call::TryLock { node, mode, tries } => {
            answer_lock(store, kept, node, mode, tries.is_some())
        }
        Call::Special(special) => {
            let value = special_value(alloc, kept, special)?;
            Ok(Answer::Got(value))
        }
        Call::OnClass { .. } => Ok(Answer::Error(ErrorName::ClassDoesNotExist)),
        Call::OnOwn { .. } => Ok(Answer::Error(ErrorName::InvalidOref)),
        Call::OnObject { .. } => Ok(Answer::Error(ErrorName::InvalidOref)),
        Call::Read { .. } => Ok(Answer::Error(ErrorName::InvalidOref)),
        Call::Write { .. } => Ok(Answer::Error(ErrorName::InvalidOref)),
        Call::OnItems { .. } => Ok(Answer::Error(ErrorName::InvalidOref)),
    }
}

/// A frame that runs over a store, and the units that it has left.
#[derive(Drop)]
struct Process<'a> {
    machine: Machine<'a>,
    kept: Kept,
    left: u32,
}

impl<'a> Process<'a> {
    /// Goes on to the next event, and answers what is asked; the end is handed on.
    fn turn(
        &mut self,
        alloc: Global,
        store: &mut Store,
        out: &mut Text,
    ) -> Result<Option<ScriptEnd>, PlayError>
        requires ready { is_waiting self.old.machine ≡ false }
        ensures ready { OnOk result (is_waiting self.new.machine ≡ false) }
        ensures goes { IfOk result (λ e. IfNone e (IsPlayedTo self.old store.old out.old self.new store.new out.new)) }
        ensures ends { IfOk result (λ e. IfSome e (λ end. IsPlayed self.old store.old out.old end store.new out.new)) }
    {
        match self.machine.go(&mut self.left)? {
            Event::Print(text) => {
                out.push_slice(text.as_slice())?;
                Ok(None)
            }
            Event::Need(call) => {
                let answer = answer(alloc, store, &mut self.kept, call)?;
                self.machine.give(answer)?;
                Ok(None)
            }
            Event::More(_) => Ok(None),
            Event::Less(_) => Ok(None),
            Event::Point => Ok(None),
            Event::Finished(end) => Ok(Some(end)),
        }
    }
}

/// Runs code to its end with so many units, and puts what it prints.
fn play(
    alloc: Global,
    code: &[Instruction],
    store: &mut Store,
    units: u32,
    out: &mut Text,
) -> Result<ScriptEnd, PlayError>
    ensures { IfOk result (λ end. plays (flat None units code.now []) fresh store.old out.old ≡ (end, (out.new, store.new))) }
{
    let mut process = Process {
        machine: Machine::new(alloc, code, None, Variables::new(alloc)),
        kept: Kept {
            test: false,
            level: 0,
        },
        left: units,
    };
    'events: for _event in 0..MOST_EVENTS {
        match process.turn(alloc, store, out)? {
            None => {}
            Some(end) => return Ok(end),
        }
    }
    Err(PlayError::Long)
}

/// Runs a script to its end with so many units, and puts what it prints: what it prints, how it ends and what it leaves in the store
/// is what the script means where the store answers.
pub fn run_script(
    alloc: Global,
    script: &Script,
    store: &mut Store,
    units: u32,
    out: &mut Text,
) -> Result<ScriptEnd, PlayError>
    ensures { IfOk result (λ end. plays (meaning None units script.now []) fresh store.old out.old ≡ (end, (out.new, store.new))) }
{
    let code = code_of(script, alloc)?;
    play(alloc, code.as_slice(), store, units, out)
}
