//! What a process keeps beside its frames.

ghost use Rattle.std.specs.Prelude.{◌≡◌, IfOk};
ghost use Rattle.os_meaning.specs.Values.{number_value};
ghost use Rattle.process_core.specs.Keeping.{level_move, told_level, level_told, level_by, test_number, open_level, special_value, test_granted, with_level};

use obj_kinds::{NoMemory, Op, Reply, Text, Value, number_value};
use os_kinds::{Special, Val};
use std::alloc::Global;

/// What an operation does to the number of open transactions.
#[derive(Clone, Copy, Debug, PartialEq, Eq)]
pub(crate) enum LevelMove {
    Stays,
    /// The reply tells it, where it is a number.
    Told,
    /// None is open any more.
    Ended,
}

/// `$TEST` and `$TLEVEL`.
#[derive(Clone, Copy, Debug, PartialEq, Eq)]
pub(crate) struct Kept {
    pub(crate) test: bool,
    pub(crate) level: i64,
}

pub(crate) fn level_move(op: &Op) -> LevelMove
    ensures { result ≡ level_move op.now }
{
    match op {
        Op::Begin => LevelMove::Told,
        Op::Commit => LevelMove::Told,
        Op::RollbackOne => LevelMove::Told,
        Op::RollbackAll => LevelMove::Ended,
        _ => LevelMove::Stays,
    }
}

fn told_level(told: i64, level: i64) -> i64
    ensures { result ≡ told_level told level }
{
    if told >= 0 { told } else { level }
}

fn level_told(reply: &Reply, level: i64) -> i64
    ensures { result ≡ level_told reply.now level }
{
    match reply {
        Reply::Number(told) => told_level(*told, level),
        _ => level,
    }
}

/// How many transactions are open behind a reply.
fn level_by(moved: LevelMove, reply: &Reply, level: i64) -> i64
    ensures { result ≡ level_by moved reply.now level }
{
    match moved {
        LevelMove::Told => level_told(reply, level),
        LevelMove::Ended => 0,
        LevelMove::Stays => level,
    }
}

fn number(alloc: Global, number: i64) -> Result<Val, NoMemory>
    ensures { IfOk result (λ v. v ≡ number_value number) }
{
    Ok(Val::Data(number_value(alloc, number)?))
}

fn test_number(test: bool) -> i64
    ensures { result ≡ test_number test }
{
    if test { 1 } else { 0 }
}

fn open_level(level: i64) -> i64
    ensures { result ≡ open_level level }
{
    if level >= 0 { level } else { 0 }
}

/// The value of a special variable. Without calls of objects none has failed.
pub(crate) fn special_value(alloc: Global, kept: &Kept, special: Special) -> Result<Val, NoMemory>
    ensures { IfOk result (λ v. v ≡ special_value special kept.now) }
{
    match special {
        Special::Test => number(alloc, test_number(kept.test)),
        Special::Level => number(alloc, open_level(kept.level)),
        Special::LastError => Ok(Val::Data(Value::Str(Text::new(alloc)))),
    }
}

/// `$TEST` behind a lock that was granted: 1 where it has a timeout.
pub(crate) fn test_granted(times: Option<u64>, test: bool) -> bool
    ensures { result ≡ test_granted times test }
{
    match times {
        Some(_) => true,
        None => test,
    }
}

/// Keeps how many transactions are open behind a reply.
pub(crate) fn put_level(kept: &mut Kept, moved: LevelMove, reply: &Reply)
    ensures { kept.new ≡ with_level (level_by moved reply.now kept.old.level) kept.old }
{
    kept.level = level_by(moved, reply, kept.level);
}
