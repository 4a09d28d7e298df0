ghost use Rattle.std.specs.Prelude.{◌≡◌, ◌+◌, ◌≤◌, ◌<◌, cond, not, ◌&&◌, [], nat_lt, length, IfOk, IfErr, OnOk, OnErr, Err};
ghost use Rattle.obj_kinds.specs.declared.node.Node.{Node};
ghost use Rattle.lock_table.specs.Holds.{tran_ended};
ghost use Rattle.tran_log.specs.Levels.{Levels, begun, committed, rolled_back, top_undone, all_undone, kept_by, pins_of};
ghost use Rattle.tran_log.specs.Ends.{begun_at, ended_at};
ghost use Rattle.store_core.specs.declared.refusal.ApplyError.TheVariants.{Volume};
ghost use Rattle.store_core.specs.Volume.{reply_volume};
ghost use Rattle.store_core.specs.Machine.{is_open as has_level, begun_reply, left_reply};

use crate::refusal::ApplyError;
use global_tree::Tree;
use lock_table::Locks;
use obj_kinds::{Pid, Reply};
use std::alloc::Global;
use tran_log::{Begun, Ended, Log};

/// The volume of a number in a reply.
const NUMBER: u64 = 8;

/// Refuses the reply where it has a number for which there is no room.
pub fn pay(numbered: bool, room: u64) -> Result<(), ApplyError>
    ensures ok { OnOk result (cond numbered 8 0 ≤ room) }
    ensures err { IfErr result (λ e. (e ≡ Volume) × (room < cond numbered 8 0)) }
{
    if numbered && room < NUMBER {
        Err(ApplyError::Volume)
    } else {
        Ok(())
    }
}

fn begun_number(begun: Begun) -> Reply
    ensures { (ls : Levels) → begun ≡ begun_at ls → result ≡ begun_reply ls }
{
    match begun {
        Begun::Level(level) => Reply::Number(i64::from(level)),
        Begun::TooDeep => Reply::TooDeep,
    }
}

fn left_number(ended: Ended) -> Reply
    ensures { (ls : Levels) → ended ≡ ended_at ls → result ≡ left_reply ls }
{
    match ended {
        Ended::Level(level) => Reply::Number(i64::from(level)),
        Ended::NoTran => Reply::NoTran,
    }
}

pub fn is_open(log: &Log) -> bool
    ensures { result ≡ has_level log.now }
{
    log.level() > 0
}

fn may_begin(log: &Log) -> bool
    ensures { result ≡ nat_lt (length log.now) 255 }
{
    log.level() < 255
}

/// Opens a level.
pub fn begin(alloc: Global, log: &mut Log, room: u64) -> Result<Reply, ApplyError>
    ensures reply { IfOk result (λ r. (r ≡ begun_reply log.old) × (reply_volume r ≤ room)) }
    ensures levels { OnOk result (log.new ≡ begun log.old) }
    ensures kept { (n : Node) → kept_by log.new n ≡ kept_by log.old n }
    ensures err { OnErr result (log.new ≡ log.old) }
    ensures volume { result ≡ Err Volume → room < reply_volume (begun_reply log.old) }
{
    pay(may_begin(log), room)?;
    let begun = log.begin(alloc)?;
    Ok(begun_number(begun))
}

/// Lets the holds to the end go where level 0 was reached from above.
fn close(locks: &mut Locks, log: &Log, pid: Pid, was_open: bool)
    ensures { locks.new ≡ cond (was_open && not (has_level log.now)) (tran_ended locks.old pid) locks.old }
{
    if was_open && !is_open(log) {
        locks.end_tran(pid);
    }
}

/// Ends the top level and keeps its writes.
pub fn commit(
    tree: &mut Tree,
    locks: &mut Locks,
    log: &mut Log,
    pid: Pid,
    room: u64,
) -> Result<Reply, ApplyError>
    requires { (n : Node) → kept_by log.old n ≤ pins_of tree.old.pins n }
    ensures reply { IfOk result (λ r. (r ≡ left_reply log.old) × (reply_volume r ≤ room)) }
    ensures levels { OnOk result (log.new ≡ committed log.old) }
    ensures holds { OnOk result (locks.new ≡ cond (has_level log.old && not (has_level log.new)) (tran_ended locks.old pid) locks.old) }
    ensures globals { tree.new.globals ≡ tree.old.globals }
    ensures pins { (n : Node) → pins_of tree.new.pins n + kept_by log.old n ≡ pins_of tree.old.pins n + kept_by log.new n }
    ensures err { OnErr result ((log.new ≡ log.old) × (locks.new ≡ locks.old)) }
    ensures volume { result ≡ Err Volume → room < reply_volume (left_reply log.old) }
{
    let was_open = is_open(log);
    pay(was_open, room)?;
    let ended = log.commit(tree)?;
    close(locks, log, pid, was_open);
    Ok(left_number(ended))
}

/// Undoes the top level.
pub fn rollback_one(
    tree: &mut Tree,
    locks: &mut Locks,
    log: &mut Log,
    pid: Pid,
    room: u64,
) -> Result<Reply, ApplyError>
    requires { (n : Node) → kept_by log.old n ≤ pins_of tree.old.pins n }
    ensures reply { IfOk result (λ r. (r ≡ left_reply log.old) × (reply_volume r ≤ room)) }
    ensures levels { OnOk result (log.new ≡ rolled_back log.old) }
    ensures holds { OnOk result (locks.new ≡ cond (has_level log.old && not (has_level log.new)) (tran_ended locks.old pid) locks.old) }
    ensures globals { OnOk result (tree.new.globals ≡ top_undone tree.old.globals log.old) }
    ensures pins { (n : Node) → pins_of tree.new.pins n + kept_by log.old n ≡ pins_of tree.old.pins n + kept_by log.new n }
    ensures err { OnErr result ((log.new ≡ log.old) × (locks.new ≡ locks.old) × (tree.new ≡ tree.old)) }
    ensures volume { result ≡ Err Volume → room < reply_volume (left_reply log.old) }
{
    let was_open = is_open(log);
    pay(was_open, room)?;
    let ended = log.undo_one(tree);
    close(locks, log, pid, was_open);
    Ok(left_number(ended))
}

/// Undoes all levels.
pub fn rollback_all(tree: &mut Tree, locks: &mut Locks, log: &mut Log, pid: Pid)
    requires { (n : Node) → kept_by log.old n ≤ pins_of tree.old.pins n }
    ensures levels { log.new ≡ [] }
    ensures holds { locks.new ≡ cond (has_level log.old && not (has_level log.new)) (tran_ended locks.old pid) locks.old }
    ensures globals { tree.new.globals ≡ all_undone tree.old.globals log.old }
    ensures pins { (n : Node) → pins_of tree.new.pins n + kept_by log.old n ≡ pins_of tree.old.pins n }
{
    let was_open = is_open(log);
    log.undo_all(tree);
    close(locks, log, pid, was_open);
}
