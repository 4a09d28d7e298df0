ghost use Rattle.std.specs.Prelude.{◌≡◌, ◌≢◌, ◌-◌, ◌≤◌, ◌<◌, ◌^◌, None, slice_index_or, vec_len, IfOk, OnOk, OnErr, Err};
ghost use Rattle.obj_kinds.specs.declared.op.Op.TheVariants.{End};
ghost use Rattle.lock_table.specs.declared.hold.Hold.{Hold};
ghost use Rattle.lock_table.specs.Holds.{kept};
ghost use Rattle.store_core.specs.declared.refusal.ApplyError.TheVariants.{Volume};
ghost use Rattle.store_core.specs.Volume.{reply_volume};
ghost use Rattle.store_core.specs.Machine.{State, after, reply as told};
ghost use Rattle.store_core.specs.Tied.{IsOwed, IsTied};

use crate::act::act;
use crate::refusal::ApplyError;
use global_tree::Tree;
use lock_table::Locks;
use obj_kinds::{Op, Pid, Reply};
use std::alloc::Global;
use tran_log::Log;

/// Carries an operation of a live process out, where there is room for the texts and numbers of its
/// reply. A refusal changes nothing.
pub fn turn(
    alloc: Global,
    tree: &mut Tree,
    locks: &mut Locks,
    logs: &mut Vec<Option<Log>>,
    pid: Pid,
    op: &Op,
    room: u64,
) -> Result<Reply, ApplyError>
    requires pid { (1 ≤ pid.0) × (pid.0 ≤ vec_len logs.old) }
    requires live { slice_index_or logs.old.items (pid.0 - 1) None ≢ None }
    requires no_end { op.now ≢ End }
    requires owed { IsOwed tree.old.pins logs.old.items }
    requires counts { (h : Hold) → (kept locks.old h).counted < 2 ^ 64 - 1 }
    ensures owed { IsOwed tree.new.pins logs.new.items }
    ensures pids { vec_len logs.new ≡ vec_len logs.old }
    ensures reply { (s : State) → IsTied s tree.old.globals locks.old logs.old.items → IfOk result (λ r. r ≡ told s pid op.now) }
    ensures fits { IfOk result (λ r. reply_volume r ≤ room) }
    ensures after { (s : State) → IsTied s tree.old.globals locks.old logs.old.items → OnOk result (IsTied (after s pid op.now) tree.new.globals locks.new logs.new.items) }
    ensures err { OnErr result ((tree.new.globals ≡ tree.old.globals) × (locks.new ≡ locks.old) × (logs.new.items ≡ logs.old.items)) }
    ensures volume { (s : State) → IsTied s tree.old.globals locks.old logs.old.items → result ≡ Err Volume → room < reply_volume (told s pid op.now) }
{
    let at = pid.0 as usize - 1;
    match &mut logs[at] {
        Some(log) => act(alloc, tree, locks, log, pid, op, room),
        None => unreachable!(),
    }
}

/// Ends a live process: its levels are undone from the top, and its locks go. It takes no memory.
pub fn end_turn(tree: &mut Tree, locks: &mut Locks, logs: &mut Vec<Option<Log>>, pid: Pid)
    requires pid { (1 ≤ pid.0) × (pid.0 ≤ vec_len logs.old) }
    requires live { slice_index_or logs.old.items (pid.0 - 1) None ≢ None }
    requires owed { IsOwed tree.old.pins logs.old.items }
    ensures owed { IsOwed tree.new.pins logs.new.items }
    ensures pids { vec_len logs.new ≡ vec_len logs.old }
    ensures after { (s : State) → IsTied s tree.old.globals locks.old logs.old.items → IsTied (after s pid End) tree.new.globals locks.new logs.new.items }
{
    match logs[pid.0 as usize - 1].take() {
        Some(log) => {
            let mut log = log;
            log.undo_all(tree);
            locks.drop_all(pid);
        }
        None => unreachable!(),
    }
}
