ghost use Rattle.std.specs.Prelude.{◌≡◌, ◌≢◌, ◌+◌, ◌-◌, ◌≤◌, ◌<◌, ◌^◌, true, None, slice_index_or, vec_len, vec_capacity, IfOk, IfErr, OnOk, OnErr, Err};
ghost use Rattle.obj_kinds.specs.declared.op.Op.TheVariants.{End};
ghost use Rattle.obj_kinds.specs.Replies.{has_text};
ghost use Rattle.lock_table.specs.declared.hold.Hold.{Hold};
ghost use Rattle.lock_table.specs.Holds.{kept};
ghost use Rattle.store_core.specs.declared.refusal.ApplyError.TheVariants.{Volume, NoMemory};
ghost use Rattle.store_core.specs.Volume.{op_volume, reply_volume};
ghost use Rattle.store_core.specs.Machine.{State, after, reply as answer_to};
ghost use Rattle.store_core.specs.Tied.{IsOwed, IsTied};

use crate::history::{History, make_room};
use crate::refusal::ApplyError;
use crate::turns::turn;
use crate::volume::{without_op, without_reply};
use global_tree::Tree;
use lock_table::Locks;
use obj_kinds::{Op, Pid, Reply};
use std::alloc::Global;
use tran_log::Log;

/// What each entry takes of the volume beside its texts and numbers.
const ENTRY: u64 = 64;

/// What a turn answered: the reply for the history, the same for the caller, and what is left of
/// the volume without the entry.
#[derive(Drop)]
pub struct Told {
    pub kept: Reply,
    pub told: Reply,
    pub left: u64,
}

/// What is left of the volume without the entry of an operation, its reply aside.
fn room_of_reply(room: u64, op: &Op) -> Result<u64, ApplyError>
    ensures ok { IfOk result (λ left. left + op_volume op.now + 64 ≡ room) }
    ensures err { IfErr result (λ e. (e ≡ Volume) × (room < 64 + op_volume op.now)) }
{
    match room.checked_sub(ENTRY) {
        None => Err(ApplyError::Volume),
        Some(left) => match without_op(left, op) {
            Some(left) => Ok(left),
            None => Err(ApplyError::Volume),
        },
    }
}

/// Both replies and what is left of the room, which the reply doesn't pass.
fn told_twice(alloc: Global, reply: Reply, room: u64) -> Result<Told, ApplyError>
    requires { reply_volume reply ≤ room }
    ensures kept { IfOk result (λ t. t.kept ≡ reply) }
    ensures told { IfOk result (λ t. t.told ≡ reply) }
    ensures left { IfOk result (λ t. t.left + reply_volume reply ≡ room) }
    ensures err { IfErr result (λ e. (e ≡ NoMemory) × (has_text reply ≡ true)) }
{
    let told = reply.copy(alloc)?;
    match without_reply(room, &reply) {
        Some(left) => Ok(Told {
            kept: reply,
            told,
            left,
        }),
        None => unreachable!(),
    }
}

/// Carries an operation of a live process out, where there is room for the texts and numbers of its
/// reply, and tells the reply twice. After a refusal all stands for the state that it stood for.
fn told_turn(
    alloc: Global,
    tree: &mut Tree,
    locks: &mut Locks,
    logs: &mut Vec<Option<Log>>,
    pid: Pid,
    op: &Op,
    room: u64,
) -> Result<Told, ApplyError>
    requires pid { (1 ≤ pid.0) × (pid.0 ≤ vec_len logs.old) }
    requires live { slice_index_or logs.old.items (pid.0 - 1) None ≢ None }
    requires no_end { op.now ≢ End }
    requires owed { IsOwed tree.old.pins logs.old.items }
    requires counts { (h : Hold) → (kept locks.old h).counted < 2 ^ 64 - 1 }
    ensures owed { IsOwed tree.new.pins logs.new.items }
    ensures pids { vec_len logs.new ≡ vec_len logs.old }
    ensures kept { (s : State) → IsTied s tree.old.globals locks.old logs.old.items → IfOk result (λ t. t.kept ≡ answer_to s pid op.now) }
    ensures told { (s : State) → IsTied s tree.old.globals locks.old logs.old.items → IfOk result (λ t. t.told ≡ answer_to s pid op.now) }
    ensures left { (s : State) → IsTied s tree.old.globals locks.old logs.old.items → IfOk result (λ t. t.left + reply_volume (answer_to s pid op.now) ≡ room) }
    ensures after { (s : State) → IsTied s tree.old.globals locks.old logs.old.items → OnOk result (IsTied (after s pid op.now) tree.new.globals locks.new logs.new.items) }
    ensures err { (s : State) → IsTied s tree.old.globals locks.old logs.old.items → OnErr result (IsTied s tree.new.globals locks.new logs.new.items) }
    ensures volume { (s : State) → IsTied s tree.old.globals locks.old logs.old.items → result ≡ Err Volume → room < reply_volume (answer_to s pid op.now) }
{
    let reply = turn(alloc, tree, locks, logs, pid, op, room)?;
    told_twice(alloc, reply, room)
}

/// Takes memory for the entry of an operation and for the end of each process, carries the operation
/// of a live process out, where its entry has room in the volume, and tells the reply twice. After
/// a refusal all stands for the state that it stood for.
pub fn take_turn(
    alloc: Global,
    tree: &mut Tree,
    locks: &mut Locks,
    logs: &mut Vec<Option<Log>>,
    history: &mut History,
    pid: Pid,
    op: &Op,
    room: u64,
) -> Result<Told, ApplyError>
    requires pid { (1 ≤ pid.0) × (pid.0 ≤ vec_len logs.old) }
    requires live { slice_index_or logs.old.items (pid.0 - 1) None ≢ None }
    requires no_end { op.now ≢ End }
    requires few { vec_len logs.old ≤ 64 }
    requires owed { IsOwed tree.old.pins logs.old.items }
    requires counts { (h : Hold) → (kept locks.old h).counted < 2 ^ 64 - 1 }
    ensures items { history.new.items ≡ history.old.items }
    ensures places { vec_capacity history.old ≤ vec_capacity history.new }
    ensures memory { OnOk result (vec_len history.old + (vec_len logs.old + 1) ≤ vec_capacity history.new) }
    ensures owed { IsOwed tree.new.pins logs.new.items }
    ensures pids { vec_len logs.new ≡ vec_len logs.old }
    ensures kept { (s : State) → IsTied s tree.old.globals locks.old logs.old.items → IfOk result (λ t. t.kept ≡ answer_to s pid op.now) }
    ensures told { (s : State) → IsTied s tree.old.globals locks.old logs.old.items → IfOk result (λ t. t.told ≡ answer_to s pid op.now) }
    ensures left { (s : State) → IsTied s tree.old.globals locks.old logs.old.items → IfOk result (λ t. t.left + (64 + (op_volume op.now + reply_volume (answer_to s pid op.now))) ≡ room) }
    ensures after { (s : State) → IsTied s tree.old.globals locks.old logs.old.items → OnOk result (IsTied (after s pid op.now) tree.new.globals locks.new logs.new.items) }
    ensures err { (s : State) → IsTied s tree.old.globals locks.old logs.old.items → OnErr result (IsTied s tree.new.globals locks.new logs.new.items) }
    ensures volume { (s : State) → IsTied s tree.old.globals locks.old logs.old.items → result ≡ Err Volume → room < 64 + (op_volume op.now + reply_volume (answer_to s pid op.now)) }
{
    let left = room_of_reply(room, op)?;
    make_room(history, logs.len() + 1)?;
    told_turn(alloc, tree, locks, logs, pid, op, left)
}
