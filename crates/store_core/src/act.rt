ghost use Rattle.std.specs.Prelude.{◌≡◌, ◌+◌, ◌-◌, ◌≤◌, ◌<◌, ◌^◌, IfOk, IfErr, OnOk, OnErr, Err};
ghost use Rattle.std.specs.FinMap.{get as value_of};
ghost use Rattle.obj_kinds.specs.declared.node.Node.{Node};
ghost use Rattle.obj_kinds.specs.declared.op.Keep.TheVariants.{Counted};
ghost use Rattle.lock_table.specs.declared.hold.Hold.{Hold};
ghost use Rattle.lock_table.specs.Holds.{hold, kept};
ghost use Rattle.lock_table.specs.Conflict.{asked, ask_reply};
ghost use Rattle.tran_log.specs.Levels.{kept_by, pins_of};
ghost use Rattle.store_core.specs.declared.refusal.ApplyError.TheVariants.{Volume};
ghost use Rattle.store_core.specs.Numbers.{incremented as sum_at};
ghost use Rattle.store_core.specs.Volume.{reply_volume};
ghost use Rattle.store_core.specs.Machine.{sight, turn, answer, stored, number_or};

use crate::ends::{begin, commit, is_open, pay, rollback_all, rollback_one};
use crate::number::incremented;
use crate::reads::{defined, get, order};
use crate::refusal::ApplyError;
use crate::volume::without_reply;
use crate::writes::{kill, set, store_number};
use global_tree::Tree;
use lock_table::Locks;
use obj_kinds::{Keep, Mode, Node, Op, Owner, Pid, Reply};
use std::alloc::Global;
use tran_log::Log;

/// The reply, where there is room for its texts and numbers.
fn fits(reply: Reply, room: u64) -> Result<Reply, ApplyError>
    ensures ok { IfOk result (λ r. (r ≡ reply) × (reply_volume r ≤ room)) }
    ensures err { IfErr result (λ e. (e ≡ Volume) × (room < reply_volume reply)) }
{
    match without_reply(room, &reply) {
        Some(_) => Ok(reply),
        None => Err(ApplyError::Volume),
    }
}

/// Adds to the leading number of a node.
#[tactic(auto, unfolding(crate::specs::Volume::reply_volume))]
fn incr(
    alloc: Global,
    tree: &mut Tree,
    node: &Node,
    step: i64,
    room: u64,
) -> Result<Reply, ApplyError>
    requires { pins_of tree.old.pins node.now + 1 < 2 ^ 64 }
    ensures reply { IfOk result (λ r. (r ≡ number_or (sum_at (value_of tree.old.globals node.now) step)) × (reply_volume r ≤ room)) }
    ensures globals { OnOk result (tree.new.globals ≡ stored tree.old.globals node.now (sum_at (value_of tree.old.globals node.now) step)) }
    ensures pins { (n : Node) → pins_of tree.new.pins n ≡ pins_of tree.old.pins n }
    ensures err { OnErr result (tree.new ≡ tree.old) }
    ensures volume { result ≡ Err Volume → room < reply_volume (number_or (sum_at (value_of tree.old.globals node.now) step)) }
{
    match incremented(tree.get(node), step) {
        None => Ok(Reply::NumberLimit),
        Some(sum) => {
            pay(true, room)?;
            store_number(alloc, tree, node, sum)?;
            Ok(Reply::Number(sum))
        }
    }
}

/// Asks for a lock.
fn lock(
    alloc: Global,
    locks: &mut Locks,
    pid: Pid,
    node: &Node,
    mode: Mode,
    owner: Owner,
    keep: Keep,
    room: u64,
) -> Result<Reply, ApplyError>
    requires { keep ≡ Counted → (kept locks.old (hold pid node.now mode owner)).counted < 2 ^ 64 - 1 }
    ensures reply { IfOk result (λ r. (r ≡ ask_reply locks.old (hold pid node.now mode owner)) × (reply_volume r ≤ room)) }
    ensures holds { OnOk result (locks.new ≡ asked locks.old (hold pid node.now mode owner) keep) }
    ensures err { OnErr result (locks.new ≡ locks.old) }
    ensures volume { result ≡ Err Volume → room < reply_volume (ask_reply locks.old (hold pid node.now mode owner)) }
{
    let reply = locks.ask(alloc, pid, node, mode, owner, keep)?;
    fits(reply, room)
}

/// Carries an operation of a process out on the tree, the locks and the process's own log, where
/// there is room for the texts and numbers of its reply. A refusal changes nothing.
#[tactic(auto, unfolding(crate::specs::Machine::turn, crate::specs::Machine::answer, crate::specs::Volume::reply_volume), using(crate::proofs::Rooms::volume_release))]
pub fn act(
    alloc: Global,
    tree: &mut Tree,
    locks: &mut Locks,
    log: &mut Log,
    pid: Pid,
    op: &Op,
    room: u64,
) -> Result<Reply, ApplyError>
    requires kept { (n : Node) → kept_by log.old n ≤ pins_of tree.old.pins n }
    requires pins { (n : Node) → pins_of tree.old.pins n + 1 < 2 ^ 64 }
    requires counts { (h : Hold) → (kept locks.old h).counted < 2 ^ 64 - 1 }
    ensures reply { IfOk result (λ r. (r ≡ answer (sight tree.old.globals locks.old log.old) pid op.now) × (reply_volume r ≤ room)) }
    ensures turn { OnOk result (sight tree.new.globals locks.new log.new ≡ turn (sight tree.old.globals locks.old log.old) pid op.now) }
    ensures pins { (n : Node) → pins_of tree.new.pins n + kept_by log.old n ≡ pins_of tree.old.pins n + kept_by log.new n }
    ensures err { OnErr result (sight tree.new.globals locks.new log.new ≡ sight tree.old.globals locks.old log.old) }
    ensures volume { result ≡ Err Volume → room < reply_volume (answer (sight tree.old.globals locks.old log.old) pid op.now) }
{
    match op {
        Op::Get(node) => fits(get(alloc, tree, node)?, room),
        Op::Defined(node) => fits(defined(tree, node), room),
        Op::Order(node, after) => fits(order(alloc, tree, node, after)?, room),
        Op::Set(node, value) => {
            set(alloc, tree, log, node, value)?;
            Ok(Reply::Done)
        }
        Op::Kill(node) => {
            kill(alloc, tree, log, node)?;
            Ok(Reply::Done)
        }
        Op::Incr(node, step) => incr(alloc, tree, node, *step, room),
        Op::Lock(node, mode, owner, keep) => {
            lock(alloc, locks, pid, node, *mode, *owner, *keep, room)
        }
        Op::Unlock(node, mode, owner) => {
            Ok(locks.release(pid, node, *mode, *owner, is_open(log)))
        }
        Op::UnlockAll(owner) => {
            locks.release_all(pid, *owner, is_open(log));
            Ok(Reply::Done)
        }
        Op::Begin => begin(alloc, log, room),
        Op::Commit => commit(tree, locks, log, pid, room),
        Op::RollbackOne => rollback_one(tree, locks, log, pid, room),
        Op::RollbackAll => {
            rollback_all(tree, locks, log, pid);
            Ok(Reply::Done)
        }
        Op::End => {
            log.undo_all(tree);
            locks.drop_all(pid);
            Ok(Reply::Done)
        }
    }
}
