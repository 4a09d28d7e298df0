ghost use Rattle.std.specs.Prelude.{◌≡◌, true, IfOk, OnErr};
ghost use Rattle.std.specs.Option.{option_copied};
ghost use Rattle.obj_kinds.specs.Limits.{is_legal_after, is_legal_op, is_legal_reply};
ghost use Rattle.obj_kinds.specs.Replies.{has_text};

use crate::memory::NoMemory;
use crate::node::Node;
use crate::sub::Sub;
use crate::value::Value;
use crate::whole::is_whole;
use std::alloc::Global;

/// The number of a process, from 1.
#[derive(Clone, Copy, Debug, PartialEq, Eq, PartialOrd, Ord, Hash)]
pub struct Pid(pub u32);

/// How a lock is held.
#[derive(Clone, Copy, Debug, PartialEq, Eq, PartialOrd, Ord, Hash)]
pub enum Mode {
    /// Any number of processes may hold it so.
    Shared,
    /// No other process may hold the node, an ancestor or a descendant.
    Exclusive,
}

/// On whose behalf a process holds a lock; the two are counted apart.
#[derive(Clone, Copy, Debug, PartialEq, Eq, PartialOrd, Ord, Hash)]
pub enum Owner {
    /// A `LOCK` command of the script.
    Script,
    /// An object call.
    Object,
}

/// How long a lock is kept.
#[derive(Clone, Copy, Debug, PartialEq, Eq, PartialOrd, Ord, Hash)]
pub enum Keep {
    /// Until it was given back as often as it was granted.
    Counted,
    /// Until the end of the outermost transaction.
    ToEnd,
}

/// One operation on the store.
#[derive(Debug, Drop)]
pub enum Op {
    /// The value of a node.
    Get(Node),
    /// Whether a node has a value, and whether it has descendants.
    Defined(Node),
    /// The least subscript below a node after the one given, or the first.
    Order(Node, Option<Sub>),
    /// Gives a node a value.
    Set(Node, Value),
    /// Takes a node and its descendants away.
    Kill(Node),
    /// Adds to the leading number of a node; no rollback undoes it.
    Incr(Node, i64),
    Lock(Node, Mode, Owner, Keep),
    Unlock(Node, Mode, Owner),
    /// Gives all counted locks of the owner back.
    UnlockAll(Owner),
    /// Opens a level of transaction.
    Begin,
    /// Ends the top level and keeps its writes.
    Commit,
    /// Undoes the top level.
    RollbackOne,
    /// Undoes all levels.
    RollbackAll,
    /// The process ends: it is rolled back, and its locks go.
    End,
}

/// What an operation answers.
#[derive(Debug, Drop)]
pub enum Reply {
    Done,
    Found(Value),
    Absent,
    Next(Sub),
    NoNext,
    /// 0, 1 with a value, 10 with descendants, 11 with both.
    State(u8),
    Number(i64),
    Granted,
    /// Another process holds a lock that is in conflict.
    Held { pid: Pid, node: Node, mode: Mode },
    NotHeld,
    NoTran,
    TooDeep,
    NumberLimit,
}

fn is_legal_after(after: &Option<Sub>) -> bool
    ensures { result ≡ is_legal_after after.now }
{
    match after {
        None => true,
        Some(sub) => sub.is_legal(),
    }
}

fn copy_after(alloc: Global, after: &Option<Sub>) -> Result<Option<Sub>, NoMemory>
    ensures { IfOk result (λ copy. copy ≡ after.now) }
{
    match after {
        None => Ok(None),
        Some(sub) => Ok(Some(sub.copy(alloc)?)),
    }
}

impl Op {
    /// Whether its node, subscript and value are within their limits.
    #[tactic(auto, unfolding(crate::specs::Limits::is_legal_op))]
    pub fn is_legal(&self) -> bool
        ensures { result ≡ is_legal_op self.now }
    {
        match self {
            Op::Get(node) => node.is_legal(),
            Op::Defined(node) => node.is_legal(),
            Op::Order(node, after) => node.is_legal() && is_legal_after(after),
            Op::Set(node, value) => node.is_legal() && value.is_legal(),
            Op::Kill(node) => node.is_legal(),
            Op::Incr(node, _) => node.is_legal(),
            Op::Lock(node, _, _, _) => node.is_legal(),
            Op::Unlock(node, _, _) => node.is_legal(),
            _ => true,
        }
    }

    /// The same operation again; it fails only for want of memory.
    pub fn copy(&self, alloc: Global) -> Result<Op, NoMemory>
        ensures { IfOk result (λ op. op ≡ self.now) }
    {
        match self {
            Op::Get(node) => Ok(Op::Get(node.copy(alloc)?)),
            Op::Defined(node) => Ok(Op::Defined(node.copy(alloc)?)),
            Op::Order(node, after) => Ok(Op::Order(node.copy(alloc)?, copy_after(alloc, after)?)),
            Op::Set(node, value) => Ok(Op::Set(node.copy(alloc)?, value.copy(alloc)?)),
            Op::Kill(node) => Ok(Op::Kill(node.copy(alloc)?)),
            Op::Incr(node, step) => Ok(Op::Incr(node.copy(alloc)?, *step)),
            Op::Lock(node, mode, owner, keep) => {
                Ok(Op::Lock(node.copy(alloc)?, *mode, *owner, *keep))
            }
            Op::Unlock(node, mode, owner) => Ok(Op::Unlock(node.copy(alloc)?, *mode, *owner)),
            Op::UnlockAll(owner) => Ok(Op::UnlockAll(*owner)),
            Op::Begin => Ok(Op::Begin),
            Op::Commit => Ok(Op::Commit),
            Op::RollbackOne => Ok(Op::RollbackOne),
            Op::RollbackAll => Ok(Op::RollbackAll),
            Op::End => Ok(Op::End),
        }
    }
}

impl Reply {
    /// Whether its value, subscript, number and node are within their limits.
    #[tactic(auto, unfolding(crate::specs::Limits::is_legal_reply))]
    pub fn is_legal(&self) -> bool
        ensures { result ≡ is_legal_reply self.now }
    {
        match self {
            Reply::Found(value) => value.is_legal(),
            Reply::Next(sub) => sub.is_legal(),
            Reply::Number(number) => is_whole(*number),
            Reply::Held { node, .. } => node.is_legal(),
            _ => true,
        }
    }

    /// The same reply again. Only one with a text takes memory, and it fails only for want of that.
    pub fn copy(&self, alloc: Global) -> Result<Reply, NoMemory>
        ensures ok { IfOk result (λ r. r ≡ self.now) }
        ensures err { OnErr result (has_text self.now ≡ true) }
    {
        match self {
            Reply::Done => Ok(Reply::Done),
            Reply::Found(value) => Ok(Reply::Found(value.copy(alloc)?)),
            Reply::Absent => Ok(Reply::Absent),
            Reply::Next(sub) => Ok(Reply::Next(sub.copy(alloc)?)),
            Reply::NoNext => Ok(Reply::NoNext),
            Reply::State(state) => Ok(Reply::State(*state)),
            Reply::Number(number) => Ok(Reply::Number(*number)),
            Reply::Granted => Ok(Reply::Granted),
            Reply::Held { pid, node, mode } => Ok(Reply::Held {
                pid: *pid,
                node: node.copy(alloc)?,
                mode: *mode,
            }),
            Reply::NotHeld => Ok(Reply::NotHeld),
            Reply::NoTran => Ok(Reply::NoTran),
            Reply::TooDeep => Ok(Reply::TooDeep),
            Reply::NumberLimit => Ok(Reply::NumberLimit),
        }
    }
}
