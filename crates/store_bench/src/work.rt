ghost use Rattle.std.specs.Prelude.{◌≢◌, IfOk};
ghost use Rattle.obj_kinds.specs.declared.op.Op.TheVariants.{End};

use crate::failure::Failure;
use obj_kinds::{Keep, Mode, Node, Op, Owner, Pid, Reply, Sub, Text, Value};
use sqlite_items::Items;
use std::alloc::Global;
use store_core::Store;

/// The most that the history of a store may take.
const VOLUME: u64 = 268_435_456;

/// The one process that asks.
const PID: Pid = Pid(1);

/// What is measured.
#[derive(Clone, Copy, PartialEq, Eq)]
pub enum Work {
    /// New nodes are set, in node order.
    Sets,
    /// Each node is read.
    Gets,
    /// The way from each subscript to the next.
    Orders,
    /// Each node is incremented.
    Increments,
    /// Each node is locked, and unlocked at once.
    LockPairs,
    /// Each node is set in a transaction of its own.
    Transactions,
}

/// All kinds of work, in the order in which they run on one store.
pub const WORKS: [Work; 6] = [
    Work::Sets,
    Work::Gets,
    Work::Orders,
    Work::Increments,
    Work::LockPairs,
    Work::Transactions,
];

impl Work {
    pub fn name(self) -> &'static str {
        match self {
            Work::Sets => "sets",
            Work::Gets => "gets",
            Work::Orders => "orders",
            Work::Increments => "increments",
            Work::LockPairs => "lock pairs",
            Work::Transactions => "transactions",
        }
    }
}

/// An empty store of one process.
pub fn empty_store(alloc: Global) -> Result<Store, Failure> {
    Ok(Store::new(alloc, 1, Items::new(alloc), VOLUME)?)
}

fn node(alloc: Global, sub: Option<u32>) -> Result<Node, Failure> {
    let mut subs = Items::new(alloc);
    if let Some(number) = sub {
        subs.push(Sub::Num(i64::from(number)))?;
    }
    let global = Text::from_slice(alloc, b"n")?;
    Ok(Node { global, subs })
}

fn one(alloc: Global) -> Result<Value, Failure> {
    Ok(Value::Str(Text::from_slice(alloc, b"1")?))
}

fn order(alloc: Global, at: u32) -> Result<Op, Failure>
    ensures { IfOk result (λ op. op ≢ End) }
{
    Ok(Op::Order(node(alloc, None)?, Some(Sub::Num(i64::from(at)))))
}

fn set(alloc: Global, at: u32) -> Result<Op, Failure>
    ensures { IfOk result (λ op. op ≢ End) }
{
    Ok(Op::Set(node(alloc, Some(at))?, one(alloc)?))
}

/// Asks an operation of the process.
fn ask(store: &mut Store, op: Op) -> Result<Reply, Failure>
    requires { op ≢ End }
{
    if !store.is_live(PID) || !op.is_legal() {
        return Err(Failure::Reply);
    }
    Ok(store.apply(PID, op)?)
}

fn is_done(reply: Reply) -> Result<(), Failure> {
    match reply {
        Reply::Done => Ok(()),
        _ => Err(Failure::Reply),
    }
}

fn is_found(reply: Reply) -> Result<(), Failure> {
    match reply {
        Reply::Found(_) => Ok(()),
        _ => Err(Failure::Reply),
    }
}

fn is_step(reply: Reply) -> Result<(), Failure> {
    match reply {
        Reply::Next(_) => Ok(()),
        Reply::NoNext => Ok(()),
        _ => Err(Failure::Reply),
    }
}

fn is_number(reply: Reply, number: i64) -> Result<(), Failure> {
    match reply {
        Reply::Number(told) if told == number => Ok(()),
        _ => Err(Failure::Reply),
    }
}

fn is_granted(reply: Reply) -> Result<(), Failure> {
    match reply {
        Reply::Granted => Ok(()),
        _ => Err(Failure::Reply),
    }
}

fn lock_pair(store: &mut Store, alloc: Global, at: u32) -> Result<(), Failure> {
    let node_to_lock = node(alloc, Some(at))?;
    let lock = Op::Lock(node_to_lock, Mode::Exclusive, Owner::Script, Keep::Counted);
    is_granted(ask(store, lock)?)?;
    let unlock = Op::Unlock(node(alloc, Some(at))?, Mode::Exclusive, Owner::Script);
    is_done(ask(store, unlock)?)
}

fn transaction(store: &mut Store, alloc: Global, at: u32) -> Result<(), Failure> {
    is_number(ask(store, Op::Begin)?, 1)?;
    is_done(ask(store, set(alloc, at)?)?)?;
    is_number(ask(store, Op::Commit)?, 0)
}

/// Does the work at one node, and tests the replies.
fn work_at(store: &mut Store, alloc: Global, work: Work, at: u32) -> Result<(), Failure> {
    match work {
        Work::Sets => is_done(ask(store, set(alloc, at)?)?),
        Work::Gets => is_found(ask(store, Op::Get(node(alloc, Some(at))?))?),
        Work::Orders => is_step(ask(store, order(alloc, at)?)?),
        Work::Increments => is_number(ask(store, Op::Incr(node(alloc, Some(at))?, 1))?, 2),
        Work::LockPairs => lock_pair(store, alloc, at),
        Work::Transactions => transaction(store, alloc, at),
    }
}

/// Does the work at so many nodes.
pub fn work_at_all(store: &mut Store, alloc: Global, work: Work, size: u32) -> Result<(), Failure> {
    for at in 0..size {
        work_at(store, alloc, work, at)?;
    }
    Ok(())
}
