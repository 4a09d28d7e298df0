use crate::failure::Failure;
use lock_table::Locks;
use obj_kinds::{Keep, Mode, Node, Owner, Pid, Reply, Sub, Subs, Text};
use std::alloc::Global;

/// The process whose locks are measured.
const OWN: Pid = Pid(1);

/// The process whose locks stand beside.
const FOREIGN: Pid = Pid(2);

/// What is measured.
#[derive(Clone, Copy, PartialEq, Eq)]
pub enum Work {
    /// All nodes are locked, in node order.
    Lock,
    /// All are locked, and given back in that order.
    FromFront,
    /// All are locked, and given back in the opposite order.
    FromBack,
    /// All are locked, and given back in a drawn order.
    Drawn,
    /// Another process locks all nodes; then the own one locks a node to the end of its transaction
    /// and ends it, as often as there are nodes.
    Commits,
}

/// All kinds of work.
pub const WORKS: [Work; 5] = [
    Work::Lock,
    Work::FromFront,
    Work::FromBack,
    Work::Drawn,
    Work::Commits,
];

impl Work {
    pub fn name(self) -> &'static str {
        match self {
            Work::Lock => "lock all",
            Work::FromFront => "unlock from the front",
            Work::FromBack => "unlock from the back",
            Work::Drawn => "unlock in drawn order",
            Work::Commits => "commits beside foreign locks",
        }
    }
}

fn node(alloc: Global, at: u32) -> Result<Node, Failure> {
    let mut subs = Subs::new(alloc);
    subs.push(Sub::Num(i64::from(at)))?;
    let global = Text::from_slice(alloc, b"n")?;
    Ok(Node { global, subs })
}

fn lock(alloc: Global, locks: &mut Locks, pid: Pid, at: u32, keep: Keep) -> Result<(), Failure> {
    let place = node(alloc, at)?;
    let (mode, owner) = (Mode::Exclusive, Owner::Script);
    if locks.kept(pid, &place, mode, owner).counted == u64::MAX {
        return Err(Failure::Reply);
    }
    match locks.ask(alloc, pid, &place, mode, owner, keep)? {
        Reply::Granted => Ok(()),
        _ => Err(Failure::Reply),
    }
}

fn unlock(alloc: Global, locks: &mut Locks, at: u32) -> Result<(), Failure> {
    let place = node(alloc, at)?;
    match locks.release(OWN, &place, Mode::Exclusive, Owner::Script, false) {
        Reply::Done => Ok(()),
        _ => Err(Failure::Reply),
    }
}

/// The table in which the work begins.
pub fn prepared(alloc: Global, work: Work, size: u32) -> Result<Locks, Failure> {
    let mut locks = Locks::new(alloc);
    if work == Work::Lock {
        return Ok(locks);
    }
    let pid = if work == Work::Commits { FOREIGN } else { OWN };
    for at in 0..size {
        lock(alloc, &mut locks, pid, at, Keep::Counted)?;
    }
    Ok(locks)
}

/// The places 0 to `size` in an order drawn by a linear congruential generator.
pub fn drawn(alloc: Global, size: u32) -> Result<Vec<u32>, Failure> {
    let mut order = Vec::new(alloc);
    for at in 0..size {
        order.push(at)?;
    }
    let mut state = 1u64;
    for at in 1..order.len() {
        state = state
            .wrapping_mul(6_364_136_223_846_793_005)
            .wrapping_add(1);
        let other = ((state >> 33) as usize) % (at + 1);
        order.swap(at, other);
    }
    Ok(order)
}

/// Does the work at so many nodes; the places are those of a drawn order.
pub fn work_at_all(
    alloc: Global,
    locks: &mut Locks,
    work: Work,
    size: u32,
    places: &[u32],
) -> Result<(), Failure> {
    match work {
        Work::Lock => lock_all(alloc, locks, size),
        Work::FromFront => unlock_all(alloc, locks, size, false),
        Work::FromBack => unlock_all(alloc, locks, size, true),
        Work::Drawn => unlock_places(alloc, locks, places),
        Work::Commits => commit_all(alloc, locks, size),
    }
}

fn lock_all(alloc: Global, locks: &mut Locks, size: u32) -> Result<(), Failure> {
    for at in 0..size {
        lock(alloc, locks, OWN, at, Keep::Counted)?;
    }
    Ok(())
}

fn unlock_all(alloc: Global, locks: &mut Locks, size: u32, back: bool) -> Result<(), Failure> {
    for at in 0..size {
        let place = if back { size - at - 1 } else { at };
        unlock(alloc, locks, place)?;
    }
    Ok(())
}

fn unlock_places(alloc: Global, locks: &mut Locks, places: &[u32]) -> Result<(), Failure> {
    for at in places {
        unlock(alloc, locks, *at)?;
    }
    Ok(())
}

fn commit_all(alloc: Global, locks: &mut Locks, size: u32) -> Result<(), Failure> {
    for _ in 0..size {
        lock(alloc, locks, OWN, u32::MAX, Keep::ToEnd)?;
        locks.end_tran(OWN);
    }
    Ok(())
}
