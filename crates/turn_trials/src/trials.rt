use crate::check::{Verdict, check_history};
use crate::failure::Failure;
use crate::plan::{Asks, plans_of};
use crate::run::run_all;
use crate::volume::increments;
use plain_store::{Ask, Dice};
use sqlite_items::Items;
use std::alloc::Global;
use std::sync::Wait;
use std::thread::Threads;
use store_core::Store;

/// More than the operations of any trial take.
const AMPLE: u64 = 10_000_000;

/// Lets each process ask its list in a thread of its own, over a store whose history may take so much of
/// volume.
fn tried<R: Threads + Wait + Sync>(
    rt: &R,
    alloc: Global,
    lists: &[Asks],
    volume: u64,
) -> Result<Store, Failure> {
    if lists.is_empty() || lists.len() > 64 {
        return Err(Failure::Process);
    }
    let plans = plans_of(alloc, lists)?;
    let store = Store::new(alloc, lists.len() as u32, Items::new(alloc), volume)?;
    Ok(run_all(rt, alloc, store, plans)?)
}

fn drawn_list(alloc: Global, dice: &mut Dice, operations: u32) -> Result<Asks, Failure> {
    let mut asks = Vec::new(alloc);
    for _ in 0..operations {
        asks.push(dice.ask())?;
    }
    Ok(asks)
}

fn drawn_lists(alloc: Global, threads: u8, operations: u32) -> Result<Vec<Asks>, Failure> {
    let mut dice = Dice::new(u64::from(threads));
    let mut lists = Vec::new(alloc);
    for _ in 0..threads {
        lists.push(drawn_list(alloc, &mut dice, operations)?)?;
    }
    Ok(lists)
}

fn same_lists(alloc: Global, threads: u8, operations: u64, ask: Ask) -> Result<Vec<Asks>, Failure> {
    let mut lists = Vec::new(alloc);
    for _ in 0..threads {
        let mut asks = Vec::new(alloc);
        for _ in 0..operations {
            asks.push(ask)?;
        }
        lists.push(asks)?;
    }
    Ok(lists)
}

/// Lets so many threads ask so many drawn operations each, which are the same in each run, and prints
/// how the history stands to them and to the plain model.
pub fn run_drawn<R: Threads + Wait + Sync + Print>(
    rt: &R,
    alloc: Global,
    threads: u8,
    operations: u32,
) -> Result<(), Failure> {
    let lists = drawn_lists(alloc, threads, operations)?;
    let store = tried(rt, alloc, lists.as_slice(), AMPLE)?;
    let history = store.history().as_slice();
    print!(rt;
        "{threads} threads, {operations} operations each: {} entries, ",
        history.len()
    )?;
    match check_history(alloc, history, lists.as_slice(), threads)? {
        Verdict::Agrees => println!(rt; "as the plain model")?,
        Verdict::OtherEntries(pid) => println!(rt; "other entries of process {pid}")?,
        Verdict::OtherReply(at) => println!(rt; "another reply at {at}")?,
    }
    Ok(())
}

/// Lets so many threads increment one node without an end, over a history that may take so much of
/// volume, and prints how many increments it has before the ends.
pub fn run_full<R: Threads + Wait + Sync + Print>(
    rt: &R,
    alloc: Global,
    threads: u8,
    volume: u64,
) -> Result<(), Failure> {
    // An increment takes 64, 1 for the name of the global, 8 for the step and 8 for the reply.
    let enough = volume / 81;
    let lists = same_lists(alloc, threads, enough.saturating_add(1), Ask::Incr(0, 1))?;
    let store = tried(rt, alloc, lists.as_slice(), volume)?;
    let history = store.history().as_slice();
    print!(rt;
        "{threads} threads, volume {volume}: {} entries, ",
        history.len()
    )?;
    match increments(history) {
        Some(done) => println!(rt; "{done} increments before the ends")?,
        None => println!(rt; "an end or a reply out of place")?,
    }
    Ok(())
}
