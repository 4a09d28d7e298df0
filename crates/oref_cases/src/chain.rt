use crate::collections::Spot;
use crate::failure::Failure;
use crate::player::Player;
use obj_kinds::{ClassName, Text};
use oref_table::Oref;
use std::alloc::Global;
use std::time::CpuClock;

/// The class of all objects here.
pub fn class(alloc: Global) -> Result<ClassName, Failure> {
    Ok(ClassName(Text::from_slice(alloc, b"A.B")?))
}

/// So many objects of one slot, each held once from outside.
fn make_all(alloc: Global, player: &mut Player, size: u32) -> Result<(), Failure> {
    for _ in 0..size {
        player.make(alloc, class(alloc)?, "s")?;
    }
    Ok(())
}

/// Each object names the one behind it.
fn link_all(player: &mut Player, size: u32) -> Result<(), Failure> {
    for at in 1..size {
        let from = Spot {
            oref: Oref(u64::from(at)),
            slot: 0,
        };
        player.link(from, Oref(u64::from(at) + 1))?;
    }
    Ok(())
}

/// All holds outside are given back, the last one first, so that the chain goes with the last of these.
fn let_all_go(player: &mut Player, size: u32) {
    for _ in 0..size {
        player.let_last_go();
    }
}

/// Whether as many were told of, in rising order of numbers.
fn are_told(player: &Player, size: u32) -> bool {
    let mut next = 1u64;
    for freed in player.table().released().iter() {
        if freed.number != next {
            return false;
        }
        next = next.saturating_add(1);
    }
    next == u64::from(size) + 1
}

/// Makes a chain, lets it go from its head, and prints what is left.
pub fn run_chain(rt: &HostRuntime, size: u32) -> Result<(), Failure> {
    let alloc = rt.alloc();
    let mut player = Player::new(alloc);
    make_all(alloc, &mut player, size)?;
    link_all(&mut player, size)?;
    println!(rt; "chain of {size}: live {}", player.table().live())?;
    let_all_go(&mut player, size);
    let told = are_told(&player, size);
    println!(rt;
        "let go: live {}, told in order: {told}",
        player.table().live()
    )?;
    Ok(())
}

fn nanos(rt: &HostRuntime) -> Result<u64, Failure> {
    match u64::try_from(rt.thread_cpu_time()?.as_nanos()) {
        Ok(nanos) => Ok(nanos),
        Err(_) => Err(Failure::Outside),
    }
}

fn print_time(rt: &HostRuntime, work: &str, size: u32, nanos: u64) -> Result<(), Failure> {
    let each = nanos / u64::from(size).max(1);
    println!(rt; "{work} {size}: {} us, {each} ns each", nanos / 1_000)?;
    Ok(())
}

fn measure(rt: &HostRuntime, size: u32) -> Result<(), Failure> {
    let alloc = rt.alloc();
    let mut player = Player::new(alloc);
    let start = nanos(rt)?;
    make_all(alloc, &mut player, size)?;
    let made = nanos(rt)?;
    link_all(&mut player, size)?;
    let linked = nanos(rt)?;
    let_all_go(&mut player, size);
    let gone = nanos(rt)?;
    print_time(rt, "make", size, made.saturating_sub(start))?;
    print_time(rt, "link", size, linked.saturating_sub(made))?;
    print_time(rt, "release", size, gone.saturating_sub(linked))
}

/// Measures each size, the first one once before.
pub fn measure_all(rt: &HostRuntime, sizes: &[u32]) -> Result<(), Failure> {
    for size in sizes {
        measure(rt, *size)?;
    }
    Ok(())
}
