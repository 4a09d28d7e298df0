use crate::failure::Failure;
use crate::work::{WORKS, Work, run, script_of, store_for};
use std::time::CpuClock;

/// The processor time of one kind of work at one size, in nanoseconds.
#[derive(Clone, Copy)]
struct Time {
    size: u32,
    nanos: u64,
}

/// Does each kind of work once, and prints how long the history of its store is.
pub fn run_once(rt: &HostRuntime, size: u32) -> Result<(), Failure> {
    for work in WORKS {
        let script = script_of(rt.alloc(), work, size)?;
        let mut store = store_for(rt.alloc(), work, size)?;
        run(rt.alloc(), &script, &mut store)?;
        println!(rt;
            "{} at {}: {} entries",
            work.name(),
            size,
            store.history().len()
        )?;
    }
    Ok(())
}

/// Measures each kind of work at all sizes, each on a store of its own.
pub fn measure_all(rt: &HostRuntime, sizes: &[u32]) -> Result<(), Failure> {
    for work in WORKS {
        measure(rt, work, sizes)?;
    }
    Ok(())
}

fn measure(rt: &HostRuntime, work: Work, sizes: &[u32]) -> Result<(), Failure> {
    let mut first = None;
    for size in sizes {
        let time = timed(rt, work, *size)?;
        print_time(rt, work, time, first)?;
        if first.is_none() {
            first = Some(time);
        }
    }
    Ok(())
}

fn timed(rt: &HostRuntime, work: Work, size: u32) -> Result<Time, Failure> {
    let script = script_of(rt.alloc(), work, size)?;
    let mut store = store_for(rt.alloc(), work, size)?;
    let before = rt.thread_cpu_time()?;
    run(rt.alloc(), &script, &mut store)?;
    let after = rt.thread_cpu_time()?;
    match u64::try_from(after.saturating_sub(before).as_nanos()) {
        Ok(nanos) => Ok(Time { size, nanos }),
        Err(_) => Err(Failure::Outside),
    }
}

/// How many turns a second has.
fn per_second(time: Time) -> u64 {
    let size = u64::from(time.size) * 1_000_000_000;
    size.checked_div(time.nanos).unwrap_or(0)
}

/// How much longer a turn takes than one of the other measurement, in hundredths.
fn ratio(time: Time, other: Time) -> u64 {
    let own = per_second(time);
    per_second(other)
        .saturating_mul(100)
        .checked_div(own)
        .unwrap_or(0)
}

fn print_time(
    rt: &HostRuntime,
    work: Work,
    time: Time,
    first: Option<Time>,
) -> Result<(), Failure> {
    let hundredths = match first {
        Some(other) => ratio(time, other),
        None => 100,
    };
    let name = work.name();
    let size = time.size;
    let micros = time.nanos / 1_000;
    let rate = per_second(time);
    println!(rt;
        "{name} at {size}: {micros} us, {rate} a second, a turn {}.{:02}",
        hundredths / 100,
        hundredths % 100
    )?;
    Ok(())
}
