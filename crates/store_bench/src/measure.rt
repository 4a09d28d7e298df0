use crate::failure::Failure;
use crate::work::{WORKS, Work, empty_store, work_at_all};
use std::time::CpuClock;
use store_core::Store;

/// The processor time of one kind of work at one size, in nanoseconds.
#[derive(Clone, Copy)]
struct Time {
    size: u32,
    nanos: u64,
}

/// Does each kind of work once, and prints how long the history is after it.
pub fn run_once(rt: &HostRuntime, size: u32) -> Result<(), Failure> {
    let mut store = empty_store(rt.alloc())?;
    for work in WORKS {
        work_at_all(&mut store, rt.alloc(), work, size)?;
        println!(rt;
            "{} at {}: {} entries",
            work.name(),
            size,
            store.history().len()
        )?;
    }
    Ok(())
}

/// Measures each kind of work at all sizes, each size on a store of its own.
pub fn measure_all(rt: &HostRuntime, sizes: &[u32]) -> Result<(), Failure> {
    let mut stores = Vec::new(rt.alloc());
    for _ in sizes {
        stores.push(empty_store(rt.alloc())?)?;
    }
    for work in WORKS {
        measure(rt, work, sizes, &mut stores)?;
    }
    Ok(())
}

fn measure(
    rt: &HostRuntime,
    work: Work,
    sizes: &[u32],
    stores: &mut Vec<Store>,
) -> Result<(), Failure> {
    let mut first = None;
    for (store, size) in stores.iter_mut().zip(sizes) {
        let time = timed(rt, store, work, *size)?;
        print_time(rt, work, time, first)?;
        if first.is_none() {
            first = Some(time);
        }
    }
    Ok(())
}

fn timed(rt: &HostRuntime, store: &mut Store, work: Work, size: u32) -> Result<Time, Failure> {
    let before = rt.thread_cpu_time()?;
    work_at_all(store, rt.alloc(), work, size)?;
    let after = rt.thread_cpu_time()?;
    match u64::try_from(after.saturating_sub(before).as_nanos()) {
        Ok(nanos) => Ok(Time { size, nanos }),
        Err(_) => Err(Failure::Outside),
    }
}

/// How many operations a second has.
fn per_second(time: Time) -> u64 {
    let size = u64::from(time.size) * 1_000_000_000;
    size.checked_div(time.nanos).unwrap_or(0)
}

/// How much longer an operation takes than one of the other measurement, in hundredths.
fn ratio(time: Time, other: Time) -> u64 {
    let own = per_second(time);
    per_second(other)
        .saturating_mul(100)
        .checked_div(own)
        .unwrap_or(0)
}

fn print_time(
    rt: &HostRuntime,
    work: Work,
    time: Time,
    first: Option<Time>,
) -> Result<(), Failure> {
    let hundredths = match first {
        Some(other) => ratio(time, other),
        None => 100,
    };
    let name = work.name();
    let size = time.size;
    let micros = time.nanos / 1_000;
    let rate = per_second(time);
    println!(rt;
        "{name} at {size}: {micros} us, {rate} a second, an operation {}.{:02}",
        hundredths / 100,
        hundredths % 100
    )?;
    Ok(())
}
