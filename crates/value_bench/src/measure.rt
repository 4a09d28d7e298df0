use crate::failure::Failure;
use crate::work::{WORKS, Work, operands_of, work_once};
use std::time::CpuClock;

/// How often each kind of work is done for one measurement.
const TIMES: u32 = 200;

/// The processor time of one kind of work at one length of the text, in nanoseconds.
#[derive(Clone, Copy)]
struct Time {
    size: u32,
    nanos: u64,
}

/// Does each kind of work once.
pub fn run_once(rt: &HostRuntime, size: u32) -> Result<(), Failure> {
    for work in WORKS {
        let operands = operands_of(rt.alloc(), work, size)?;
        work_once(rt.alloc(), work, &operands)?;
        println!(rt; "{} at {}: done", work.name(), size)?;
    }
    Ok(())
}

/// Measures each kind of work at all sizes.
pub fn measure_all(rt: &HostRuntime, sizes: &[u32]) -> Result<(), Failure> {
    for work in WORKS {
        measure(rt, work, sizes)?;
    }
    Ok(())
}

/// The first size is done once more before, so that no measurement pays for what the one before it
/// left to the allocator.
fn measure(rt: &HostRuntime, work: Work, sizes: &[u32]) -> Result<(), Failure> {
    let mut first = None;
    if let Some(size) = sizes.first() {
        timed(rt, work, *size)?;
    }
    for size in sizes {
        let time = timed(rt, work, *size)?;
        print_time(rt, work, time, first)?;
        if first.is_none() {
            first = Some(time);
        }
    }
    Ok(())
}

fn timed(rt: &HostRuntime, work: Work, size: u32) -> Result<Time, Failure> {
    let operands = operands_of(rt.alloc(), work, size)?;
    let before = rt.thread_cpu_time()?;
    for _ in 0..TIMES {
        work_once(rt.alloc(), work, &operands)?;
    }
    let after = rt.thread_cpu_time()?;
    match u64::try_from(after.saturating_sub(before).as_nanos()) {
        Ok(nanos) => Ok(Time { size, nanos }),
        Err(_) => Err(Failure::Outside),
    }
}

/// How many bytes a second has.
fn per_second(time: Time) -> u64 {
    let size = u64::from(time.size) * 1_000_000_000;
    size.checked_div(time.nanos).unwrap_or(0)
}

/// How much longer a byte takes than one of the other measurement, in hundredths.
fn ratio(time: Time, other: Time) -> u64 {
    let own = per_second(time);
    per_second(other)
        .saturating_mul(100)
        .checked_div(own)
        .unwrap_or(0)
}

fn print_time(
    rt: &HostRuntime,
    work: Work,
    time: Time,
    first: Option<Time>,
) -> Result<(), Failure> {
    let hundredths = match first {
        Some(other) => ratio(time, other),
        None => 100,
    };
    let name = work.name();
    let size = time.size;
    let micros = time.nanos / 1_000;
    println!(rt;
        "{name} at {size}: {micros} us, a byte {}.{:02}",
        hundredths / 100,
        hundredths % 100
    )?;
    Ok(())
}
