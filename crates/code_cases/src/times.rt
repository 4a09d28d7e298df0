//! Measures how long it takes to make code.

use crate::failure::Failure;
use crate::long::{KINDS, Long};
use crate::show::read;
use os_compile::code_of;
use std::time::CpuClock;

/// Prints, for each kind of long script, the processor time in which its code is made at this size, and at twice and four times the
/// size, and how much longer a command takes there than at the first size.
pub fn show_times(rt: &HostRuntime, size: u16) -> Result<(), Failure> {
    for long in KINDS {
        show_kind(rt, long, size)?;
    }
    Ok(())
}

fn show_kind(rt: &HostRuntime, long: Long, size: u16) -> Result<(), Failure> {
    let once = u32::from(size);
    let first = nanos_again(rt, long, once)?;
    let second = nanos_again(rt, long, 2 * once)?;
    let fourth = nanos_again(rt, long, 4 * once)?;
    let name = long.name();
    let twice = hundredths(second / 2, first);
    let four = hundredths(fourth / 4, first);
    println!(rt; "{name}, {size}: {} us, a command 1.00", first / 1_000)?;
    println!(rt;
        "{name}, twice: {} us, a command {}.{:02}",
        second / 1_000,
        twice / 100,
        twice % 100
    )?;
    println!(rt;
        "{name}, four times: {} us, a command {}.{:02}",
        fourth / 1_000,
        four / 100,
        four % 100
    )?;
    Ok(())
}

/// One time as a part of another, in hundredths.
fn hundredths(time: u64, other: u64) -> u64 {
    time.saturating_mul(100).checked_div(other).unwrap_or(0)
}

/// The processor time of the second of two times, when the system has given the memory already, in nanoseconds.
fn nanos_again(rt: &HostRuntime, long: Long, size: u32) -> Result<u64, Failure> {
    nanos(rt, long, size)?;
    nanos(rt, long, size)
}

/// The processor time in which the code of a long script is made, in nanoseconds.
fn nanos(rt: &HostRuntime, long: Long, size: u32) -> Result<u64, Failure> {
    let text = long.script(rt.alloc(), size)?;
    let Some(script) = read(rt.alloc(), text.as_slice())? else {
        return Err(Failure::File);
    };
    let before = rt.thread_cpu_time()?;
    let code = code_of(&script, rt.alloc())?;
    let after = rt.thread_cpu_time()?;
    drop(code);
    u64::try_from(after.saturating_sub(before).as_nanos()).map_err(|_| Failure::Print)
}
