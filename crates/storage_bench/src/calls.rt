use crate::work::Work;
use obj_kinds::Pairs;
use record_reading::record_from;
use std::io;
use std::time::Instant;
use storage_map::{changes, rows};

/// The nanoseconds of so many calls of `rows`; none where one failed.
pub fn rows_time(rt: &HostRuntime, work: &Work, times: u32) -> io::Result<Option<u128>> {
    let start = Instant::now(rt)?;
    for _ in 0..times {
        if rows(rt.alloc(), &work.schema, &work.key, &work.old).is_err() {
            return Ok(None);
        }
    }
    Ok(Some(start.elapsed(rt)?.as_nanos()))
}

/// The nanoseconds of so many calls of `record_from`; none where one failed.
pub fn read_time(
    rt: &HostRuntime,
    work: &Work,
    nodes: &Pairs,
    times: u32,
) -> io::Result<Option<u128>> {
    let start = Instant::now(rt)?;
    for _ in 0..times {
        if record_from(rt.alloc(), &work.schema, &work.key, nodes).is_err() {
            return Ok(None);
        }
    }
    Ok(Some(start.elapsed(rt)?.as_nanos()))
}

/// The nanoseconds of so many calls of `changes`; none where one failed.
pub fn changes_time(rt: &HostRuntime, work: &Work, times: u32) -> io::Result<Option<u128>> {
    let (old, new) = (Some(&work.old), Some(&work.new));
    let start = Instant::now(rt)?;
    for _ in 0..times {
        if changes(rt.alloc(), &work.schema, &work.key, old, new).is_err() {
            return Ok(None);
        }
    }
    Ok(Some(start.elapsed(rt)?.as_nanos()))
}
