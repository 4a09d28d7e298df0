//! Files, sinks and devices in memory, with calls that are to fail.

use anyhow::Result;
use obj_edges::{Device, FileError, Files, MemDevice, MemFiles, MemSink, Put, Sink};
use obj_kinds::NoMemory;
use sqlite_items::Items;
use std::alloc::Global;

/// The second call fails.
fn second(alloc: Global) -> Result<Items<u64>, NoMemory> {
    let mut calls = Items::new(alloc);
    calls.push(2)?;
    Ok(calls)
}

fn show_read(rt: &HostRuntime, files: &mut MemFiles, name: &str) -> Result<()> {
    match files.read(rt.alloc(), name) {
        Ok(bytes) => {
            let text = str::from_utf8(bytes.as_slice()).unwrap_or("no text");
            println!(rt; "read {name}: {text}")?;
        }
        Err(FileError::Failed) => println!(rt; "read {name}: failed")?,
        Err(_) => println!(rt; "read {name}: another refusal")?,
    }
    Ok(())
}

/// The second read fails, and that of a name without a file; of two files of one name the earlier one is read.
pub fn try_files(rt: &HostRuntime) -> Result<()> {
    let mut files = MemFiles::new(rt.alloc(), second(rt.alloc())?);
    files.add(rt.alloc(), "a", b"first")?;
    files.add(rt.alloc(), "a", b"second")?;
    for name in ["a", "a", "b", "a"] {
        show_read(rt, &mut files, name)?;
    }
    let faults = files.faults();
    let asked = files.asked().len();
    println!(rt; "asked {asked}, failed {faults}")?;
    Ok(())
}

fn put_text(put: Put) -> &'static str {
    match put {
        Put::Done => "done",
        Put::Failed => "failed",
    }
}

/// A put that fails, or passes the room, takes what fits.
pub fn try_rooms(rt: &HostRuntime) -> Result<()> {
    let mut sink = MemSink::new(rt.alloc(), 5, second(rt.alloc())?)?;
    for piece in ["abc", "d", "defg"] {
        let put = put_text(sink.put(piece.as_bytes()));
        println!(rt; "sink takes {piece}: {put}")?;
    }
    let told = str::from_utf8(sink.bytes()).unwrap_or("no text");
    let faults = sink.faults();
    println!(rt; "sink has {told}, failed {faults}")?;
    let mut device = MemDevice::new(rt.alloc(), 5, Items::new(rt.alloc()))?;
    for piece in ["abcde", "f"] {
        let put = put_text(device.put(piece.as_bytes()));
        println!(rt; "device takes {piece}: {put}")?;
    }
    let told = str::from_utf8(device.told().unwrap_or(&[])).unwrap_or("no text");
    let faults = device.faults();
    println!(rt; "device has {told}, failed {faults}")?;
    Ok(())
}
