//! Real files, and standard output.

use anyhow::Result;
use obj_edges::{Device, FileDevice, FileError, Files, HostFiles, Put, Sink, StdSink};
use obj_kinds::NoMemory;
use std::alloc::Global;
use std::fs;

/// How many bytes the long file has: more than the system reads or writes at once.
const LONG: usize = 13_000;

/// How many of them are put as one piece; the others follow one by one.
const PIECE: usize = 10_000;

fn show_file(rt: &HostRuntime, name: &str) -> Result<()> {
    let mut files = HostFiles::new(rt.clone()?);
    match files.read(rt.alloc(), name) {
        Ok(bytes) => {
            let text = str::from_utf8(bytes.as_slice()).unwrap_or("no text");
            println!(rt; "{name} has {text:?}")?;
        }
        Err(FileError::Failed) => println!(rt; "{name} is not read")?,
        Err(_) => println!(rt; "{name}: another refusal")?,
    }
    Ok(())
}

fn show_put(rt: &HostRuntime, put: Put) -> Result<()> {
    let done = put == Put::Done;
    println!(rt; "put done: {done}")?;
    Ok(())
}

/// A device's file is there from the first byte that is put.
pub fn try_device(rt: &HostRuntime) -> Result<()> {
    let _missing = fs::remove_file(rt, "3.out");
    let mut device = FileDevice::new(rt.alloc(), rt.clone()?, 3)?;
    show_put(rt, device.put(b""))?;
    show_file(rt, "3.out")?;
    show_put(rt, device.put(b"1\n"))?;
    show_put(rt, device.put(b"and 2\n"))?;
    show_file(rt, "3.out")?;
    let tells = device.told().is_some();
    println!(rt; "it tells what was put: {tells}")?;
    Ok(())
}

/// The byte at a place of the long file.
fn byte_at(place: usize) -> u8 {
    (place % 251) as u8
}

fn piece(alloc: Global) -> Result<Vec<u8>, NoMemory> {
    let mut piece = Vec::new(alloc);
    for place in 0..PIECE {
        piece.push(byte_at(place))?;
    }
    Ok(piece)
}

/// How many puts of one byte each are done.
fn put_each<D: Device>(device: &mut D) -> u64 {
    let mut done: u64 = 0;
    for place in PIECE..LONG {
        if device.put(&[byte_at(place)]) == Put::Done {
            done = done.saturating_add(1);
        }
    }
    done
}

/// How many of the bytes are those of the long file.
fn alike(bytes: &[u8]) -> u64 {
    let mut alike: u64 = 0;
    for (place, byte) in bytes.iter().enumerate() {
        if *byte == byte_at(place) {
            alike = alike.saturating_add(1);
        }
    }
    alike
}

/// A long file is written in many pieces, and read whole.
pub fn try_long_file(rt: &HostRuntime) -> Result<()> {
    let _missing = fs::remove_file(rt, "4.out");
    let mut device = FileDevice::new(rt.alloc(), rt.clone()?, 4)?;
    let piece = piece(rt.alloc())?;
    show_put(rt, device.put(piece.as_slice()))?;
    let done = put_each(&mut device);
    println!(rt; "puts of one byte: {done}")?;
    let mut files = HostFiles::new(rt.clone()?);
    match files.read(rt.alloc(), "4.out") {
        Ok(bytes) => {
            let len = bytes.len();
            let alike = alike(bytes.as_slice());
            println!(rt; "4.out has {len} bytes, {alike} of them right")?;
        }
        Err(_) => println!(rt; "4.out is not read")?,
    }
    Ok(())
}

/// Standard output takes a piece, and a piece of no bytes.
pub fn try_standard_output(rt: &HostRuntime) -> Result<()> {
    let mut sink = StdSink::new(rt.clone()?);
    show_put(rt, sink.put(b"a piece\n"))?;
    show_put(rt, sink.put(b""))
}
