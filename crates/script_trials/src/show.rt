//! What is seen of a script.

use crate::failure::Failure;
use global_dump::dump;
use itoa::Buffer;
use lone_process::{PID, run_script};
use obj_kinds::{NoMemory, Text, number_of};
use os_kinds::{Script, ScriptEnd};
use os_parse::{ScriptError, read_script};
use sqlite_items::Items;
use std::alloc::Global;
use store_core::Store;

/// How many bytes a script of the cases may have.
const MAX_SCRIPT: usize = 64_000_000;

/// The units of a script whose name doesn't say how many it has.
const UNITS: u32 = 10_000_000;

/// The most that the history of a store may take.
const VOLUME: u64 = 268_435_456;

fn put_number(out: &mut Text, number: u32) -> Result<(), NoMemory> {
    let mut buffer = Buffer::new();
    out.push_slice(buffer.format(number).as_bytes())
}

fn put_end(out: &mut Text, end: &ScriptEnd) -> Result<(), NoMemory> {
    match end {
        ScriptEnd::Done(_) => out.push_slice(b"-> done\n"),
        ScriptEnd::Halt => out.push_slice(b"-> halt\n"),
        ScriptEnd::Fuel => out.push_slice(b"-> fuel\n"),
        ScriptEnd::Error { name, line } => {
            out.push_slice(b"-> ")?;
            out.push_slice(name.text())?;
            out.push_slice(b" at ")?;
            put_number(out, *line)?;
            out.push(b'\n')
        }
    }
}

/// The units that a name says.
fn units_of(name: &[u8]) -> u32 {
    match number_of(name) {
        Ok(units) if 0 < units && units < 1_000_000_000 => units as u32,
        _ => UNITS,
    }
}

/// Runs a script over a store of its own, and puts what it prints, how it ends, and the globals that it leaves.
fn show_run(alloc: Global, script: &Script, units: u32, out: &mut Text) -> Result<(), Failure> {
    let mut store = Store::new(alloc, 1, Items::new(alloc), VOLUME)?;
    let end = run_script(alloc, script, &mut store, units, out)?;
    out.push(b'\n')?;
    put_end(out, &end)?;
    if store.is_live(PID) {
        store.apply_end(PID);
    }
    let nodes = store.tree().nodes(alloc)?;
    out.push_slice(dump(alloc, nodes.as_slice())?.as_slice())?;
    Ok(())
}

/// The script of a text, or nothing where it is refused, which is put.
fn read_or_refuse(alloc: Global, text: &[u8], out: &mut Text) -> Result<Option<Script>, Failure> {
    if MAX_SCRIPT < text.len() {
        return Err(Failure::File);
    }
    match read_script(alloc, text, 1, 1) {
        Ok(script) => Ok(Some(script)),
        Err(ScriptError::NoMemory) => Err(Failure::NoMemory),
        Err(ScriptError::BadScript { line, column, .. }) => {
            out.push_slice(b"-> refused at ")?;
            put_number(out, line)?;
            out.push(b':')?;
            put_number(out, column)?;
            out.push(b'\n')?;
            Ok(None)
        }
    }
}

/// Prints what is seen of a script behind its name.
pub fn show_case(alloc: Global, name: &[u8], text: &[u8], out: &mut Text) -> Result<(), Failure> {
    out.push_slice(b"==== ")?;
    out.push_slice(name)?;
    out.push(b'\n')?;
    match read_or_refuse(alloc, text, out)? {
        Some(script) => show_run(alloc, &script, units_of(name), out),
        None => Ok(()),
    }
}
