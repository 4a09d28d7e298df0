//! Times of the calls of storage on generated objects. Without words it reads back and loads one small object of each
//! shape; each word is a number of properties (200 at most) and of elements of one array, for which it prints the
//! nanoseconds that one call of `rows`, `record_from` and `changes`, and one load from a store, takes.
#![tactic(auto)]

mod calls;
mod loads;
mod shapes;
mod work;

use crate::calls::{changes_time, read_time, rows_time};
use crate::loads::{is_loaded, load_time, store_of};
use crate::shapes::Shape;
use crate::work::{Work, make_work};
use obj_kinds::NoMemory;
use record_reading::record_from;
use std::process::ExitCode;
use std::{env, io};
use storage_map::rows;

const SHAPES: [(Shape, &str); 2] = [(Shape::Props, "properties"), (Shape::Keys, "keys")];

/// Writes a small object and reads it back, and says whether it is the same.
fn is_read(rt: &HostRuntime, work: &Work) -> Result<bool, NoMemory> {
    let nodes = rows(rt.alloc(), &work.schema, &work.key, &work.old)?;
    match record_from(rt.alloc(), &work.schema, &work.key, &nodes) {
        Ok(record) => Ok(record.is_same(&work.old)),
        Err(_) => Ok(false),
    }
}

/// Whether a small object of the shape is read back, and loaded from a store.
fn is_good(rt: &HostRuntime, shape: Shape) -> Result<bool, NoMemory> {
    let Some(work) = make_work(rt.alloc(), shape, 10)? else {
        return Ok(false);
    };
    let mut store = store_of(rt.alloc(), &work)?;
    Ok(is_read(rt, &work)? && is_loaded(rt.alloc(), &work, &mut store)?)
}

// How often a call on an object of so many parts is made.
fn times_for(parts: u32) -> u32 {
    match 200_000u32.checked_div(parts) {
        Some(times) if times > 0 => times,
        _ => 1,
    }
}

fn print_one(rt: &HostRuntime, name: &str, nanos: Option<u128>, times: u32) -> io::Result<()> {
    match nanos {
        Some(nanos) => {
            let each = nanos.checked_div(u128::from(times)).unwrap_or(nanos);
            println!(rt; "  {name}: {each} nanoseconds")
        }
        None => println!(rt; "  {name}: failed"),
    }
}

fn print_work(rt: &HostRuntime, work: &Work, times: u32) -> io::Result<()> {
    print_one(rt, "rows", rows_time(rt, work, times)?, times)?;
    if let Ok(nodes) = rows(rt.alloc(), &work.schema, &work.key, &work.old) {
        print_one(
            rt,
            "record_from",
            read_time(rt, work, &nodes, times)?,
            times,
        )?;
    }
    print_one(rt, "changes", changes_time(rt, work, times)?, times)?;
    match store_of(rt.alloc(), work) {
        Ok(mut store) => print_one(rt, "load", load_time(rt, work, &mut store, times)?, times),
        Err(_) => print_one(rt, "load", None, times),
    }
}

fn print_times(rt: &HostRuntime, parts: u32) -> io::Result<()> {
    for (shape, name) in SHAPES {
        if parts <= shape.most() {
            println!(rt; "{parts} {name}")?;
            match make_work(rt.alloc(), shape, parts) {
                Ok(Some(work)) => print_work(rt, &work, times_for(parts))?,
                _ => println!(rt; "  not made")?,
            }
        }
    }
    Ok(())
}

fn print_small(rt: &HostRuntime) -> io::Result<()> {
    for (shape, name) in SHAPES {
        match is_good(rt, shape) {
            Ok(true) => println!(rt; "10 {name}: read and loaded")?,
            _ => println!(rt; "10 {name}: not read or not loaded")?,
        }
    }
    Ok(())
}

fn run(rt: &HostRuntime) -> io::Result<()> {
    let mut is_small = true;
    for word in env::args(rt)?.skip(1) {
        is_small = false;
        match word.parse::<u32>() {
            Ok(parts) => print_times(rt, parts)?,
            Err(_) => println!(rt; "no number: {word}")?,
        }
    }
    if is_small {
        print_small(rt)?;
    }
    Ok(())
}

fn main(rt: HostRuntime) -> ExitCode {
    match run(&rt) {
        Ok(()) => ExitCode::SUCCESS,
        Err(_) => ExitCode::FAILURE,
    }
}
