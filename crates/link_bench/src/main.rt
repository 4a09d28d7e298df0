//! Links generated classes. Without words it links a few small ones of each shape; each word is a number of classes of
//! 200 properties, for which it prints the bytes of their text and the microseconds that linking takes.
#![tactic(auto)]

mod shapes;

use crate::shapes::{Shape, draft};
use class_link::link;
use class_reader::read_classes;
use obj_kinds::NoMemory;
use schema_kinds::ClassTrees;
use std::process::ExitCode;
use std::time::Instant;
use std::{env, io};

const SHAPES: [(Shape, &str); 3] = [
    (Shape::Flat, "flat"),
    (Shape::Heirs, "heirs"),
    (Shape::Sides, "sides"),
];

/// The most bytes of a text that is read.
const MOST_BYTES: usize = 100_000_000;

fn trees(rt: &HostRuntime, text: &[u8]) -> Option<ClassTrees> {
    if text.len() >= MOST_BYTES {
        return None;
    }
    read_classes(rt.alloc(), text).ok()
}

/// Links so many classes of so many members, and says whether that was done.
fn is_linked(rt: &HostRuntime, shape: Shape, classes: u32, members: u32) -> Result<bool, NoMemory> {
    let text = draft(rt.alloc(), shape, classes, members)?;
    match trees(rt, text.as_slice()) {
        Some(trees) => Ok(link(rt.alloc(), trees).is_ok()),
        None => Ok(false),
    }
}

/// The bytes of the text, and the microseconds of linking it.
fn time(rt: &HostRuntime, shape: Shape, classes: u32) -> io::Result<Option<(usize, u128)>> {
    let Ok(text) = draft(rt.alloc(), shape, classes, 200) else {
        return Ok(None);
    };
    let Some(trees) = trees(rt, text.as_slice()) else {
        return Ok(None);
    };
    let start = Instant::now(rt)?;
    let schema = link(rt.alloc(), trees);
    let taken = start.elapsed(rt)?;
    match schema {
        Ok(_) => Ok(Some((text.len(), taken.as_micros()))),
        Err(_) => Ok(None),
    }
}

fn print_small(rt: &HostRuntime) -> io::Result<()> {
    for (shape, name) in SHAPES {
        match is_linked(rt, shape, 12, 4) {
            Ok(true) => println!(rt; "{name}: linked")?,
            _ => println!(rt; "{name}: not linked")?,
        }
    }
    Ok(())
}

fn print_times(rt: &HostRuntime, classes: u32) -> io::Result<()> {
    for (shape, name) in SHAPES {
        match time(rt, shape, classes)? {
            Some((bytes, micros)) => {
                println!(rt; "{name}: {classes} classes, {bytes} bytes, {micros} microseconds")?
            }
            None => println!(rt; "{name}: {classes} classes, not linked")?,
        }
    }
    Ok(())
}

fn run(rt: &HostRuntime) -> io::Result<()> {
    let mut is_small = true;
    for word in env::args(rt)?.skip(1) {
        is_small = false;
        match word.parse::<u32>() {
            Ok(classes) => print_times(rt, classes)?,
            Err(_) => println!(rt; "no number: {word}")?,
        }
    }
    if is_small {
        print_small(rt)?;
    }
    Ok(())
}

fn main(rt: HostRuntime) -> ExitCode {
    match run(&rt) {
        Ok(()) => ExitCode::SUCCESS,
        Err(_) => ExitCode::FAILURE,
    }
}
