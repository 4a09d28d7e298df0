//! Makes the code of many scripts and prints it.
//!
//! Each word names a file of cases. A file that begins with `====` has each script behind a line of `==== ` and its
//! name, up to the line feed before the next such line; a line of `====` alone ends it. In any other file each line is a
//! script. The word `long` stands for the long scripts that the program makes itself, whose instructions are counted, and
//! a number for the times in which the code of such scripts is made, of so many commands and more.
#![tactic(auto)]

mod cases;
mod failure;
mod listing;
mod long;
mod parts;
mod show;
mod times;

use crate::cases::show_cases;
use crate::failure::Failure;
use crate::long::show_long;
use crate::times::show_times;
use obj_edges::{FileError, Files, HostFiles, Put, Sink, StdSink};
use obj_kinds::Text;
use std::env;
use std::process::ExitCode;

/// What a word stands for, but for a number: the long scripts, or the cases of a file.
fn show_word(rt: &HostRuntime, word: &str, out: &mut Text) -> Result<(), Failure> {
    if word == "long" {
        return show_long(rt.alloc(), out);
    }
    if let Ok(size) = word.parse::<u16>() {
        return show_times(rt, size);
    }
    let mut files = HostFiles::new(rt.clone()?);
    match files.read(rt.alloc(), word) {
        Ok(bytes) => show_cases(rt.alloc(), bytes.as_slice(), out),
        Err(FileError::NoMemory) => Err(Failure::NoMemory),
        Err(_) => Err(Failure::File),
    }
}

fn run(rt: &HostRuntime) -> Result<(), Failure> {
    let Ok(words) = env::args(rt) else {
        return Err(Failure::NoMemory);
    };
    let mut sink = StdSink::new(rt.clone()?);
    for word in words.skip(1) {
        let mut out = Text::new(rt.alloc());
        show_word(rt, word.as_str(), &mut out)?;
        if sink.put(out.as_slice()) == Put::Failed {
            return Err(Failure::Print);
        }
    }
    Ok(())
}

fn main(rt: HostRuntime) -> ExitCode {
    match run(&rt) {
        Ok(()) => ExitCode::SUCCESS,
        Err(failure) => ExitCode::from(failure.status()),
    }
}
