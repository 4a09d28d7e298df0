//! Runs many scripts over stores of their own and prints, of each, what it prints, how it ends, and the globals that it leaves.
//!
//! Each word names a file. In a file of cases each script stands behind a line of `==== ` and its name, up to the line feed before the
//! next such line; a line of `====` alone ends the file. Any other file is one script. A name that begins with a number says how many
//! units the script has.
#![tactic(auto)]

mod cases;
mod failure;
mod show;

use crate::cases::show_scripts;
use crate::failure::Failure;
use obj_edges::{FileError, Files, HostFiles, Put, Sink, StdSink};
use obj_kinds::Text;
use std::env;
use std::process::ExitCode;

fn show_file(rt: &HostRuntime, name: &str, out: &mut Text) -> Result<(), Failure> {
    let mut files = HostFiles::new(rt.clone()?);
    match files.read(rt.alloc(), name) {
        Ok(bytes) => show_scripts(rt.alloc(), name.as_bytes(), bytes.as_slice(), out),
        Err(FileError::NoMemory) => Err(Failure::NoMemory),
        Err(_) => Err(Failure::File),
    }
}

fn run(rt: &HostRuntime) -> Result<(), Failure> {
    let Ok(words) = env::args(rt) else {
        return Err(Failure::NoMemory);
    };
    let mut sink = StdSink::new(rt.clone()?);
    for word in words.skip(1) {
        let mut out = Text::new(rt.alloc());
        show_file(rt, word.as_str(), &mut out)?;
        if sink.put(out.as_slice()) == Put::Failed {
            return Err(Failure::Print);
        }
    }
    Ok(())
}

fn main(rt: HostRuntime) -> ExitCode {
    match run(&rt) {
        Ok(()) => ExitCode::SUCCESS,
        Err(failure) => ExitCode::from(failure.status()),
    }
}
