//! Measures scripts. Without words it runs each kind of work once at a small size and prints how it ended. With sizes as words it
//! prints, for each kind of work, how many turns a second of processor time has at each size, and how the times of a turn compare.
#![tactic(auto)]

mod failure;
mod measure;
mod work;

use crate::failure::Failure;
use crate::measure::{measure_all, run_once};
use std::env;
use std::process::ExitCode;

/// The size of the run without words.
const SMALL: u32 = 100;

/// The sizes that the words behind the program's name give.
fn sizes(rt: &HostRuntime) -> Result<Vec<u32>, Failure> {
    let mut sizes = Vec::new(rt.alloc());
    for word in env::args(rt)?.skip(1) {
        match word.parse::<u32>() {
            Ok(size) => sizes.push(size)?,
            Err(_) => return Err(Failure::Words),
        }
    }
    Ok(sizes)
}

fn run(rt: &HostRuntime) -> Result<(), Failure> {
    let sizes = sizes(rt)?;
    if sizes.is_empty() {
        run_once(rt, SMALL)
    } else {
        measure_all(rt, sizes.as_slice())
    }
}

fn main(rt: HostRuntime) -> ExitCode {
    match run(&rt) {
        Ok(()) => ExitCode::SUCCESS,
        Err(failure) => failure.status(),
    }
}
