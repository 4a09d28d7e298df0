//! Tries tables of objects. Without words it carries out the calls that the file `cases.txt` lists, line by line, prints
//! each with the live objects, their counts and what was released; then it makes and releases a long chain, and tells which
//! counts have no room for a further hold. With sizes
//! as words it prints, for each, the processor time of making, linking and releasing so many objects in a row.
#![tactic(auto)]

mod cases;
mod chain;
mod collections;
mod contents;
mod counts;
mod failure;
mod filling;
mod player;

use crate::cases::run_cases;
use crate::chain::{measure_all, run_chain};
use crate::counts::run_counts;
use crate::failure::Failure;
use std::process::ExitCode;
use std::{env, fs};

/// The file of the cases, where the program runs.
const CASES: &str = "cases.txt";

/// The length of the chain of the run without words.
const LONG: u32 = 100_000;

/// The sizes that the words behind the program's name give.
fn sizes(rt: &HostRuntime) -> Result<Vec<u32>, Failure> {
    let mut sizes = Vec::new(rt.alloc());
    for word in env::args(rt)?.skip(1) {
        match word.parse::<u32>() {
            Ok(size) => sizes.push(size)?,
            Err(_) => return Err(Failure::Line),
        }
    }
    Ok(sizes)
}

fn run(rt: &HostRuntime) -> Result<(), Failure> {
    let sizes = sizes(rt)?;
    if !sizes.is_empty() {
        return measure_all(rt, sizes.as_slice());
    }
    let text = fs::read_to_string(rt, CASES)?;
    run_cases(rt, text.as_str())?;
    run_chain(rt, LONG)?;
    run_counts(rt)
}

fn main(rt: HostRuntime) -> ExitCode {
    match run(&rt) {
        Ok(()) => ExitCode::SUCCESS,
        Err(failure) => failure.status(),
    }
}
