//! Tries the whole store. It carries out the operations that the file `cases.txt` lists, line by
//! line, and prints each with the reply; then it lets three processes take drawn turns, twenty
//! times, and prints whether the store replied as a plain model of it does.
#![tactic(auto)]

mod asked;
mod cases;
mod failure;
mod names;
mod replay;
mod tell;

use crate::cases::run_cases;
use crate::failure::Failure;
use crate::replay::replay;
use std::fs;
use std::process::ExitCode;

/// The file of the cases, where the program runs.
const CASES: &str = "cases.txt";

fn run_drawn(rt: &HostRuntime) -> Result<(), Failure> {
    for seed in 1..21u64 {
        match replay(rt.alloc(), seed)? {
            None => println!(rt; "drawn turns {seed}: as the plain model")?,
            Some(turn) => println!(rt; "drawn turns {seed}: other at turn {turn}")?,
        }
    }
    Ok(())
}

fn run(rt: &HostRuntime) -> Result<(), Failure> {
    let text = fs::read_to_string(rt, CASES)?;
    run_cases(rt, text.as_str())?;
    run_drawn(rt)
}

fn main(rt: HostRuntime) -> ExitCode {
    match run(&rt) {
        Ok(()) => ExitCode::SUCCESS,
        Err(failure) => failure.status(),
    }
}
