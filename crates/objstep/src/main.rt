//! Runs scripts over classes step by step on one thread, and reports the globals.
#![tactic(auto)]

use obj_kinds::NoMemory;
use std::process::ExitCode;
use step_program::{exit_code, run_on, words};

fn run(rt: &HostRuntime) -> Result<u8, NoMemory> {
    let words = words(rt)?;
    run_on(rt, words.as_slice())
}

fn main(rt: HostRuntime) -> ExitCode {
    exit_code(run(&rt))
}
