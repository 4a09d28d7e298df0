//! Lets threads take turns on one store, and prints what doesn't depend on their order: whether the
//! history has the operations of each process, each once and in its order, with the replies of a plain
//! model of the store at their places; and where the volume ended the processes.
#![tactic(auto)]

mod check;
mod failure;
mod plan;
mod run;
mod trials;
mod volume;
mod work;

use crate::failure::Failure;
use crate::trials::{run_drawn, run_full};
use std::alloc::Global;
use std::process::ExitCode;
use std::sync::Wait;
use std::thread::Threads;

fn run_trials<R: Threads + Wait + Sync + Print>(rt: &R, alloc: Global) -> Result<(), Failure> {
    run_drawn(rt, alloc, 1, 60)?;
    run_drawn(rt, alloc, 2, 60)?;
    run_drawn(rt, alloc, 16, 40)?;
    run_full(rt, alloc, 2, 0)?;
    run_full(rt, alloc, 2, 80)?;
    run_full(rt, alloc, 2, 566)?;
    run_full(rt, alloc, 2, 567)?;
    run_full(rt, alloc, 2, 647)?;
    run_full(rt, alloc, 16, 8099)?;
    run_full(rt, alloc, 16, 8100)
}

fn main(rt: HostRuntime) -> ExitCode {
    match run_trials(&rt, rt.alloc()) {
        Ok(()) => ExitCode::SUCCESS,
        Err(failure) => failure.status(),
    }
}
