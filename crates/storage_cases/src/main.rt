//! The nodes of records of worked classes: rows, entries, what changes them, the class that a row names, and what is
//! read of rows that were spoilt. What it writes was worked out by hand.
#![tactic(auto)]

mod cases;
mod classes;
mod failure;
mod fields;
mod show;
mod show_read;
mod spoilt;

use crate::classes::schema;
use crate::failure::Failure;
use crate::show::{show_changes, show_classes, show_records};
use crate::show_read::show_reads;
use std::process::ExitCode;

fn run(rt: &HostRuntime) -> Result<(), Failure> {
    let schema = schema(rt.alloc())?;
    show_records(rt, &schema)?;
    show_changes(rt, &schema)?;
    show_classes(rt, &schema)?;
    show_reads(rt, &schema)
}

fn main(rt: HostRuntime) -> ExitCode {
    match run(&rt) {
        Ok(()) => ExitCode::SUCCESS,
        Err(failure) => failure.status(),
    }
}
