//! Dumps that are audited. Each line of the input is a row: the lines of a dump, with a semicolon for each line feed. A row
//! is printed with its answer: the objects of the world, or the node at fault.
#![tactic(auto)]

mod answers;
mod classes;

use crate::answers::answer_row;
use crate::classes::schema;
use schema_kinds::Schema;
use std::process::ExitCode;

fn print_row(rt: &HostRuntime, schema: &Schema, row: &str) -> bool {
    let Ok(text) = answer_row(rt.alloc(), schema, row.as_bytes()) else {
        return false;
    };
    let Ok(text) = str::from_utf8(text.as_slice()) else {
        return false;
    };
    println!(rt; "{row} -> {text}").is_ok()
}

fn main(rt: HostRuntime) -> ExitCode {
    let Some(schema) = schema(rt.alloc()) else {
        return ExitCode::FAILURE;
    };
    for row in rt.lines(rt.alloc()) {
        let Ok(row) = row else {
            return ExitCode::FAILURE;
        };
        if !print_row(&rt, &schema, row.as_str()) {
            return ExitCode::FAILURE;
        }
    }
    ExitCode::SUCCESS
}
