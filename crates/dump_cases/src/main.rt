//! Dumps, lines and nodes that are read or refused. Each line of the input is a row: a word that says what is read, and
//! how it is spelt. A row is printed with its answer.
#![tactic(auto)]

mod answers;
mod spelling;

use crate::answers::answer_row;
use std::process::ExitCode;

fn print_row(rt: &HostRuntime, row: &str) -> bool {
    let Ok(text) = answer_row(rt.alloc(), row.as_bytes()) else {
        return false;
    };
    let Ok(text) = str::from_utf8(text.as_slice()) else {
        return false;
    };
    println!(rt; "{row} -> {text}").is_ok()
}

fn main(rt: HostRuntime) -> ExitCode {
    for row in rt.lines(rt.alloc()) {
        let Ok(row) = row else {
            return ExitCode::FAILURE;
        };
        if !print_row(&rt, row.as_str()) {
            return ExitCode::FAILURE;
        }
    }
    ExitCode::SUCCESS
}
