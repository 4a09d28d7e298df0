//! Runs the top call over memory, one row after another, and prints what is seen of each run from outside.
//!
//! Each word names a file of rows. A line `==== TITLE` begins a row; its words, its files and what is to fail follow, and the
//! row runs where the next one begins. Words and files stay for the rows behind, until they are given anew; what is to fail
//! does not.
#![tactic(auto)]

mod line;
mod row;

use crate::line::{Line, line_of};
use crate::row::Row;
use anyhow::Result;
use std::{env, fs};

fn take_line(rt: &HostRuntime, row: &mut Row, line: Line) -> Result<()> {
    match line {
        Line::Title(title) => {
            row.run(rt)?;
            row.begin(rt.alloc(), title)
        }
        Line::Words(words) => row.set_words(rt.alloc(), words),
        Line::Fail(what, call) => {
            row.fail(what, call);
            Ok(())
        }
        Line::File(name) => row.open(rt.alloc(), name),
        Line::Times(count, text) => row.push_many(rt.alloc(), count, text),
        Line::Brief(name, text) => row.set_file(rt.alloc(), name, text),
        Line::Cut => {
            row.cut();
            Ok(())
        }
        Line::Plain(line) => row.push(line),
    }
}

fn run_rows(rt: &HostRuntime, text: &str) -> Result<()> {
    let mut row = Row::new(rt.alloc());
    for line in text.split('\n') {
        take_line(rt, &mut row, line_of(line))?;
    }
    row.run(rt)
}

fn main(rt: HostRuntime) -> Result<()> {
    for name in env::args(&rt)?.skip(1) {
        let text = fs::read_to_string(&rt, name.as_str())?;
        run_rows(&rt, text.as_str())?;
    }
    Ok(())
}
