//! Loads and raises, each operation with its reply, and what they answer.
//!
//! A file of cases has sections. `-- classes` begins a class file, `-- globals` a dump of what stands in the store, and
//! `-- calls` a list of calls, one in each line, which are played one after another over these classes and globals:
//! `load CLASS ID LEVEL TRIES REFUSALS`, `touch` with the same words, and `raise CLASS ID FROM TO TRIES REFUSALS`. The
//! first REFUSALS tries of a lock are refused, since process 2 holds the node.
#![tactic(auto)]

mod call;
mod play;
mod schema;
mod show;
mod store;

use crate::call::{Call, call_of};
use crate::play::{Replies, play_load, play_raise};
use crate::schema::schema_of;
use crate::store::Store;
use anyhow::Result;
use schema_kinds::Schema;
use std::{env, fs, mem};

/// What the cases say so far.
#[derive(Drop)]
struct Cases {
    /// The lines of the section, up to its end.
    lines: String,
    /// Whether they are a dump of globals.
    are_globals: bool,
    schema: Option<Schema>,
    store: Store,
}

// The section that ends was one of classes or of globals.
fn end_section(rt: &HostRuntime, cases: &mut Cases) -> Result<()> {
    let lines = mem::replace(&mut cases.lines, String::new(rt.alloc()));
    if lines.is_empty() {
        return Ok(());
    }
    if cases.are_globals {
        cases.store = Store::read(rt.alloc(), lines.as_bytes());
    } else {
        cases.schema = schema_of(rt.alloc(), lines.as_bytes());
    }
    Ok(())
}

fn play_call(rt: &HostRuntime, schema: &Schema, store: &Store, call: Call) -> Result<()> {
    match call {
        Call::Load(load, refusals) => {
            if load.tries == 0 {
                println!(rt; "  no tries")?;
                return Ok(());
            }
            play_load(rt, schema, &mut Replies { store, refusals }, load)
        }
        Call::Raise(raise, refusals) => {
            if raise.tries == 0 {
                println!(rt; "  no tries")?;
                return Ok(());
            }
            play_raise(rt, &mut Replies { store, refusals }, raise)
        }
    }
}

fn play_line(rt: &HostRuntime, cases: &Cases, line: &str) -> Result<()> {
    println!(rt; "{line}")?;
    let Some(schema) = &cases.schema else {
        println!(rt; "  no classes")?;
        return Ok(());
    };
    match call_of(rt.alloc(), schema, line)? {
        Some(call) => play_call(rt, schema, &cases.store, call),
        None => {
            println!(rt; "  no call")?;
            Ok(())
        }
    }
}

fn run_cases(rt: &HostRuntime, text: &str) -> Result<()> {
    let mut cases = Cases {
        lines: String::new(rt.alloc()),
        are_globals: false,
        schema: None,
        store: Store::new(rt.alloc()),
    };
    let mut are_calls = false;
    for line in text.lines() {
        match line.strip_prefix("-- ") {
            Some(section) => {
                end_section(rt, &mut cases)?;
                are_calls = section == "calls";
                cases.are_globals = section == "globals";
            }
            None => {
                if are_calls {
                    play_line(rt, &cases, line)?;
                } else {
                    cases.lines.push_str(line)?;
                    cases.lines.push('\n')?;
                }
            }
        }
    }
    Ok(())
}

fn main(rt: HostRuntime) -> Result<()> {
    for name in env::args(&rt)?.skip(1) {
        let text = fs::read_to_string(&rt, name.as_str())?;
        run_cases(&rt, text.as_str())?;
    }
    Ok(())
}
