//! Reads and audits dumps that it makes, of accounts with a unique index. Without words it audits a few small ones; each
//! word is a number of accounts, for which it prints the bytes of their dump and the microseconds that reading it and
//! auditing its nodes take.
#![tactic(auto)]

mod drafts;

ghost use Rattle.std.specs.Prelude.{IsTrue};
ghost use Rattle.std.specs.List.{list_all};
ghost use Rattle.world_audit.specs.Laws.{is_within};

use crate::drafts::{CLASSES, draft};
use class_link::link;
use class_reader::read_classes;
use dump_reading::read_dump;
use obj_kinds::Pairs;
use schema_kinds::Schema;
use std::alloc::Global;
use std::process::ExitCode;
use std::time::Instant;
use std::{env, io};
use world_audit::audit;

/// The most bytes of a dump that is read.
const MOST_BYTES: usize = 100_000_000;

/// What one dump took.
#[derive(Clone, Copy)]
struct Timed {
    /// The bytes of the dump.
    bytes: usize,
    /// The objects of its world.
    objects: usize,
    /// The microseconds of reading it.
    reading: u128,
    /// The microseconds of auditing its nodes.
    auditing: u128,
}

fn schema(alloc: Global) -> Option<Schema> {
    let trees = read_classes(alloc, CLASSES).ok()?;
    link(alloc, trees).ok()
}

/// How many objects the world of the nodes has.
fn count(alloc: Global, schema: &Schema, nodes: &Pairs) -> Option<usize>
    requires { IsTrue (list_all is_within nodes.now) }
{
    let world = audit(alloc, schema, nodes).ok()?;
    Some(world.as_slice().len())
}

/// How many objects there are in the dump of so many accounts.
fn audited(alloc: Global, schema: &Schema, accounts: u32) -> Option<usize> {
    let text = draft(alloc, accounts).ok()?;
    if text.len() >= MOST_BYTES {
        return None;
    }
    let nodes = read_dump(alloc, text.as_slice()).ok()?;
    count(alloc, schema, &nodes)
}

/// What reading and auditing the dump of so many accounts takes.
fn time(rt: &HostRuntime, schema: &Schema, accounts: u32) -> io::Result<Option<Timed>> {
    let Ok(text) = draft(rt.alloc(), accounts) else {
        return Ok(None);
    };
    let bytes = text.len();
    if bytes >= MOST_BYTES {
        return Ok(None);
    }
    let start = Instant::now(rt)?;
    let Ok(nodes) = read_dump(rt.alloc(), text.as_slice()) else {
        return Ok(None);
    };
    let reading = start.elapsed(rt)?.as_micros();
    let start = Instant::now(rt)?;
    let Some(objects) = count(rt.alloc(), schema, &nodes) else {
        return Ok(None);
    };
    let auditing = start.elapsed(rt)?.as_micros();
    Ok(Some(Timed {
        bytes,
        objects,
        reading,
        auditing,
    }))
}

fn print_small(rt: &HostRuntime, schema: &Schema) -> io::Result<()> {
    for accounts in [0, 1, 12] {
        match audited(rt.alloc(), schema, accounts) {
            Some(objects) => println!(rt; "{accounts} accounts: {objects} objects")?,
            None => println!(rt; "{accounts} accounts: damaged")?,
        }
    }
    Ok(())
}

fn print_times(rt: &HostRuntime, schema: &Schema, accounts: u32) -> io::Result<()> {
    match time(rt, schema, accounts)? {
        Some(timed) => println!(rt;
            "{accounts} accounts, {} bytes, {} objects: read in {}, audited in {} microseconds",
            timed.bytes, timed.objects, timed.reading, timed.auditing
        ),
        None => println!(rt; "{accounts} accounts: not audited"),
    }
}

fn run(rt: &HostRuntime, schema: &Schema) -> io::Result<()> {
    let mut is_small = true;
    for word in env::args(rt)?.skip(1) {
        is_small = false;
        match word.parse::<u32>() {
            Ok(accounts) => print_times(rt, schema, accounts)?,
            Err(_) => println!(rt; "no number: {word}")?,
        }
    }
    if is_small {
        print_small(rt, schema)?;
    }
    Ok(())
}

fn main(rt: HostRuntime) -> ExitCode {
    let Some(schema) = schema(rt.alloc()) else {
        return ExitCode::FAILURE;
    };
    match run(&rt, &schema) {
        Ok(()) => ExitCode::SUCCESS,
        Err(_) => ExitCode::FAILURE,
    }
}
