//! Reads and links the class files of a list of cases, and prints what each of them says, or why it is refused.
//!
//! A file of cases has a line `== NAME` before each case, and then the lines of its class file; `=? NAME` asks only
//! whether it links. A line `-- next file`
//! ends one class file and begins another of the same case. A line `@ FROM TO TEXT` stands for a line for each number
//! from FROM to below TO, with the number in place of `#`. A line `~ COUNT TEXT` stands for TEXT so many times, without
//! a line's end.
#![tactic(auto)]

mod draft;
mod shown;

use anyhow::Result;
use class_link::{LinkError, link};
use class_reader::{ReadError, read_classes};
use draft::{Draft, directive};
use schema_kinds::{ClassTrees, Schema};
use shown::{print_schema, text_of};
use sqlite_items::Items;
use std::{env, fs};

/// The longest class file that a case may have.
const MOST: usize = 64_000_000;

/// One case: its class trees so far, and whether one of its files was refused.
#[derive(Drop)]
struct Case {
    trees: ClassTrees,
    refused: bool,
    briefly: bool,
}

fn read_file(rt: &HostRuntime, case: &mut Case, draft: &mut Draft) -> Result<()> {
    let text = draft.take();
    if text.len() >= MOST {
        case.refused = true;
        println!(rt; "the case is too long")?;
        return Ok(());
    }
    match read_classes(rt.alloc(), text.as_bytes()) {
        Ok(more) => case.trees.append(more)?,
        Err(ReadError::BadClass { line, column, why }) => {
            case.refused = true;
            println!(rt; "{line}:{column}: {why:?}")?;
        }
        Err(ReadError::NoMemory) => {
            case.refused = true;
            println!(rt; "no memory")?;
        }
    }
    Ok(())
}

fn print_linked(rt: &HostRuntime, schema: &Schema, briefly: bool) -> Result<()> {
    if briefly {
        println!(rt; "links")?;
        Ok(())
    } else {
        print_schema(rt, schema)
    }
}

fn finish(rt: &HostRuntime, mut case: Case, draft: &mut Draft) -> Result<()> {
    read_file(rt, &mut case, draft)?;
    if case.refused {
        return Ok(());
    }
    match link(rt.alloc(), case.trees) {
        Ok(schema) => print_linked(rt, &schema, case.briefly),
        Err(LinkError::BadLink { class, why }) => {
            let name = text_of(&class.0);
            println!(rt; "class {name}: {why:?}")?;
            Ok(())
        }
        Err(LinkError::NoMemory) => {
            println!(rt; "no memory")?;
            Ok(())
        }
    }
}

fn new_case(rt: &HostRuntime, briefly: bool) -> Case {
    Case {
        trees: Items::new(rt.alloc()),
        refused: false,
        briefly,
    }
}

// Whether the case is to be told briefly, and its name.
fn heading(line: &str) -> Option<(bool, &str)> {
    if let Some(name) = line.strip_prefix("== ") {
        return Some((false, name));
    }
    match line.strip_prefix("=? ") {
        Some(name) => Some((true, name)),
        None => None,
    }
}

fn run_cases(rt: &HostRuntime, cases: &str) -> Result<()> {
    let mut case = new_case(rt, false);
    let mut draft = Draft::new(rt.alloc());
    let mut begun = false;
    for line in cases.lines() {
        if let Some((briefly, name)) = heading(line) {
            if begun {
                finish(rt, case, &mut draft)?;
            }
            begun = true;
            case = new_case(rt, briefly);
            println!(rt; "== {name}")?;
        } else if line == "-- next file" {
            read_file(rt, &mut case, &mut draft)?;
        } else {
            directive(&mut draft, line)?;
        }
    }
    if begun {
        finish(rt, case, &mut draft)?;
    }
    Ok(())
}

fn main(rt: HostRuntime) -> Result<()> {
    for name in env::args(&rt)?.skip(1) {
        let cases = fs::read_to_string(&rt, name.as_str())?;
        run_cases(&rt, cases.as_str())?;
    }
    Ok(())
}
