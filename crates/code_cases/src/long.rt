//! Long scripts, which the program makes itself.

use crate::failure::Failure;
use crate::parts::put_count;
use crate::show::read;
use obj_kinds::{NoMemory, Text};
use os_compile::code_of;
use std::alloc::Global;

/// A kind of long script.
#[derive(Clone, Copy, Debug, PartialEq, Eq)]
pub enum Long {
    /// Commands, one behind the other.
    Row,
    /// Commands in 64 loops in one another.
    Loops,
    /// Commands in 64 branches in one another.
    Branches,
    /// Branches of one `IF`.
    Choices,
    /// One expression of operators that may leave out their right operands.
    Operators,
}

/// All kinds.
pub const KINDS: [Long; 5] = [
    Long::Row,
    Long::Loops,
    Long::Branches,
    Long::Choices,
    Long::Operators,
];

impl Long {
    pub fn name(self) -> &'static str {
        match self {
            Long::Row => "commands in a row",
            Long::Loops => "commands in 64 loops",
            Long::Branches => "commands in 64 branches",
            Long::Choices => "branches of an IF",
            Long::Operators => "operators in a row",
        }
    }

    /// How many commands, branches or operators the script has in the run without sizes.
    fn usual_size(self) -> u32 {
        match self {
            Long::Row => 131_072,
            Long::Loops | Long::Branches => 10_000,
            Long::Choices => 50_000,
            Long::Operators => 100_000,
        }
    }

    /// A script of so many commands, branches or operators.
    pub fn script(self, alloc: Global, size: u32) -> Result<Text, NoMemory> {
        match self {
            Long::Row => repeated(alloc, (b"", 0), (b"Write 1\n", size), (b"", 0)),
            Long::Loops => repeated(alloc, (b"For { ", 64), (b"Write 1\n", size), (b"}\n", 64)),
            Long::Branches => {
                repeated(alloc, (b"If x { ", 64), (b"Write 1\n", size), (b"}\n", 64))
            }
            Long::Choices => {
                repeated(
                    alloc,
                    (b"If x { }\n", 1),
                    (b"ElseIf x { }\n", size),
                    (b"Else { }\n", 1),
                )
            }
            Long::Operators => repeated(alloc, (b"Write 1", 1), (b"&&1", size), (b"", 0)),
        }
    }
}

/// What is repeated, and how often.
type Item = (&'static [u8], u32);

fn repeated(alloc: Global, front: Item, middle: Item, back: Item) -> Result<Text, NoMemory> {
    let mut text = Text::new(alloc);
    put_times(&mut text, front)?;
    put_times(&mut text, middle)?;
    put_times(&mut text, back)?;
    Ok(text)
}

fn put_times(text: &mut Text, item: Item) -> Result<(), NoMemory> {
    for _ in 0..item.1 {
        text.push_slice(item.0)?;
    }
    Ok(())
}

fn show_one(alloc: Global, long: Long, out: &mut Text) -> Result<(), Failure> {
    let text = long.script(alloc, long.usual_size())?;
    out.push_slice(long.name().as_bytes())?;
    match read(alloc, text.as_slice())? {
        Some(script) => put_count(out, code_of(&script, alloc)?.len())?,
        None => out.push_slice(b" no script".as_slice())?,
    }
    out.push(b'\n')?;
    Ok(())
}

/// Prints how many instructions the code of each long script has.
pub fn show_long(alloc: Global, out: &mut Text) -> Result<(), Failure> {
    for long in KINDS {
        show_one(alloc, long, out)?;
    }
    Ok(())
}
