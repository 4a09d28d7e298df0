//! What a row is answered.

use crate::spelling::spelt;
use dump_reading::{DumpError, DumpWhy, LineError, read_dump, read_line, read_node};
use global_dump::line_text;
use itoa::Buffer;
use obj_kinds::{NoMemory, Node, Text, Value, node_text};
use std::alloc::Global;

/// The longest text that is printed whole.
const MOST: usize = 120;

/// The most bytes of a dump that is read.
const LONGEST: usize = 16_777_216;

fn why_name(why: DumpWhy) -> &'static [u8] {
    match why {
        DumpWhy::BadNode => b"BadNode",
        DumpWhy::BadValue => b"BadValue",
        DumpWhy::TooLong => b"TooLong",
        DumpWhy::Repeated => b"Repeated",
    }
}

// The text, or how many bytes it has.
fn push_short(out: &mut Text, text: &Text) -> Result<(), NoMemory> {
    if text.len() <= MOST {
        return out.push_slice(text.as_slice());
    }
    let mut buffer = Buffer::new();
    out.push_slice(buffer.format(text.len()).as_bytes())?;
    out.push_slice(b" bytes")
}

fn push_line(alloc: Global, out: &mut Text, node: &Node, value: &Value) -> Result<(), NoMemory> {
    let line = line_text(alloc, node, value)?;
    push_short(out, &line)
}

fn push_nodes(alloc: Global, out: &mut Text, nodes: &[(Node, Value)]) -> Result<(), NoMemory> {
    out.push_slice(b"read")?;
    for pair in nodes {
        out.push_slice(b" | ")?;
        push_line(alloc, out, &pair.0, &pair.1)?;
    }
    Ok(())
}

fn push_refusal(out: &mut Text, line: u32, why: DumpWhy) -> Result<(), NoMemory> {
    let mut buffer = Buffer::new();
    out.push_slice(buffer.format(line).as_bytes())?;
    out.push(b' ')?;
    out.push_slice(why_name(why))
}

fn answer_dump(alloc: Global, out: &mut Text, text: &[u8]) -> Result<(), NoMemory> {
    if text.len() > LONGEST {
        return out.push_slice(b"too long");
    }
    match read_dump(alloc, text) {
        Ok(pairs) => push_nodes(alloc, out, pairs.as_slice()),
        Err(DumpError::BadDump { line, why }) => push_refusal(out, line, why),
        Err(DumpError::NoMemory) => Err(NoMemory),
    }
}

fn answer_line(alloc: Global, out: &mut Text, text: &[u8]) -> Result<(), NoMemory> {
    match read_line(alloc, text) {
        Ok((node, value)) => push_line(alloc, out, &node, &value),
        Err(LineError::Bad(why)) => out.push_slice(why_name(why)),
        Err(LineError::NoMemory) => Err(NoMemory),
    }
}

fn answer_node(alloc: Global, out: &mut Text, text: &[u8]) -> Result<(), NoMemory> {
    match read_node(alloc, text) {
        Ok(node) => push_short(out, &node_text(alloc, &node)?),
        Err(LineError::Bad(why)) => out.push_slice(why_name(why)),
        Err(LineError::NoMemory) => Err(NoMemory),
    }
}

// The word before the first blank, and what stands behind it.
fn split_word(row: &[u8]) -> (&[u8], &[u8]) {
    for (at, byte) in row.iter().enumerate() {
        if *byte == b' ' {
            return (&row[..at], &row[at + 1..]);
        }
    }
    (row, b"")
}

/// What a row is answered: its word says what is read.
pub fn answer_row(alloc: Global, row: &[u8]) -> Result<Text, NoMemory> {
    let (word, rest) = split_word(row);
    let text = spelt(alloc, rest)?;
    let mut out = Text::new(alloc);
    if word == b"dump".as_slice() {
        answer_dump(alloc, &mut out, text.as_slice())?;
    } else if word == b"line".as_slice() {
        answer_line(alloc, &mut out, text.as_slice())?;
    } else if word == b"node".as_slice() {
        answer_node(alloc, &mut out, text.as_slice())?;
    } else {
        out.push_slice(b"no such row")?;
    }
    Ok(out)
}
