use crate::failure::Failure;
use obj_kinds::{NoMemory, Text, Value};
use os_value::{ValueError, fn_find, fn_length, fn_piece};
use std::alloc::Global;

/// A kind of work.
#[derive(Clone, Copy, PartialEq, Eq)]
pub enum Work {
    /// A byte is sought that the text doesn't have.
    FindByte,
    /// Half the text, and then another byte, is sought in a text of one letter.
    FindHalf,
    /// The pieces between commas are counted.
    Count,
    /// All pieces between commas are asked for in one call.
    All,
    /// The last piece is asked for.
    Last,
}

/// All kinds of work, in the order in which they are measured.
pub const WORKS: [Work; 5] = [
    Work::FindByte,
    Work::FindHalf,
    Work::Count,
    Work::All,
    Work::Last,
];

impl Work {
    /// What is measured.
    pub fn name(self) -> &'static str {
        match self {
            Work::FindByte => "find a byte",
            Work::FindHalf => "find half of the text",
            Work::Count => "count pieces",
            Work::All => "all pieces",
            Work::Last => "the last piece",
        }
    }
}

/// What a call is made with: a text, what is sought or stands between pieces, and places.
#[derive(Drop)]
pub struct Operands {
    text: Value,
    other: Value,
    first: Value,
    last: Value,
}

fn of_letters(alloc: Global, count: u32, end: u8) -> Result<Text, NoMemory> {
    let mut text = Text::new(alloc);
    for _ in 0..count {
        text.push(b'a')?;
    }
    text.push(end)?;
    Ok(text)
}

/// Pieces of one letter, with commas between them, in so many bytes.
fn of_pieces(alloc: Global, count: u32) -> Result<Text, NoMemory> {
    let mut text = Text::new(alloc);
    for at in 0..count {
        text.push(if at % 2 == 0 { b'a' } else { b',' })?;
    }
    Ok(text)
}

fn number(alloc: Global, digits: &[u8]) -> Result<Value, NoMemory> {
    Ok(Value::Str(Text::from_slice(alloc, digits)?))
}

fn sought(alloc: Global, work: Work, size: u32) -> Result<Text, NoMemory> {
    match work {
        Work::FindByte => Text::from_slice(alloc, b"b"),
        Work::FindHalf => of_letters(alloc, size / 2, b'b'),
        Work::Count | Work::All | Work::Last => Text::from_slice(alloc, b","),
    }
}

fn searched(alloc: Global, work: Work, size: u32) -> Result<Text, NoMemory> {
    match work {
        Work::FindByte | Work::FindHalf => of_letters(alloc, size.saturating_sub(1), b'a'),
        Work::Count | Work::All | Work::Last => of_pieces(alloc, size),
    }
}

/// What a kind of work is done with, over a text of so many bytes.
pub fn operands_of(alloc: Global, work: Work, size: u32) -> Result<Operands, NoMemory> {
    let text = searched(alloc, work, size)?;
    let other = sought(alloc, work, size)?;
    let first = if work == Work::Last {
        number(alloc, b"16000")?
    } else {
        number(alloc, b"1")?
    };
    let last = number(alloc, b"32768")?;
    Ok(Operands {
        text: Value::Str(text),
        other: Value::Str(other),
        first,
        last,
    })
}

fn is_answered(answer: Result<Value, ValueError>) -> Result<(), Failure> {
    match answer {
        Ok(_) => Ok(()),
        Err(ValueError::NoMemory) => Err(Failure::Room),
        Err(ValueError::Script(_)) => Err(Failure::Reply),
    }
}

/// Does a kind of work once.
pub fn work_once(alloc: Global, work: Work, operands: &Operands) -> Result<(), Failure> {
    let text = &operands.text;
    let other = &operands.other;
    match work {
        Work::FindByte | Work::FindHalf => is_answered(fn_find(alloc, text, other, None)),
        Work::Count => is_answered(fn_length(alloc, text, Some(other))),
        Work::All | Work::Last => is_answered(fn_piece(
            alloc,
            text,
            other,
            Some(&operands.first),
            Some(&operands.last),
        )),
    }
}
