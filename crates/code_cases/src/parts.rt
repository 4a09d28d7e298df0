//! Prints the parts of an instruction.

use itoa::Buffer;
use obj_kinds::{NoMemory, Text};

fn put_number(out: &mut Text, number: u64) -> Result<(), NoMemory> {
    let mut buffer = Buffer::new();
    out.push_slice(buffer.format(number).as_bytes())
}

/// Puts the word of an instruction, which begins a line.
pub fn put_word(out: &mut Text, word: &[u8]) -> Result<(), NoMemory> {
    out.push_slice(b"    ".as_slice())?;
    out.push_slice(word)
}

/// Puts a name.
pub fn put_name(out: &mut Text, name: &Text) -> Result<(), NoMemory> {
    out.push(b' ')?;
    out.push_slice(name.as_slice())
}

/// Puts how many values an instruction takes, or behind how many others it stands.
pub fn put_count(out: &mut Text, count: usize) -> Result<(), NoMemory> {
    out.push(b' ')?;
    put_number(out, count as u64)
}

/// Puts how many instructions a jump passes.
pub fn put_ahead(out: &mut Text, count: usize) -> Result<(), NoMemory> {
    out.push_slice(b" +".as_slice())?;
    put_number(out, count as u64)
}

/// Puts how many instructions a jump goes back.
pub fn put_back(out: &mut Text, count: usize) -> Result<(), NoMemory> {
    out.push_slice(b" -".as_slice())?;
    put_number(out, count as u64)
}

/// Puts the line of a command.
pub fn put_line(out: &mut Text, line: u32) -> Result<(), NoMemory> {
    out.push_slice(b" @".as_slice())?;
    put_number(out, u64::from(line))
}

/// Puts a line of the words of an instruction alone.
pub fn put_plain(out: &mut Text, word: &[u8]) -> Result<(), NoMemory> {
    put_word(out, word)?;
    out.push(b'\n')
}

/// Puts an instruction that can fail.
pub fn put_at(out: &mut Text, word: &[u8], line: u32) -> Result<(), NoMemory> {
    put_word(out, word)?;
    put_line(out, line)?;
    out.push(b'\n')
}

/// Puts an instruction on what has this name.
pub fn put_named(out: &mut Text, word: &[u8], name: &Text) -> Result<(), NoMemory> {
    put_word(out, word)?;
    put_name(out, name)?;
    out.push(b'\n')
}

/// Puts one that can fail.
pub fn put_named_at(out: &mut Text, word: &[u8], name: &Text, line: u32) -> Result<(), NoMemory> {
    put_word(out, word)?;
    put_name(out, name)?;
    put_line(out, line)?;
    out.push(b'\n')
}

/// Puts an instruction that takes so many values.
pub fn put_counted_at(
    out: &mut Text,
    word: &[u8],
    name: &Text,
    count: usize,
    line: u32,
) -> Result<(), NoMemory> {
    put_word(out, word)?;
    put_name(out, name)?;
    put_count(out, count)?;
    put_line(out, line)?;
    out.push(b'\n')
}

/// Puts a test of the subscript behind so many others.
pub fn put_test_at(out: &mut Text, word: &[u8], others: usize, line: u32) -> Result<(), NoMemory> {
    put_word(out, word)?;
    put_count(out, others)?;
    put_line(out, line)?;
    out.push(b'\n')
}

/// Puts a jump that can fail.
pub fn put_jump_at(out: &mut Text, word: &[u8], jump: usize, line: u32) -> Result<(), NoMemory> {
    put_word(out, word)?;
    put_ahead(out, jump)?;
    put_line(out, line)?;
    out.push(b'\n')
}
