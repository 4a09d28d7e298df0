//! Long scripts, and those at limits, which the program makes itself.

use crate::failure::Failure;
use crate::show::{put_number, read_or_refuse};
use obj_kinds::{NoMemory, Text};
use std::alloc::Global;

/// A long script: its name, its front, what is repeated how often, and its back.
type Long = (
    &'static [u8],
    &'static [u8],
    &'static [u8],
    u32,
    &'static [u8],
);

const LONG: [Long; 24] = [
    (b"64 parentheses", b"Write ", b"(", 64, b"1"),
    (b"65 parentheses", b"Write ", b"(", 65, b"1"),
    (b"64 blocks", b"", b"For { ", 64, b"Quit  "),
    (b"65 blocks", b"", b"For { ", 65, b"Quit  "),
    (
        b"64 blocks and a parenthesis",
        b"",
        b"For { ",
        64,
        b"Write (",
    ),
    (
        b"63 blocks and two parentheses",
        b"",
        b"For { ",
        63,
        b"Write ((",
    ),
    (b"64 subscripts of subscripts", b"Write ", b"^G(", 64, b"1"),
    (b"65 subscripts of subscripts", b"Write ", b"^G(", 65, b"1"),
    (b"65 calls in calls", b"Do ", b"x.M(", 65, b"1"),
    (
        b"65 functions of functions",
        b"Write ",
        b"$LENGTH(",
        65,
        b"1",
    ),
    (b"a string of 32767 bytes", b"Write \"", b"a", 32_767, b"\""),
    (b"a string of 32768 bytes", b"Write \"", b"a", 32_768, b"\""),
    (
        b"a string of 32767 quotes",
        b"Write \"",
        b"\"\"",
        32_767,
        b"\"",
    ),
    (
        b"an open string of 40000 bytes",
        b"Write \"",
        b"a",
        40_000,
        b"",
    ),
    (
        b"200 values of $LISTBUILD",
        b"Write $LB(1",
        b",1",
        199,
        b")",
    ),
    (
        b"201 values of $LISTBUILD",
        b"Write $LB(1",
        b",1",
        200,
        b")",
    ),
    (b"half a million zeros", b"Write 1", b"0", 500_000, b""),
    (
        b"half a million leading zeros",
        b"Write 0",
        b"0",
        500_000,
        b"1",
    ),
    (b"lines", b"", b"Write 1\n", 100_000, b""),
    (b"operations in a row", b"Write 1", b"+1", 200_000, b""),
    (b"signs in a row", b"Write ", b"-'", 200_000, b"1"),
    (b"members in a row", b"Write x", b".a.b(1)", 50_000, b""),
    (b"arguments in a row", b"Do x.M(1", b",1", 200_000, b")"),
    (b"newlines and comments", b"Quit ", b" ;c\n", 200_000, b""),
];

fn long_script(alloc: Global, long: Long) -> Result<Text, NoMemory> {
    let (_, front, item, times, back) = long;
    let mut text = Text::from_slice(alloc, front)?;
    for _ in 0..times {
        text.push_slice(item)?;
    }
    text.push_slice(back)?;
    Ok(text)
}

fn show_count(alloc: Global, text: &[u8], out: &mut Text) -> Result<(), Failure> {
    let Some(script) = read_or_refuse(alloc, text, 1, 1, out)? else {
        return Ok(());
    };
    out.push_slice(b"    commands ".as_slice())?;
    put_number(out, u32::try_from(script.len()).unwrap_or(u32::MAX))?;
    out.push(b'\n')?;
    Ok(())
}

/// Prints how many commands each of the long scripts has, or its refusal.
pub fn show_long(alloc: Global, out: &mut Text) -> Result<(), Failure> {
    for long in LONG {
        let text = long_script(alloc, long)?;
        out.push_slice(long.0)?;
        out.push(b'\n')?;
        show_count(alloc, text.as_slice(), out)?;
    }
    Ok(())
}

/// Prints how many commands a script of so many lines has.
pub fn show_lines_of(alloc: Global, lines: u32, out: &mut Text) -> Result<(), Failure> {
    let text = long_script(alloc, (b"lines", b"", b"Write 1\n", lines, b""))?;
    show_count(alloc, text.as_slice(), out)
}
