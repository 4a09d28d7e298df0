//! Prints commands and refusals.

use crate::failure::Failure;
use crate::trees::put_block;
use itoa::Buffer;
use obj_kinds::{NoMemory, Text};
use os_kinds::Script;
use os_parse::{ScriptError, ScriptWhy, read_script};
use std::alloc::Global;

/// How many bytes a script of the cases may have.
const MAX_SCRIPT: usize = 64_000_000;

/// Puts a number.
pub fn put_number(out: &mut Text, number: u32) -> Result<(), NoMemory> {
    let mut buffer = Buffer::new();
    out.push_slice(buffer.format(number).as_bytes())
}

fn hex_digit(n: u8) -> u8 {
    if n < 10 { b'0' + n } else { b'a' + (n & 7) - 2 }
}

fn put_byte(out: &mut Text, b: u8) -> Result<(), NoMemory> {
    match b {
        b'\n' => out.push_slice(b"\\n".as_slice()),
        b'\r' => out.push_slice(b"\\r".as_slice()),
        b'\t' => out.push_slice(b"\\t".as_slice()),
        32..=126 => out.push(b),
        _ => {
            out.push_slice(b"\\x".as_slice())?;
            out.push(hex_digit(b >> 4))?;
            out.push(hex_digit(b & 15))
        }
    }
}

/// Puts the bytes, those that can't be seen as a backslash and their names.
pub fn put_text(out: &mut Text, text: &[u8]) -> Result<(), NoMemory> {
    for b in text {
        put_byte(out, *b)?;
    }
    Ok(())
}

fn why_name(why: ScriptWhy) -> &'static [u8] {
    match why {
        ScriptWhy::NotAscii => b"NotAscii".as_slice(),
        ScriptWhy::UnexpectedEnd => b"UnexpectedEnd".as_slice(),
        ScriptWhy::UnexpectedToken => b"UnexpectedToken".as_slice(),
        ScriptWhy::UnknownCommand => b"UnknownCommand".as_slice(),
        ScriptWhy::UnknownFunction => b"UnknownFunction".as_slice(),
        ScriptWhy::BadArguments => b"BadArguments".as_slice(),
        ScriptWhy::NumberTooLong => b"NumberTooLong".as_slice(),
        ScriptWhy::NameTooLong => b"NameTooLong".as_slice(),
        ScriptWhy::TextTooLong => b"TextTooLong".as_slice(),
        ScriptWhy::TooDeep => b"TooDeep".as_slice(),
        ScriptWhy::QuitValueInLoop => b"QuitValueInLoop".as_slice(),
    }
}

fn put_refusal(out: &mut Text, line: u32, column: u32, why: ScriptWhy) -> Result<(), NoMemory> {
    out.push_slice(b"    ".as_slice())?;
    put_number(out, line)?;
    out.push(b':')?;
    put_number(out, column)?;
    out.push(b' ')?;
    out.push_slice(why_name(why))?;
    out.push(b'\n')
}

/// The commands of a script that begins at this line and column; where it is refused, the refusal is printed.
pub fn read_or_refuse(
    alloc: Global,
    text: &[u8],
    line: u16,
    column: u16,
    out: &mut Text,
) -> Result<Option<Script>, Failure> {
    if text.len() > MAX_SCRIPT {
        return Err(Failure::File);
    }
    match read_script(alloc, text, u32::from(line), u32::from(column)) {
        Ok(script) => Ok(Some(script)),
        Err(ScriptError::BadScript { line, column, why }) => {
            put_refusal(out, line, column, why)?;
            Ok(None)
        }
        Err(ScriptError::NoMemory) => Err(Failure::NoMemory),
    }
}

/// Prints the commands of a script, or its refusal.
pub fn show_script(alloc: Global, text: &[u8], out: &mut Text) -> Result<(), Failure> {
    let Some(script) = read_or_refuse(alloc, text, 1, 1, out)? else {
        return Ok(());
    };
    if script.is_empty() {
        out.push_slice(b"    no command\n".as_slice())?;
    }
    put_block(out, &script, 1)?;
    Ok(())
}
