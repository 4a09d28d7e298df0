use crate::words::{filled, legal_text, number_in, signed_in, text_in};
use itoa::Buffer;
use obj_kinds::{NoMemory, Sub, SubError, Text, number_of, push_quoted};
use std::alloc::Global;

fn said(alloc: Global, kind: &[u8], is_legal: bool) -> Result<Text, NoMemory> {
    let mut text = Text::from_slice(alloc, kind)?;
    let limits: &[u8] = if is_legal { b", legal" } else { b", not legal" };
    text.push_slice(limits)?;
    Ok(text)
}

fn read_text(alloc: Global, text: &[u8]) -> Result<Text, NoMemory> {
    match Sub::from_text(alloc, text) {
        Ok(sub) => match &sub {
            Sub::Num(_) => said(alloc, b"number", sub.is_legal()),
            Sub::Str(_) => said(alloc, b"text", sub.is_legal()),
        },
        Err(SubError::Empty) => Text::from_slice(alloc, b"empty"),
        Err(SubError::TooLong) => Text::from_slice(alloc, b"too long"),
        Err(SubError::NoMemory) => Err(NoMemory),
    }
}

/// What a text is read as.
pub fn answer_sub(alloc: Global, rest: &[u8]) -> Result<Text, NoMemory> {
    let text = text_in(alloc, rest)?;
    read_text(alloc, text.as_slice())
}

/// What one byte is read as.
pub fn answer_byte(alloc: Global, rest: &[u8]) -> Result<Text, NoMemory> {
    let byte = (number_in(rest) % 256) as u8;
    let text = filled(alloc, byte, 1)?;
    read_text(alloc, text.as_slice())
}

/// Whether a text that was read as no number is a subscript.
pub fn answer_str(alloc: Global, rest: &[u8]) -> Result<Text, NoMemory> {
    let sub = Sub::Str(text_in(alloc, rest)?);
    legal_text(alloc, sub.copy(alloc)?.is_legal())
}

/// Whether a number is a subscript.
pub fn answer_num(alloc: Global, rest: &[u8]) -> Result<Text, NoMemory> {
    let sub = Sub::Num(signed_in(rest));
    legal_text(alloc, sub.is_legal())
}

/// The number that a text counts as.
pub fn answer_leading(alloc: Global, rest: &[u8]) -> Result<Text, NoMemory> {
    let text = text_in(alloc, rest)?;
    match number_of(text.as_slice()) {
        Ok(number) => {
            let mut buffer = Buffer::new();
            Text::from_slice(alloc, buffer.format(number).as_bytes())
        }
        Err(_) => Text::from_slice(alloc, b"past 18 digits"),
    }
}

/// A text as a dump writes it.
pub fn answer_quote(alloc: Global, rest: &[u8]) -> Result<Text, NoMemory> {
    let text = text_in(alloc, rest)?;
    let mut quoted = Text::new(alloc);
    push_quoted(&mut quoted, text.as_slice())?;
    Ok(quoted)
}
