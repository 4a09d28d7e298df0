use obj_kinds::{NoMemory, Text, Value, Values};
use std::alloc::Global;

/// What stands before the first byte of a kind, and what stands behind it.
pub fn split_at_byte(row: &[u8], byte: u8) -> (&[u8], &[u8]) {
    for (at, other) in row.iter().enumerate() {
        if *other == byte {
            return (&row[..at], &row[at + 1..]);
        }
    }
    (row, b"")
}

fn number_in(word: &[u8]) -> u64 {
    let Ok(text) = str::from_utf8(word) else {
        return 0;
    };
    text.parse::<u64>().unwrap_or(0)
}

/// So many times the letter a.
fn filled(alloc: Global, count: u64) -> Result<Text, NoMemory> {
    let mut text = Text::new(alloc);
    for _ in 0..count {
        text.push(b'a')?;
    }
    Ok(text)
}

/// A text in so many lists, one in the other.
fn nested(alloc: Global, depth: u64) -> Result<Value, NoMemory> {
    let mut value = Value::Str(filled(alloc, 1)?);
    for _ in 0..depth {
        let mut items = Values::new(alloc);
        items.push(value)?;
        value = Value::List(items);
    }
    Ok(value)
}

/// The texts between commas.
fn listed(alloc: Global, words: &[u8]) -> Result<Value, NoMemory> {
    let mut items = Values::new(alloc);
    let mut text = Text::new(alloc);
    for byte in words {
        match *byte {
            b',' | b')' => {
                items.push(Value::Str(text))?;
                text = Text::new(alloc);
            }
            other => text.push(other)?,
        }
    }
    Ok(Value::List(items))
}

/// The value that a word means: `~` is the empty text, `@n` n times the letter a, `^n` the letter a
/// in n lists, `(a,b)` a list of texts, and any other word is itself.
pub fn value_in(alloc: Global, word: &[u8]) -> Result<Value, NoMemory> {
    let Some((first, rest)) = word.split_first() else {
        return Ok(Value::Str(Text::new(alloc)));
    };
    match *first {
        b'~' => Ok(Value::Str(Text::new(alloc))),
        b'@' => Ok(Value::Str(filled(alloc, number_in(rest))?)),
        b'^' => nested(alloc, number_in(rest)),
        b'(' => listed(alloc, rest),
        _ => Ok(Value::Str(Text::from_slice(alloc, word)?)),
    }
}

/// The values that words mean, in their order.
pub fn values_in(alloc: Global, words: &[u8]) -> Result<Values, NoMemory> {
    let mut values = Values::new(alloc);
    for word in words.split(|byte| *byte == b' ') {
        values.push(value_in(alloc, word)?)?;
    }
    Ok(values)
}
