use crate::words::{filled, legal_text, number_in, split_blank, text_in};
use itoa::Buffer;
use obj_kinds::{NoMemory, Text, Value, Values};
use std::alloc::Global;

/// Room that no value of a row fills.
const ROOM: usize = 50_000;

fn weighed(alloc: Global, value: &Value) -> Result<Text, NoMemory> {
    let mut text = legal_text(alloc, value.is_legal())?;
    text.push_slice(b", weighs ")?;
    let Some(left) = value.without_weight(ROOM) else {
        text.push_slice(b"too much")?;
        return Ok(text);
    };
    let mut buffer = Buffer::new();
    text.push_slice(buffer.format(ROOM.saturating_sub(left)).as_bytes())?;
    Ok(text)
}

fn one_item(alloc: Global, item: Value) -> Result<Value, NoMemory> {
    let mut items = Values::new(alloc);
    items.push(item)?;
    Ok(Value::List(items))
}

/// A text of so many bytes of one code.
pub fn answer_text(alloc: Global, rest: &[u8]) -> Result<Text, NoMemory> {
    let (count, code) = split_blank(rest);
    let byte = (number_in(code) % 256) as u8;
    weighed(alloc, &Value::Str(filled(alloc, byte, number_in(count))?))
}

/// A list of so many texts of so many bytes.
pub fn answer_list(alloc: Global, rest: &[u8]) -> Result<Text, NoMemory> {
    let (count, len) = split_blank(rest);
    let mut items = Values::new(alloc);
    for _ in 0..number_in(count) {
        items.push(Value::Str(filled(alloc, b'a', number_in(len))?))?;
    }
    weighed(alloc, &Value::List(items))
}

/// A text of so many bytes in so many lists, one in the other.
pub fn answer_deep(alloc: Global, rest: &[u8]) -> Result<Text, NoMemory> {
    let (depth, len) = split_blank(rest);
    let mut value = Value::Str(filled(alloc, b'a', number_in(len))?);
    for _ in 0..number_in(depth) {
        value = one_item(alloc, value)?;
    }
    weighed(alloc, &value)
}

/// Whether lists of two texts, and these texts, are the same.
pub fn answer_same(alloc: Global, rest: &[u8]) -> Result<Text, NoMemory> {
    let (first, second) = split_blank(rest);
    let first = Value::Str(text_in(alloc, first)?);
    let second = Value::Str(text_in(alloc, second)?);
    let is_same = first.is_same(&second);
    let list = one_item(alloc, first)?;
    let crossed = list.is_same(&second);
    let other = one_item(alloc, second)?;
    let text: &[u8] = match (is_same, list.is_same(&other), crossed) {
        (true, true, false) => b"the same",
        (false, false, false) => b"not the same",
        _ => b"mixed",
    };
    Text::from_slice(alloc, text)
}
