use crate::rows::Answer;
use global_dump::push_value;
use itoa::Buffer;
use obj_kinds::{NoMemory, Text, Value};
use os_value::ValueError;
use std::alloc::Global;

/// The longest text that is printed whole.
const MOST: usize = 200;

fn push_error(out: &mut Text, error: ValueError) -> Result<(), NoMemory> {
    match error {
        ValueError::Script(name) => out.push_slice(name.text()),
        ValueError::NoMemory => Err(NoMemory),
    }
}

fn push_weight(out: &mut Text, value: &Value) -> Result<(), NoMemory> {
    let Some(left) = value.without_weight(Value::MAX_WEIGHT) else {
        return out.push_slice(b"too much");
    };
    let mut buffer = Buffer::new();
    out.push_slice(b"weighs ")?;
    out.push_slice(
        buffer
            .format(Value::MAX_WEIGHT.saturating_sub(left))
            .as_bytes(),
    )
}

fn push_short(out: &mut Text, value: &Value) -> Result<(), NoMemory> {
    match value.without_weight(MOST) {
        Some(_) => push_value(out, value),
        None => push_weight(out, value),
    }
}

/// An answer as it is printed: values as a dump has them, longer ones by their weight, errors by
/// their names.
pub fn answer_text(alloc: Global, answer: Answer) -> Result<Text, NoMemory> {
    let mut out = Text::new(alloc);
    match answer {
        Answer::Got(Ok(value)) => push_short(&mut out, &value)?,
        Answer::Got(Err(error)) => push_error(&mut out, error)?,
        Answer::Truth(Ok(true)) => out.push_slice(b"true")?,
        Answer::Truth(Ok(false)) => out.push_slice(b"false")?,
        Answer::Truth(Err(error)) => push_error(&mut out, error)?,
        Answer::NoRow => out.push_slice(b"no such row")?,
    }
    Ok(out)
}
