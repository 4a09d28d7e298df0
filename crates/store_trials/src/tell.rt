use crate::failure::Failure;
use itoa::Buffer;
use obj_kinds::{Mode, Node, Reply, Sub, Text, Value, push_node};
use std::alloc::Global;

fn push_number(out: &mut Text, number: i64) -> Result<(), Failure> {
    let mut buffer = Buffer::new();
    out.push_slice(buffer.format(number).as_bytes())?;
    Ok(())
}

/// A text as it stands, and a list as `[x;y]`, without the lists in it.
fn push_value(out: &mut Text, value: &Value) -> Result<(), Failure> {
    match value {
        Value::Str(text) => out.push_slice(text.as_slice())?,
        Value::List(values) => push_values(out, values.as_slice())?,
    }
    Ok(())
}

fn push_values(out: &mut Text, values: &[Value]) -> Result<(), Failure> {
    out.push(b'[')?;
    for value in values {
        if let Value::Str(text) = value {
            out.push_slice(text.as_slice())?;
        }
        out.push(b';')?;
    }
    out.push(b']')?;
    Ok(())
}

fn push_sub(out: &mut Text, sub: &Sub) -> Result<(), Failure> {
    match sub {
        Sub::Num(number) => push_number(out, *number),
        Sub::Str(text) => Ok(out.push_slice(text.as_slice())?),
    }
}

fn push_held(out: &mut Text, pid: u32, node: &Node, mode: Mode) -> Result<(), Failure> {
    out.push_slice(b"held by ")?;
    push_number(out, i64::from(pid))?;
    out.push(b' ')?;
    push_node(out, node)?;
    match mode {
        Mode::Shared => out.push_slice(b" shared")?,
        Mode::Exclusive => out.push_slice(b" exclusive")?,
    }
    Ok(())
}

/// A reply in words.
pub fn reply_text(alloc: Global, reply: &Reply) -> Result<Text, Failure> {
    let mut out = Text::new(alloc);
    match reply {
        Reply::Done => out.push_slice(b"done")?,
        Reply::Found(value) => push_value(&mut out, value)?,
        Reply::Absent => out.push_slice(b"absent")?,
        Reply::Next(sub) => push_sub(&mut out, sub)?,
        Reply::NoNext => out.push_slice(b"no next")?,
        Reply::State(state) => push_number(&mut out, i64::from(*state))?,
        Reply::Number(number) => push_number(&mut out, *number)?,
        Reply::Granted => out.push_slice(b"granted")?,
        Reply::Held { pid, node, mode } => push_held(&mut out, pid.0, node, *mode)?,
        Reply::NotHeld => out.push_slice(b"not held")?,
        Reply::NoTran => out.push_slice(b"no transaction")?,
        Reply::TooDeep => out.push_slice(b"too deep")?,
        Reply::NumberLimit => out.push_slice(b"number limit")?,
    }
    Ok(out)
}
