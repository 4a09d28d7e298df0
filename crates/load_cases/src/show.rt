use anyhow::Result;
use global_dump::{dump, push_value};
use obj_kinds::{
    Cause, Mode, NoMemory, Node, Op, Reply, Sub, Text, Value, cause_text, number_value, push_node,
};
use schema_kinds::{Key, Record, Schema};
use std::alloc::Global;
use std::str;
use storage_map::rows;

/// The text as letters; all texts of the cases are ASCII.
fn letters(text: &Text) -> &str {
    match str::from_utf8(text.as_slice()) {
        Ok(letters) => letters,
        Err(_) => "?",
    }
}

fn mode_word(mode: Mode) -> &'static [u8] {
    match mode {
        Mode::Shared => b" shared",
        Mode::Exclusive => b" exclusive",
    }
}

fn put_named(out: &mut Text, word: &[u8], node: &Node) -> Result<(), NoMemory> {
    out.push_slice(word)?;
    push_node(out, node)
}

// A subscript, as a value of its text.
fn put_sub(alloc: Global, out: &mut Text, sub: &Sub) -> Result<(), NoMemory> {
    match sub {
        Sub::Num(number) => push_value(out, &number_value(alloc, *number)?),
        Sub::Str(text) => push_value(out, &Value::Str(text.copy(alloc)?)),
    }
}

fn put_op(alloc: Global, out: &mut Text, op: &Op) -> Result<(), NoMemory> {
    match op {
        Op::Get(node) => put_named(out, b"get ", node),
        Op::Order(node, None) => put_named(out, b"first key of ", node),
        Op::Order(node, Some(behind)) => {
            put_named(out, b"key of ", node)?;
            out.push_slice(b" behind ")?;
            put_sub(alloc, out, behind)
        }
        Op::Lock(node, mode, _, _) => {
            put_named(out, b"lock ", node)?;
            out.push_slice(mode_word(*mode))
        }
        Op::Unlock(node, mode, _) => {
            put_named(out, b"unlock ", node)?;
            out.push_slice(mode_word(*mode))
        }
        _ => out.push_slice(b"another operation"),
    }
}

fn put_reply(alloc: Global, out: &mut Text, reply: &Reply) -> Result<(), NoMemory> {
    match reply {
        Reply::Found(value) => push_value(out, value),
        Reply::Absent => out.push_slice(b"nothing"),
        Reply::Next(sub) => put_sub(alloc, out, sub),
        Reply::NoNext => out.push_slice(b"none"),
        Reply::Granted => out.push_slice(b"granted"),
        Reply::Held { .. } => out.push_slice(b"held"),
        _ => out.push_slice(b"done"),
    }
}

fn asked(alloc: Global, op: &Op, reply: &Reply) -> Result<Text, NoMemory> {
    let mut out = Text::new(alloc);
    put_op(alloc, &mut out, op)?;
    out.push_slice(b": ")?;
    put_reply(alloc, &mut out, reply)?;
    Ok(out)
}

/// Prints an operation and its reply.
pub fn print_asked(rt: &HostRuntime, op: &Op, reply: &Reply) -> Result<()> {
    let text = asked(rt.alloc(), op, reply)?;
    let text = letters(&text);
    println!(rt; "  {text}")?;
    Ok(())
}

/// Prints a cause.
pub fn print_cause(rt: &HostRuntime, cause: &Cause) -> Result<()> {
    let text = cause_text(rt.alloc(), cause)?;
    let text = letters(&text);
    println!(rt; "  {text}")?;
    Ok(())
}

/// Prints the class of a record, and its rows.
pub fn print_record(rt: &HostRuntime, schema: &Schema, key: &Key, record: &Record) -> Result<()> {
    let nodes = rows(rt.alloc(), schema, key, record)?;
    let text = dump(rt.alloc(), nodes.as_slice())?;
    let class = letters(&record.class.0);
    println!(rt; "  loaded {class}")?;
    for line in letters(&text).lines() {
        println!(rt; "    {line}")?;
    }
    Ok(())
}
