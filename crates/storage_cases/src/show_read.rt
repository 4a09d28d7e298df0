use crate::cases::{Case, RECORDS};
use crate::failure::Failure;
use crate::fields::{key_of, record_of};
use crate::spoilt::{READS, Spoil};
use obj_kinds::{Node, Nodes, Pairs, Sub, Text, Value, are_rising, push_node};
use record_reading::{FormError, record_from};
use schema_kinds::{Record, Schema};
use sqlite_items::Items;
use std::alloc::Global;
use std::cmp::Ordering;
use std::io::{self, Write};
use storage_map::{data_node, rows};

fn list_of(alloc: Global, texts: &[&[u8]]) -> Result<Value, Failure> {
    let mut items = Items::new(alloc);
    for text in texts {
        items.push(Value::Str(Text::from_slice(alloc, text)?))?;
    }
    Ok(Value::List(items))
}

fn node_below(alloc: Global, row: &Node, subs: &[&[u8]]) -> Result<Node, Failure> {
    let mut node = row.copy(alloc)?;
    for sub in subs {
        node.subs.push(Sub::from_text(alloc, sub)?)?;
    }
    Ok(node)
}

// The value of the node at the place, where the node is left.
fn left_at(
    alloc: Global,
    place: usize,
    value: &Value,
    spoil: &Spoil,
) -> Result<Option<Value>, Failure> {
    match spoil {
        Spoil::Without(one, other) if place == *one || place == *other => Ok(None),
        Spoil::Text(at, text) if place == *at => {
            Ok(Some(Value::Str(Text::from_slice(alloc, text)?)))
        }
        Spoil::Listed(at, texts) if place == *at => Ok(Some(list_of(alloc, texts)?)),
        _ => Ok(Some(value.copy(alloc)?)),
    }
}

fn further(alloc: Global, row: &Node, spoil: &Spoil) -> Result<Option<Node>, Failure> {
    match spoil {
        Spoil::Further(subs) => Ok(Some(node_below(alloc, row, subs)?)),
        _ => Ok(None),
    }
}

fn comes_before(node: &Option<Node>, other: &Node) -> bool {
    match node {
        None => false,
        Some(node) => matches!(node.compare(other), Ordering::Less),
    }
}

// A further node has the text `y`.
fn push_further(alloc: Global, node: Option<Node>, nodes: &mut Nodes) -> Result<(), Failure> {
    if let Some(node) = node {
        nodes.push((node, Value::Str(Text::from_slice(alloc, b"y")?)))?;
    }
    Ok(())
}

fn spoilt(alloc: Global, row: &Node, rows: &Pairs, spoil: &Spoil) -> Result<Pairs, Failure> {
    let mut extra = further(alloc, row, spoil)?;
    let mut nodes = Items::new(alloc);
    for (place, pair) in rows.as_slice().iter().enumerate() {
        if comes_before(&extra, &pair.0) {
            push_further(alloc, extra.take(), &mut nodes)?;
        }
        if let Some(value) = left_at(alloc, place, &pair.1, spoil)? {
            nodes.push((pair.0.copy(alloc)?, value))?;
        }
    }
    push_further(alloc, extra.take(), &mut nodes)?;
    if are_rising(nodes.as_slice()) {
        Ok(Pairs::from_rising(nodes))
    } else {
        Err(Failure::Cases)
    }
}

fn push_read(
    out: &mut Text,
    kept: &Record,
    read: Result<Record, FormError>,
) -> Result<(), Failure> {
    match read {
        Ok(record) => {
            if record.is_same(kept) {
                out.push_slice(b"read\n")?;
            } else {
                out.push_slice(b"another record\n")?;
            }
            Ok(())
        }
        Err(FormError::Damaged(node)) => {
            out.push_slice(b"Damaged ")?;
            push_node(out, &node)?;
            out.push(b'\n')?;
            Ok(())
        }
        Err(FormError::NoMemory) => Err(Failure::Room),
    }
}

fn show_read(alloc: Global, schema: &Schema, case: &Case, spoil: &Spoil) -> Result<Text, Failure> {
    let key = key_of(alloc, case)?;
    let kept = record_of(alloc, case)?;
    let row = data_node(alloc, &key)?;
    let whole = rows(alloc, schema, &key, &kept)?;
    let nodes = spoilt(alloc, &row, &whole, spoil)?;
    let mut out = Text::new(alloc);
    push_read(&mut out, &kept, record_from(alloc, schema, &key, &nodes))?;
    Ok(out)
}

/// Writes what is read of the rows of each record of the table of reads, changed as it says there.
pub fn show_reads(rt: &HostRuntime, schema: &Schema) -> Result<(), Failure> {
    for read in READS.iter() {
        if let Some(case) = RECORDS.get(read.0) {
            let text = show_read(rt.alloc(), schema, case, &read.1)?;
            io::writer(rt).write_all(text.as_slice())?;
        }
    }
    Ok(())
}
