use crate::cases::{CHANGES, Case, MARKERS, RECORDS};
use crate::failure::Failure;
use crate::fields::{class_name, key_of, record_of};
use global_dump::{dump, push_line};
use obj_kinds::{Node, Pairs, Text, Value, push_node};
use schema_kinds::{Record, Schema};
use sqlite_items::Items;
use std::alloc::Global;
use std::io::{self, Write};
use storage_map::{changes, entries, row_class, rows};

fn put(rt: &HostRuntime, text: &Text) -> Result<(), Failure> {
    io::writer(rt).write_all(text.as_slice())?;
    Ok(())
}

fn push_pairs(alloc: Global, out: &mut Text, pairs: &Pairs) -> Result<(), Failure> {
    let text = dump(alloc, pairs.as_slice())?;
    out.push_slice(text.as_slice())?;
    Ok(())
}

fn show_record(alloc: Global, schema: &Schema, case: &Case) -> Result<Text, Failure> {
    let key = key_of(alloc, case)?;
    let kept = record_of(alloc, case)?;
    let mut out = Text::new(alloc);
    out.push_slice(b"record ")?;
    out.push_slice(case.class)?;
    out.push(b'\n')?;
    push_pairs(alloc, &mut out, &rows(alloc, schema, &key, &kept)?)?;
    push_pairs(alloc, &mut out, &entries(alloc, schema, &key, &kept)?)?;
    Ok(out)
}

/// Writes the rows and the entries of each record of the table but the last four.
pub fn show_records(rt: &HostRuntime, schema: &Schema) -> Result<(), Failure> {
    for case in RECORDS.iter().take(10) {
        put(rt, &show_record(rt.alloc(), schema, case)?)?;
    }
    Ok(())
}

fn record_at(alloc: Global, place: usize) -> Result<Option<Record>, Failure> {
    match RECORDS.get(place) {
        Some(case) => Ok(Some(record_of(alloc, case)?)),
        None => Ok(None),
    }
}

fn push_kills(out: &mut Text, nodes: &[Node]) -> Result<(), Failure> {
    for node in nodes {
        out.push_slice(b"kill ")?;
        push_node(out, node)?;
        out.push(b'\n')?;
    }
    Ok(())
}

fn push_sets(out: &mut Text, pairs: &Pairs) -> Result<(), Failure> {
    for (node, value) in pairs.as_slice() {
        out.push_slice(b"set ")?;
        push_line(out, node, value)?;
    }
    Ok(())
}

fn show_change(alloc: Global, schema: &Schema, old: usize, new: usize) -> Result<Text, Failure> {
    let mut out = Text::new(alloc);
    out.push_slice(b"change\n")?;
    let Some(case) = RECORDS.get(if old < RECORDS.len() { old } else { new }) else {
        return Ok(out);
    };
    let key = key_of(alloc, case)?;
    let before = record_at(alloc, old)?;
    let after = record_at(alloc, new)?;
    let edits = changes(alloc, schema, &key, before.as_ref(), after.as_ref())?;
    push_kills(&mut out, edits.entry_kills.as_slice())?;
    push_kills(&mut out, edits.row_kills.as_slice())?;
    push_sets(&mut out, &edits.row_sets)?;
    push_sets(&mut out, &edits.entry_sets)?;
    Ok(out)
}

/// Writes what turns the nodes of one record of the table into those of another.
pub fn show_changes(rt: &HostRuntime, schema: &Schema) -> Result<(), Failure> {
    for change in CHANGES.iter() {
        put(rt, &show_change(rt.alloc(), schema, change.0, change.1)?)?;
    }
    Ok(())
}

fn show_class(alloc: Global, schema: &Schema, extent: &[u8], mark: &[u8]) -> Result<Text, Failure> {
    let extent = class_name(alloc, extent)?;
    let mut items = Items::new(alloc);
    items.push(Value::Str(Text::from_slice(alloc, mark)?))?;
    let row = Value::List(items);
    let mut out = Text::new(alloc);
    match row_class(schema, &extent, &row) {
        Some(class) => out.push_slice(class.0.as_slice())?,
        None => out.push_slice(b"no class")?,
    }
    out.push(b'\n')?;
    Ok(out)
}

/// Writes the classes that the first items of rows name.
pub fn show_classes(rt: &HostRuntime, schema: &Schema) -> Result<(), Failure> {
    for marker in MARKERS.iter() {
        put(rt, &show_class(rt.alloc(), schema, marker.0, marker.1)?)?;
    }
    Ok(())
}
