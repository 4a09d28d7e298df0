use crate::shapes::{Shape, draft, fields};
use class_link::link;
use class_reader::read_classes;
use obj_kinds::{ClassName, Id, NoMemory, Text};
use schema_kinds::{Key, Record, Schema};
use std::alloc::Global;

/// The most bytes of a text that is read.
const MOST_BYTES: usize = 100_000_000;

/// An object before and behind a change.
#[derive(Drop)]
pub struct Work {
    pub schema: Schema,
    pub key: Key,
    pub old: Record,
    pub new: Record,
}

fn thing(alloc: Global) -> Result<ClassName, NoMemory> {
    Ok(ClassName(Text::from_slice(alloc, b"Bench.Thing")?))
}

fn linked(alloc: Global, text: &[u8]) -> Option<Schema> {
    if text.len() >= MOST_BYTES {
        return None;
    }
    match read_classes(alloc, text) {
        Ok(trees) => link(alloc, trees).ok(),
        Err(_) => None,
    }
}

fn record(alloc: Global, shape: Shape, parts: u32, is_changed: bool) -> Result<Record, NoMemory> {
    let class = thing(alloc)?;
    let fields = fields(alloc, shape, parts, is_changed)?;
    Ok(Record { class, fields })
}

fn first_key(alloc: Global) -> Result<Option<Key>, NoMemory> {
    let extent = thing(alloc)?;
    match Id::from_numbers(&[1]) {
        Some(id) => Ok(Some(Key { extent, id })),
        None => Ok(None),
    }
}

/// An object with so many parts; none where its class isn't read or linked.
pub fn make_work(alloc: Global, shape: Shape, parts: u32) -> Result<Option<Work>, NoMemory> {
    let text = draft(alloc, shape, parts)?;
    let Some(schema) = linked(alloc, text.as_slice()) else {
        return Ok(None);
    };
    let Some(key) = first_key(alloc)? else {
        return Ok(None);
    };
    let old = record(alloc, shape, parts, false)?;
    let new = record(alloc, shape, parts, true)?;
    Ok(Some(Work {
        schema,
        key,
        old,
        new,
    }))
}
