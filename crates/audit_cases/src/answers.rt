//! What a row is answered.

ghost use Rattle.std.specs.Prelude.{IsTrue};
ghost use Rattle.std.specs.List.{list_all};
ghost use Rattle.world_audit.specs.Laws.{is_within};

use dump_reading::{DumpError, read_dump};
use obj_kinds::{NoMemory, Pairs, Text, node_text};
use record_reading::FormError;
use schema_kinds::{Key, Record, Schema};
use std::alloc::Global;
use world_audit::audit;

/// The most bytes of a dump that is read.
const LONGEST: usize = 16_777_216;

// A semicolon stands for a line feed.
fn line_byte(byte: u8) -> u8 {
    match byte {
        b';' => b'\n',
        _ => byte,
    }
}

// The dump of a row.
fn dump_in(alloc: Global, row: &[u8]) -> Result<Text, NoMemory> {
    let mut text = Text::new(alloc);
    for byte in row {
        text.push(line_byte(*byte))?;
    }
    Ok(text)
}

// The object's extent, its id and its class.
fn push_object(alloc: Global, out: &mut Text, key: &Key, record: &Record) -> Result<(), NoMemory> {
    out.push_slice(key.extent.0.as_slice())?;
    out.push(b' ')?;
    out.push_slice(key.id.text(alloc)?.as_slice())?;
    out.push(b' ')?;
    out.push_slice(record.class.0.as_slice())
}

fn push_objects(alloc: Global, out: &mut Text, objects: &[(Key, Record)]) -> Result<(), NoMemory> {
    if objects.is_empty() {
        return out.push_slice(b"no object");
    }
    let mut is_first = true;
    for object in objects {
        if !is_first {
            out.push_slice(b", ")?;
        }
        is_first = false;
        push_object(alloc, out, &object.0, &object.1)?;
    }
    Ok(())
}

fn answer_nodes(
    alloc: Global,
    schema: &Schema,
    out: &mut Text,
    nodes: &Pairs,
) -> Result<(), NoMemory>
    requires { IsTrue (list_all is_within nodes.now) }
{
    match audit(alloc, schema, nodes) {
        Ok(world) => push_objects(alloc, out, world.as_slice()),
        Err(FormError::Damaged(node)) => {
            out.push_slice(b"Damaged ")?;
            out.push_slice(node_text(alloc, &node)?.as_slice())
        }
        Err(FormError::NoMemory) => Err(NoMemory),
    }
}

/// What a row is answered: the objects of the world whose dump it is, or the node at fault.
pub fn answer_row(alloc: Global, schema: &Schema, row: &[u8]) -> Result<Text, NoMemory> {
    let text = dump_in(alloc, row)?;
    let mut out = Text::new(alloc);
    if text.len() > LONGEST {
        out.push_slice(b"too long")?;
        return Ok(out);
    }
    match read_dump(alloc, text.as_slice()) {
        Ok(nodes) => answer_nodes(alloc, schema, &mut out, &nodes)?,
        Err(DumpError::BadDump { .. }) => out.push_slice(b"no dump")?,
        Err(DumpError::NoMemory) => return Err(NoMemory),
    }
    Ok(out)
}
