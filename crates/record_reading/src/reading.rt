ghost use Rattle.std.specs.Prelude.{◌≡◌, ◌∷◌, [], IfOk, map};
ghost use Rattle.std.specs.FinMap.{find};
ghost use Rattle.obj_kinds.specs.Order.{node_cmp};
ghost use Rattle.obj_kinds.specs.declared.sub.Sub.TheVariants.{Str};
ghost use Rattle.record_layout.specs.Inverse.{each_read};
ghost use Rattle.record_layout.specs.Items.{row_field};
ghost use Rattle.record_layout.specs.Reading.{then_read, or_damaged, fields_in, element_at, read_elements, read_lower, read_arrays, read_fields};
ghost use Rattle.record_reading.specs.Steps.{list_seen, array_seen, layout_seen};
ghost use Rattle.record_reading.specs.Rows.{read_as as record_as, read_by_row as record_by_row};
ghost use Rattle.record_reading.specs.Answers.{Answers};
ghost use Rattle.record_reading.specs.Stored.{source_of};

use crate::error::ReadError;
use crate::keys::keys_below;
use crate::merge::{Arrays, merged};
use crate::steps::{ArrayBelow, ListBelow, Steps, steps_of};
use crate::values::{array_element, items_behind, list_fields, row_fields};
use obj_kinds::{ClassName, NoMemory, Node, Pairs, Sub, Subs, Text, Value};
use schema_kinds::{Field, FieldPairs, Fields, Record, Schema};
use sqlite_items::Items;
use std::alloc::Global;
use storage_map::{element_node, named_below, row_class};

/// The nodes of an object.
#[derive(Clone, Copy)]
pub struct Stored<'a> {
    /// The schema of its class.
    pub schema: &'a Schema,
    /// Where its row stands.
    pub row: &'a Node,
    /// The nodes that are there, its own and maybe others.
    pub nodes: &'a Pairs,
}

fn name_way(alloc: Global, name: &[u8]) -> Result<Subs, NoMemory>
    ensures { IfOk result (λ way. way ≡ Str name.now ∷ []) }
{
    let mut way = Items::new(alloc);
    way.push(Sub::Str(Text::from_slice(alloc, name)?))?;
    Ok(way)
}

fn element_way(alloc: Global, name: &[u8], key: &Sub) -> Result<Subs, NoMemory>
    ensures { IfOk result (λ way. way ≡ Str name.now ∷ key.now ∷ []) }
{
    let mut way = Items::new(alloc);
    way.push(Sub::Str(Text::from_slice(alloc, name)?))?;
    way.push(key.copy(alloc)?)?;
    Ok(way)
}

// The fields of one list.
fn read_list(alloc: Global, stored: &Stored<'_>, list: &ListBelow<'_>) -> Result<Fields, ReadError>
    ensures { Answers result (or_damaged (Str list.now.name.now ∷ []) (fields_in stored.now.schema.now (list_seen list.now).1 ((source_of stored.now).value (Str list.now.name.now ∷ [])))) }
{
    let node = named_below(alloc, stored.row, list.name)?;
    let fields = list_fields(alloc, stored.schema, list.props, stored.nodes.get(&node))?;
    match fields {
        Some(fields) => Ok(fields),
        None => Err(ReadError::Damaged(name_way(alloc, list.name)?)),
    }
}

fn read_lists(
    alloc: Global,
    stored: &Stored<'_>,
    lists: &[ListBelow<'_>],
) -> Result<Fields, ReadError>
    ensures { Answers result (read_lower stored.now.schema.now (source_of stored.now) (map list_seen lists.now)) }
{
    let mut all = Items::new(alloc);
    for list in lists {
        let fields = read_list(alloc, stored, list)?;
        all.append(fields)?;
    }
    Ok(all)
}

// One element.
fn read_element(
    alloc: Global,
    stored: &Stored<'_>,
    array: &ArrayBelow<'_>,
    key: &Sub,
) -> Result<Field, ReadError>
    ensures { Answers result (or_damaged (Str array.now.name.now ∷ key.now ∷ []) (element_at stored.now.schema.now array.now.item.now ((source_of stored.now).value (Str array.now.name.now ∷ key.now ∷ [])))) }
{
    let node = element_node(alloc, stored.row, array.name, key)?;
    let field = array_element(alloc, stored.schema, array.item, stored.nodes.get(&node))?;
    match field {
        Some(field) => Ok(field),
        None => Err(ReadError::Damaged(element_way(alloc, array.name, key)?)),
    }
}

fn read_keys(
    alloc: Global,
    stored: &Stored<'_>,
    array: &ArrayBelow<'_>,
    keys: Vec<Sub>,
) -> Result<FieldPairs, ReadError>
    ensures { Answers result (read_elements stored.now.schema.now (source_of stored.now) array.now.name.now array.now.item.now keys.items) }
{
    let mut pairs = Items::new(alloc);
    for key in keys {
        let field = read_element(alloc, stored, array, &key)?;
        pairs.push((key, field))?;
    }
    Ok(pairs)
}

fn read_array(
    alloc: Global,
    stored: &Stored<'_>,
    array: &ArrayBelow<'_>,
) -> Result<FieldPairs, ReadError>
    ensures { Answers result (read_elements stored.now.schema.now (source_of stored.now) array.now.name.now array.now.item.now ((source_of stored.now).keys array.now.name.now)) }
{
    let node = named_below(alloc, stored.row, array.name)?;
    let keys = keys_below(alloc, stored.nodes, &node)?;
    read_keys(alloc, stored, array, keys)
}

fn read_all_arrays(
    alloc: Global,
    stored: &Stored<'_>,
    arrays: &[ArrayBelow<'_>],
) -> Result<Arrays, ReadError>
    ensures { Answers result (read_arrays stored.now.schema.now (source_of stored.now) (map array_seen arrays.now)) }
{
    let mut all = Items::new(alloc);
    for array in arrays {
        let pairs = read_array(alloc, stored, array)?;
        all.push(pairs)?;
    }
    Ok(all)
}

// The fields in the row.
fn read_root(
    alloc: Global,
    stored: &Stored<'_>,
    steps: &Steps<'_>,
    items: &[Value],
) -> Result<Fields, ReadError>
    ensures { Answers result (or_damaged [] (each_read (row_field stored.now.schema.now) (layout_seen steps.now).root items.now)) }
{
    let fields = row_fields(alloc, stored.schema, steps.root, items)?;
    match fields {
        Some(fields) => Ok(fields),
        None => Err(ReadError::Damaged(Items::new(alloc))),
    }
}

/// The fields of an object, where the row has these items behind its marker. `Damaged` has the subscripts below the
/// row of the first node in the order of reading that is missing or has the wrong form.
pub fn read_steps(
    alloc: Global,
    stored: &Stored<'_>,
    steps: &Steps<'_>,
    items: &[Value],
) -> Result<Fields, ReadError>
    ensures { Answers result (read_fields stored.now.schema.now (source_of stored.now) (layout_seen steps.now) items.now) }
{
    let mut own = read_root(alloc, stored, steps, items)?;
    let lower = read_lists(alloc, stored, steps.lists.as_slice())?;
    let arrays = read_all_arrays(alloc, stored, steps.arrays.as_slice())?;
    own.append(lower)?;
    let fields = merged(alloc, steps.props, own, arrays)?;
    Ok(fields)
}

// The record of an object of the class, where the row has these items behind its marker.
fn read_as(
    alloc: Global,
    stored: &Stored<'_>,
    class: &ClassName,
    items: &[Value],
) -> Result<Record, ReadError>
    ensures { Answers result (record_as stored.now.schema.now (source_of stored.now) class.now items.now) }
{
    let steps = steps_of(alloc, stored.schema, class)?;
    let fields = read_steps(alloc, stored, &steps, items)?;
    let class = class.copy(alloc)?;
    Ok(Record { class, fields })
}

// The record whose row this is.
fn read_by_row(
    alloc: Global,
    stored: &Stored<'_>,
    extent: &ClassName,
    row: &Value,
) -> Result<Record, ReadError>
    ensures { Answers result (record_by_row stored.now.schema.now extent.now (source_of stored.now) row.now) }
{
    match row_class(stored.schema, extent, row) {
        Some(class) => read_as(alloc, stored, class, items_behind(row)),
        None => Err(ReadError::Damaged(Items::new(alloc))),
    }
}

/// The record of an object of the extent, read from its row on. `Damaged` has the subscripts below the row of the
/// first node in the order of reading that is missing or has the wrong form; the row itself where it is missing, or
/// names no class of the extent.
pub fn read_stored(
    alloc: Global,
    stored: &Stored<'_>,
    extent: &ClassName,
) -> Result<Record, ReadError>
    ensures { Answers result (then_read (or_damaged [] (find node_cmp stored.now.row.now stored.now.nodes.now)) (λ row. record_by_row stored.now.schema.now extent.now (source_of stored.now) row)) }
{
    match stored.nodes.get(stored.row) {
        Some(row) => read_by_row(alloc, stored, extent, row),
        None => Err(ReadError::Damaged(Items::new(alloc))),
    }
}
