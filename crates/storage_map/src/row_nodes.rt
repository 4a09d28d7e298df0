ghost use Rattle.std.specs.Prelude.{◌≡◌, ◌++◌, ◌∷◌, ◌≤◌, [], map, take, drop, length, IfOk, OnOk, IfSome, IfNone, Some, None, Option};
ghost use Rattle.std.specs.FinMap.{entries as listed};
ghost use Rattle.std.specs.Option.{option_copied};
ghost use Rattle.obj_kinds.specs.declared.sub.Sub.TheVariants.{Str};
ghost use Rattle.obj_kinds.specs.declared.value.Value.TheVariants as value;
ghost use Rattle.schema_kinds.specs.declared.record.Field.TheViews.{out-Field};
ghost use Rattle.record_layout.specs.Items.{item as item_for};
ghost use Rattle.record_layout.specs.Layout.{layout_of, layout_on, lower_lists, arrays_of, last_props as props_of_last};
ghost use Rattle.record_layout.specs.Rows.{below as node_below, marker, pairs_of, maps_in, rows_in, lower_nodes, element_nodes, array_nodes, nodes_below, row_list as row_nodes, rows as rows_for};
ghost use Rattle.storage_map.specs.Ways.{placed_below};

use crate::order::in_order;
use crate::row::data_node;
use obj_kinds::{ClassName, NoMemory, Node, Nodes, Pairs, Sub, Text, Value, Values, copy_subs};
use record_layout::{count_rows, item_of, line_to, own_props};
use schema_kinds::{Class, Field, FieldPairs, Key, Kind, Prop, Record, Schema, short_name_of};
use sqlite_items::Items;
use std::alloc::Global;

/// The node below another by one subscript that is a name. It fails only for want of memory.
pub fn named_below(alloc: Global, row: &Node, name: &[u8]) -> Result<Node, NoMemory>
    ensures { IfOk result (λ node. node ≡ node_below row.now (Str name.now ∷ [])) }
{
    let mut node = row.copy(alloc)?;
    node.subs.push(Sub::Str(Text::from_slice(alloc, name)?))?;
    Ok(node)
}

/// The node of an element of an array below a row. It fails only for want of memory.
pub fn element_node(alloc: Global, row: &Node, name: &[u8], key: &Sub) -> Result<Node, NoMemory>
    ensures { IfOk result (λ node. node ≡ node_below row.now (Str name.now ∷ key.now ∷ [])) }
{
    let mut node = row.copy(alloc)?;
    node.subs.push(Sub::Str(Text::from_slice(alloc, name)?))?;
    node.subs.push(key.copy(alloc)?)?;
    Ok(node)
}

/// The marker of a row: nothing for the root class, and `~Class~` for a class below it.
#[tactic(auto, unfolding(record_layout::specs::Rows::marker))]
pub fn marker_of(alloc: Global, extent: &ClassName, class: &ClassName) -> Result<Text, NoMemory>
    ensures { IfOk result (λ mark. mark ≡ marker extent.now class.now) }
{
    let mut mark = Text::new(alloc);
    if class.0.as_slice() != extent.0.as_slice() {
        mark.push(b'~')?;
        mark.push_slice(class.0.as_slice())?;
        mark.push(b'~')?;
    }
    Ok(mark)
}

// A field that stands in a row, and the fields behind it.
#[derive(Clone, Copy)]
struct NextRow<'a> {
    field: &'a Field,
    rest: &'a [Field],
}

// The next field that is no array.
fn next_row(fields: &[Field]) -> Option<NextRow<'_>>
    ensures some { IfSome result (λ r. rows_in fields.now ≡ r.field.now ∷ rows_in r.rest.now) }
    ensures none { IfNone result (rows_in fields.now ≡ []) }
{
    let mut rest = fields;
    while let Some((field, more)) = rest.split_first() {
        rest = more;
        match field {
            Field::Map(_) => {}
            _ => return Some(NextRow { field, rest }),
        }
    }
    None
}

// Items of fields, and the fields behind these.
#[derive(Drop)]
struct Taken<'a> {
    items: Values,
    rest: &'a [Field],
}

// The items of the next fields that are no arrays, put behind those that are there.
#[tactic(auto, using(crate::proofs::RowLaws::take_next, crate::proofs::RowLaws::drop_next))]
fn take_items<'a>(
    alloc: Global,
    fields: &'a [Field],
    count: usize,
    items: Values,
) -> Result<Taken<'a>, NoMemory>
    ensures items { IfOk result (λ t. t.items ≡ items ++ map item_for (take count (rows_in fields.now))) }
    ensures rest { IfOk result (λ t. rows_in t.rest.now ≡ drop count (rows_in fields.now)) }
{
    let mut items = items;
    let mut rest = fields;
    let mut left = count;
    while left > 0 {
        let Some(next) = next_row(rest) else {
            break;
        };
        items.push(item_of(alloc, next.field)?)?;
        rest = next.rest;
        left -= 1;
    }
    Ok(Taken { items, rest })
}

#[tactic(auto, using(crate::proofs::RowLaws::no_list, crate::proofs::RowLaws::one_list))]
// The lists of the classes below the root. The depth is that of superclasses, 16 at most.
fn push_lists(
    alloc: Global,
    row: &Node,
    above: &Class,
    line: &[&Class],
    fields: &[Field],
    nodes: &mut Nodes,
) -> Result<(), NoMemory>
    ensures { OnOk result (nodes.new ≡ nodes.old ++ placed_below row.now (lower_nodes (lower_lists above.now (map (λ c. c.now) line.now)) (rows_in fields.now))) }
{
    let Some((class, rest)) = line.split_first() else {
        return Ok(());
    };
    let count = count_rows(own_props(above, class));
    if count == 0 {
        return push_lists(alloc, row, class, rest, fields, nodes);
    }
    let taken = take_items(alloc, fields, count, Items::new(alloc))?;
    let node = named_below(alloc, row, short_name_of(&class.name))?;
    nodes.push((node, Value::List(taken.items)))?;
    push_lists(alloc, row, class, rest, taken.rest, nodes)
}

// The elements of an array, and the fields behind it.
#[derive(Clone, Copy)]
struct NextArray<'a> {
    pairs: &'a FieldPairs,
    rest: &'a [Field],
}

fn next_array(fields: &[Field]) -> Option<NextArray<'_>>
    ensures some { IfSome result (λ a. maps_in fields.now ≡ a.pairs.now ∷ maps_in a.rest.now) }
    ensures none { IfNone result (maps_in fields.now ≡ []) }
{
    let mut rest = fields;
    while let Some((field, more)) = rest.split_first() {
        rest = more;
        if let Field::Map(pairs) = field {
            return Some(NextArray { pairs, rest });
        }
    }
    None
}

fn push_elements(
    alloc: Global,
    row: &Node,
    name: &[u8],
    pairs: &FieldPairs,
    nodes: &mut Nodes,
) -> Result<(), NoMemory>
    ensures { OnOk result (nodes.new ≡ nodes.old ++ placed_below row.now (element_nodes name.now pairs.now)) }
{
    for pair in pairs.as_slice() {
        let node = element_node(alloc, row, name, &pair.0)?;
        nodes.push((node, item_of(alloc, &pair.1)?))?;
    }
    Ok(())
}

// The elements of the arrays among the properties. The depth is their number, 200 at most.
fn push_arrays(
    alloc: Global,
    row: &Node,
    props: &[Prop],
    fields: &[Field],
    nodes: &mut Nodes,
) -> Result<(), NoMemory>
    ensures { OnOk result (nodes.new ≡ nodes.old ++ placed_below row.now (array_nodes (arrays_of props.now) (maps_in fields.now))) }
{
    let Some((prop, rest)) = props.split_first() else {
        return Ok(());
    };
    match &prop.kind {
        Kind::ArrayOf(_) => match next_array(fields) {
            None => Ok(()),
            Some(array) => {
                push_elements(alloc, row, prop.name.as_slice(), array.pairs, nodes)?;
                push_arrays(alloc, row, rest, array.rest, nodes)
            }
        },
        _ => push_arrays(alloc, row, rest, fields, nodes),
    }
}

// The properties of the last class. The depth is that of superclasses, 16 at most.
fn last_props<'a>(first: &'a Class, line: &[&'a Class]) -> &'a [Prop]
    ensures { result.now ≡ props_of_last first.now (map (λ c. c.now) line.now) }
{
    match line.split_first() {
        None => first.props.as_slice(),
        Some((class, rest)) => last_props(class, rest),
    }
}

// The nodes below the row of a record of a class, whose line from the root on this is.
#[tactic(auto, using(crate::proofs::RowLaws::below_nothing))]
fn push_record(
    alloc: Global,
    row: &Node,
    line: &[&Class],
    mark: Text,
    fields: &[Field],
    nodes: &mut Nodes,
) -> Result<(), NoMemory>
    ensures { OnOk result (nodes.new ≡ nodes.old ++ placed_below row.now (nodes_below (layout_on (map (λ c. c.now) line.now)) mark fields.now)) }
{
    let mut items = Items::new(alloc);
    items.push(Value::Str(mark))?;
    match line.split_first() {
        None => {
            nodes.push((row.copy(alloc)?, Value::List(items)))?;
            Ok(())
        }
        Some((root, below)) => {
            let count = count_rows(root.props.as_slice());
            let taken = take_items(alloc, fields, count, items)?;
            nodes.push((row.copy(alloc)?, Value::List(taken.items)))?;
            push_lists(alloc, row, root, below, taken.rest, nodes)?;
            push_arrays(alloc, row, last_props(root, below), fields, nodes)
        }
    }
}

/// The nodes of a record with their values, in the order of reading: the row, the lists of the classes below
/// the root, and the elements of each array. It fails only for want of memory.
#[tactic(auto, unfolding(record_layout::specs::Rows::row_list, record_layout::specs::Layout::layout_of))]
pub fn row_list(
    alloc: Global,
    schema: &Schema,
    key: &Key,
    record: &Record,
) -> Result<Nodes, NoMemory>
    ensures { IfOk result (λ nodes. nodes ≡ row_nodes schema.now key.now «record».now) }
{
    let row = data_node(alloc, key)?;
    let line = line_to(alloc, schema, &record.class)?;
    let mark = marker_of(alloc, &key.extent, &record.class)?;
    let mut nodes = Items::new(alloc);
    push_record(
        alloc,
        &row,
        line.as_slice(),
        mark,
        record.fields.as_slice(),
        &mut nodes,
    )?;
    Ok(nodes)
}

/// The nodes of a record with their values, in node order. It fails only for want of memory.
#[tactic(auto, unfolding(record_layout::specs::Rows::rows))]
pub fn rows(alloc: Global, schema: &Schema, key: &Key, record: &Record) -> Result<Pairs, NoMemory>
    ensures { IfOk result (λ nodes. nodes ≡ listed (rows_for schema.now key.now «record».now)) }
{
    let nodes = row_list(alloc, schema, key, record)?;
    in_order(alloc, nodes)
}
