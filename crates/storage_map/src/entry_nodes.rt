ghost use Rattle.std.specs.Prelude.{◌≡◌, ◌++◌, ◌∷◌, ◌≤◌, [], map, length, codes, IfOk, OnOk, IfSome, IfNone, option_map, option_to_list, is_some};
ghost use Rattle.std.specs.FinMap.{entries as listed};
ghost use Rattle.obj_kinds.specs.declared.sub.Sub.TheVariants.{Str};
ghost use Rattle.schema_kinds.specs.declared.record.Field.TheViews.{out-Field};
ghost use Rattle.schema_kinds.specs.declared.record.Field.TheOpen.{Field-F};
ghost use Rattle.record_layout.specs.Shapes.{form_of};
ghost use Rattle.storage_map.specs.Entries.{capital, indexed as indexed_as, with_fields, value_of, or_blank, index_key, key_node as key_node_at, entry_node as entry_node_at, entry_if, index_entries, side_entry, side_entries, entry_list as entry_nodes_of, entries as entries_for, valued_empty};

use crate::order::in_order;
use crate::subscript::{id_sub, sub_for};
use obj_kinds::{NoMemory, Node, Nodes, Pairs, Sub, Subs, Text, Value};
use schema_kinds::{Class, Field, Index, Key, Kind, Prop, Record, Schema};
use sqlite_items::Items;
use std::alloc::Global;

// A text with its ASCII letters made upper-case, behind a blank.
fn capitals(alloc: Global, text: &[u8]) -> Result<Text, NoMemory>
    ensures { IfOk result (λ t. t ≡ 32 ∷ map capital text.now) }
{
    let mut capitals = Text::new(alloc);
    capitals.push(b' ')?;
    for byte in text {
        capitals.push(byte.to_ascii_uppercase())?;
    }
    Ok(capitals)
}

// What a text is in an entry; an empty one is nothing.
fn indexed_text(alloc: Global, kind: &Kind, text: &Text) -> Result<Option<Sub>, NoMemory>
    ensures { IfOk result (λ sub. sub ≡ indexed_as kind.now (Field-F.Plain text.now)) }
{
    if text.is_empty() {
        return Ok(None);
    }
    match kind {
        Kind::Text => Ok(Some(Sub::Str(capitals(alloc, text.as_slice())?))),
        _ => Ok(Some(sub_for(alloc, text.as_slice())?)),
    }
}

/// What a field is in an entry; an empty one is nothing. It fails only for want of memory.
pub fn indexed(alloc: Global, kind: &Kind, field: &Field) -> Result<Option<Sub>, NoMemory>
    ensures { IfOk result (λ sub. sub ≡ indexed_as kind.now (out-Field field.now)) }
{
    match field {
        Field::Plain(text) => indexed_text(alloc, kind, text),
        Field::Target(Some(id)) => Ok(Some(id_sub(alloc, id)?)),
        Field::Target(None) => Ok(None),
        Field::Part(_) => Ok(None),
        Field::List(_) => Ok(None),
        Field::Map(_) => Ok(None),
    }
}

fn is_stored(kind: &Kind) -> bool
    ensures { result ≡ is_some (form_of kind.now) }
{
    match kind {
        Kind::Many(_, _) => false,
        _ => true,
    }
}

// A property with its field, and the properties and fields behind them.
#[derive(Clone, Copy)]
struct Valued<'a> {
    prop: &'a Prop,
    field: &'a Field,
    props: &'a [Prop],
    fields: &'a [Field],
}

// The first property that has a field.
fn next_valued<'a>(props: &'a [Prop], fields: &'a [Field]) -> Option<Valued<'a>>
    ensures some { IfSome result (λ v. with_fields props.now fields.now ≡ (v.prop.now, v.field.now) ∷ with_fields v.props.now v.fields.now) }
    ensures none { IfNone result (with_fields props.now fields.now ≡ []) }
{
    let mut props = props;
    while let Some((prop, rest)) = props.split_first() {
        props = rest;
        if is_stored(&prop.kind) {
            let (field, fields) = fields.split_first()?;
            return Some(Valued {
                prop,
                field,
                props,
                fields,
            });
        }
    }
    None
}

// What the property of that name has in an entry.
fn value_named(
    alloc: Global,
    name: &Text,
    props: &[Prop],
    fields: &[Field],
) -> Result<Option<Sub>, NoMemory>
    ensures { IfOk result (λ sub. sub ≡ value_of name.now (with_fields props.now fields.now)) }
{
    let mut props = props;
    let mut fields = fields;
    while let Some(next) = next_valued(props, fields) {
        if name.as_slice() == next.prop.name.as_slice() {
            return indexed(alloc, &next.prop.kind, next.field);
        }
        props = next.props;
        fields = next.fields;
    }
    Ok(None)
}

// An empty value stands as one blank.
fn filled(alloc: Global, value: Option<Sub>) -> Result<Sub, NoMemory>
    ensures { IfOk result (λ sub. sub ≡ or_blank value) }
{
    match value {
        Some(sub) => Ok(sub),
        None => Ok(Sub::Str(Text::from_slice(alloc, b" ")?)),
    }
}

/// The key of an index; a unique one has none where a part is empty. It fails only for want of memory.
pub fn index_subs(
    alloc: Global,
    index: &Index,
    props: &[Prop],
    fields: &[Field],
) -> Result<Option<Subs>, NoMemory>
    ensures { IfOk result (λ subs. subs ≡ index_key index.now (with_fields props.now fields.now)) }
{
    let mut subs = Items::new(alloc);
    let mut names = index.props.as_slice();
    while let Some((name, rest)) = names.split_first() {
        names = rest;
        let value = value_named(alloc, name, props, fields)?;
        if index.unique && value.is_none() {
            return Ok(None);
        }
        subs.push(filled(alloc, value)?)?;
    }
    Ok(Some(subs))
}

/// The node of a key of an index or of a one side; entries with the key stand below it. It fails only for
/// want of memory.
#[tactic(auto, unfolding(crate::specs::Entries::key_node))]
pub fn key_node(alloc: Global, key: &Key, name: &Text, values: Subs) -> Result<Node, NoMemory>
    ensures { IfOk result (λ node. node ≡ key_node_at key.now name.now values) }
{
    let mut global = key.extent.0.copy(alloc)?;
    global.push(b'I')?;
    let mut subs = Items::new(alloc);
    subs.push(Sub::Str(name.copy(alloc)?))?;
    subs.append(values)?;
    Ok(Node { global, subs })
}

/// The entry of an object with a key. It fails only for want of memory.
#[tactic(auto, unfolding(crate::specs::Entries::entry_node))]
pub fn entry_node(alloc: Global, key: &Key, name: &Text, values: Subs) -> Result<Node, NoMemory>
    ensures { IfOk result (λ node. node ≡ entry_node_at key.now name.now values) }
{
    let mut values = values;
    values.push(id_sub(alloc, &key.id)?)?;
    key_node(alloc, key, name, values)
}

// An entry has the empty text.
fn push_entry(
    alloc: Global,
    key: &Key,
    name: &Text,
    values: Option<Subs>,
    nodes: &mut Nodes,
) -> Result<(), NoMemory>
    ensures { OnOk result (nodes.new ≡ nodes.old ++ valued_empty (option_to_list (entry_if key.now name.now values))) }
{
    if let Some(values) = values {
        let node = entry_node(alloc, key, name, values)?;
        nodes.push((node, Value::Str(Text::new(alloc))))?;
    }
    Ok(())
}

// The entries of the indexes.
fn push_indexes(
    alloc: Global,
    key: &Key,
    indexes: &[Index],
    props: &[Prop],
    fields: &[Field],
    nodes: &mut Nodes,
) -> Result<(), NoMemory>
    ensures { OnOk result (nodes.new ≡ nodes.old ++ valued_empty (index_entries key.now indexes.now (with_fields props.now fields.now))) }
{
    let mut indexes = indexes;
    while let Some((index, rest)) = indexes.split_first() {
        indexes = rest;
        let values = index_subs(alloc, index, props, fields)?;
        push_entry(alloc, key, &index.name, values, nodes)?;
    }
    Ok(())
}

fn one_value(alloc: Global, value: Option<Sub>) -> Result<Option<Subs>, NoMemory>
    ensures { IfOk result (λ subs. subs ≡ option_map (λ s. s ∷ []) value) }
{
    match value {
        None => Ok(None),
        Some(sub) => {
            let mut subs = Items::new(alloc);
            subs.push(sub)?;
            Ok(Some(subs))
        }
    }
}

// The entry of a one side that isn't empty.
fn push_side(
    alloc: Global,
    key: &Key,
    prop: &Prop,
    field: &Field,
    nodes: &mut Nodes,
) -> Result<(), NoMemory>
    ensures { OnOk result (nodes.new ≡ nodes.old ++ valued_empty (option_to_list (side_entry key.now (prop.now, field.now) prop.now.kind))) }
{
    match &prop.kind {
        Kind::One(_, _) => {
            let value = indexed(alloc, &prop.kind, field)?;
            let values = one_value(alloc, value)?;
            push_entry(alloc, key, &prop.name, values, nodes)
        }
        _ => Ok(()),
    }
}

// The entries of the one sides.
fn push_sides(
    alloc: Global,
    key: &Key,
    props: &[Prop],
    fields: &[Field],
    nodes: &mut Nodes,
) -> Result<(), NoMemory>
    ensures { OnOk result (nodes.new ≡ nodes.old ++ valued_empty (side_entries key.now (with_fields props.now fields.now))) }
{
    let mut props = props;
    let mut fields = fields;
    while let Some(next) = next_valued(props, fields) {
        push_side(alloc, key, next.prop, next.field, nodes)?;
        props = next.props;
        fields = next.fields;
    }
    Ok(())
}

/// The entries of a record, those of the indexes in order and then those of the one sides. It fails only for
/// want of memory.
#[tactic(auto, unfolding(crate::specs::Entries::entry_list))]
pub fn entry_list(
    alloc: Global,
    schema: &Schema,
    key: &Key,
    record: &Record,
) -> Result<Nodes, NoMemory>
    ensures { IfOk result (λ nodes. nodes ≡ valued_empty (entry_nodes_of schema.now key.now «record».now)) }
{
    let mut nodes = Items::new(alloc);
    if let Some(class) = schema.class(&record.class) {
        let fields = record.fields.as_slice();
        push_indexes(
            alloc,
            key,
            class.indexes.as_slice(),
            class.props.as_slice(),
            fields,
            &mut nodes,
        )?;
        push_sides(alloc, key, class.props.as_slice(), fields, &mut nodes)?;
    }
    Ok(nodes)
}

/// The entries of a record with the empty text, in node order. It fails only for want of memory.
#[tactic(auto, unfolding(crate::specs::Entries::entries))]
pub fn entries(
    alloc: Global,
    schema: &Schema,
    key: &Key,
    record: &Record,
) -> Result<Pairs, NoMemory>
    ensures { IfOk result (λ nodes. nodes ≡ listed (entries_for schema.now key.now «record».now)) }
{
    let nodes = entry_list(alloc, schema, key, record)?;
    in_order(alloc, nodes)
}
