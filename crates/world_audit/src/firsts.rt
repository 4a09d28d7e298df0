//! Unique keys that two objects have.

ghost use Rattle.std.specs.Prelude.{◌≡◌, ◌∷◌, [], ◌++◌, IfOk, OnOk, option_to_list};
ghost use Rattle.std.specs.Option.{option_copied};
ghost use Rattle.obj_kinds.specs.Ids.{id_text};
ghost use Rattle.obj_kinds.specs.Subscript.{sub_of};
ghost use Rattle.storage_map.specs.Entries.{with_fields};
ghost use Rattle.world_audit.specs.Faults.{entry_below as entry_at};
ghost use Rattle.world_audit.specs.Least.{noted, note_each, note_pairs};
ghost use Rattle.world_audit.specs.Firsts.{unique_node as node_of_unique, unique_nodes as nodes_of_unique, record_nodes as nodes_of_record, nodes_of_found as nodes_for, is_earlier as earlier, put_first as first_put, put_firsts as firsts_put, firsts_of as all_firsts, is_first as first_is, second_of as second_at, seconds_for as seconds_at};

use crate::found::{Finds, Found};
use crate::least::Least;
use obj_kinds::{Id, NoMemory, Node, Sub, whole_number};
use schema_kinds::{Class, Field, Index, Key, Record, Schema};
use sqlite_items::Items;
use std::alloc::Global;
use std::cmp::Ordering;
use std::collections::BTreeMap;
use storage_map::{index_subs, key_node};

/// For each node of a key of a unique index the least id that has the key.
pub(crate) type Firsts = BTreeMap<Node, Id>;

/// Nodes of keys.
pub(crate) type KeyNodes = Items<Node>;

// The node of a unique index's key, where it has one.
fn unique_node(
    alloc: Global,
    key: &Key,
    index: &Index,
    class: &Class,
    fields: &[Field],
) -> Result<Option<Node>, NoMemory>
    ensures { IfOk result (λ node. node ≡ node_of_unique key.now (with_fields class.now.props fields.now) index.now) }
{
    if !index.unique {
        return Ok(None);
    }
    match index_subs(alloc, index, class.props.as_slice(), fields)? {
        None => Ok(None),
        Some(values) => Ok(Some(key_node(alloc, key, &index.name, values)?)),
    }
}

fn push_some(nodes: &mut KeyNodes, node: Option<Node>) -> Result<(), NoMemory>
    ensures { OnOk result (nodes.new ≡ nodes.old ++ option_to_list node) }
{
    if let Some(node) = node {
        nodes.push(node)?;
    }
    Ok(())
}

fn nodes_in(alloc: Global, key: &Key, class: &Class, fields: &[Field]) -> Result<KeyNodes, NoMemory>
    ensures { IfOk result (λ nodes. nodes ≡ nodes_of_unique key.now (with_fields class.now.props fields.now) class.now.indexes) }
{
    let mut nodes = Items::new(alloc);
    let mut rest = class.indexes.as_slice();
    while let Some((index, more)) = rest.split_first() {
        rest = more;
        let node = unique_node(alloc, key, index, class, fields)?;
        push_some(&mut nodes, node)?;
    }
    Ok(nodes)
}

// The nodes of the keys that a record has in the unique indexes of its class.
#[tactic(auto, unfolding(crate::specs::Firsts::record_nodes))]
fn record_nodes(
    alloc: Global,
    schema: &Schema,
    key: &Key,
    record: &Record,
) -> Result<KeyNodes, NoMemory>
    ensures { IfOk result (λ nodes. nodes ≡ nodes_of_record schema.now key.now «record».now) }
{
    match schema.class(&record.class) {
        None => Ok(Items::new(alloc)),
        Some(class) => nodes_in(alloc, key, class, record.fields.as_slice()),
    }
}

fn nodes_of_found(
    alloc: Global,
    schema: &Schema,
    key: &Key,
    found: &Found,
) -> Result<KeyNodes, NoMemory>
    ensures { IfOk result (λ nodes. nodes ≡ nodes_for schema.now (key.now, found.now)) }
{
    match found {
        Found::Whole(record) => record_nodes(alloc, schema, key, record),
        Found::Broken(_) => Ok(Items::new(alloc)),
    }
}

fn is_earlier(known: Option<&Id>, id: &Id) -> bool
    ensures { result ≡ earlier (option_copied known.entry) id.now }
{
    match known {
        None => true,
        Some(known) => matches!(id.compare(known), Ordering::Less),
    }
}

fn put_first(alloc: Global, node: &Node, id: &Id, firsts: &mut Firsts) -> Result<(), NoMemory>
    ensures { OnOk result (firsts.new.entries ≡ first_put firsts.old.entries id.now node.now) }
{
    if !is_earlier(firsts.get(node), id) {
        return Ok(());
    }
    firsts.insert(node.copy(alloc)?, *id)?;
    Ok(())
}

fn put_firsts(alloc: Global, nodes: &[Node], id: &Id, firsts: &mut Firsts) -> Result<(), NoMemory>
    ensures { OnOk result (firsts.new.entries ≡ firsts_put firsts.old.entries id.now nodes.now) }
{
    let mut rest = nodes;
    while let Some((node, more)) = rest.split_first() {
        rest = more;
        put_first(alloc, node, id, firsts)?;
    }
    Ok(())
}

/// For each node of a key that a whole record has in a unique index the least id that has the key. It fails only for
/// want of memory.
pub(crate) fn find_firsts(alloc: Global, schema: &Schema, finds: &Finds) -> Result<Firsts, NoMemory>
    ensures { IfOk result (λ firsts. firsts.entries ≡ all_firsts schema.now [] finds.now.entries) }
{
    let mut firsts = BTreeMap::new(alloc);
    for (key, found) in finds {
        let nodes = nodes_of_found(alloc, schema, key, found)?;
        put_firsts(alloc, nodes.as_slice(), &key.id, &mut firsts)?;
    }
    Ok(firsts)
}

fn is_first(known: Option<&Id>, id: &Id) -> bool
    ensures { result ≡ first_is (option_copied known.entry) id.now }
{
    match known {
        None => false,
        Some(known) => matches!(known.compare(id), Ordering::Equal),
    }
}

/// The subscript that an id is. It fails only for want of memory.
pub(crate) fn id_sub(alloc: Global, id: &Id) -> Result<Sub, NoMemory>
    ensures { IfOk result (λ sub. sub ≡ sub_of (id_text id.now)) }
{
    let text = id.text(alloc)?;
    match whole_number(text.as_slice()) {
        Some(number) => Ok(Sub::Num(number)),
        None => Ok(Sub::Str(text)),
    }
}

// The entry of an object below a key's node.
fn entry_below(alloc: Global, node: &Node, key: &Key) -> Result<Node, NoMemory>
    ensures { IfOk result (λ entry. entry ≡ entry_at node.now key.now) }
{
    let mut entry = node.copy(alloc)?;
    entry.subs.push(id_sub(alloc, &key.id)?)?;
    Ok(entry)
}

// Notes the entry of the key below the node, where another has the least id.
fn note_second(
    alloc: Global,
    key: &Key,
    node: &Node,
    firsts: &Firsts,
    least: &mut Least,
) -> Result<(), NoMemory>
    ensures { OnOk result (least.new ≡ noted least.old (second_at firsts.now.entries key.now node.now)) }
{
    if is_first(firsts.get(node), &key.id) {
        return Ok(());
    }
    least.note(entry_below(alloc, node, key)?);
    Ok(())
}

fn note_seconds_of(
    alloc: Global,
    key: &Key,
    nodes: &[Node],
    firsts: &Firsts,
    least: &mut Least,
) -> Result<(), NoMemory>
    ensures { OnOk result (least.new ≡ note_each (second_at firsts.now.entries key.now) least.old nodes.now) }
{
    let mut rest = nodes;
    while let Some((node, more)) = rest.split_first() {
        rest = more;
        note_second(alloc, key, node, firsts, least)?;
    }
    Ok(())
}

/// Notes of equal keys of unique indexes all entries but the first. It fails only for want of memory.
pub(crate) fn note_seconds(
    alloc: Global,
    schema: &Schema,
    finds: &Finds,
    firsts: &Firsts,
    least: &mut Least,
) -> Result<(), NoMemory>
    ensures { OnOk result (least.new ≡ note_pairs (nodes_for schema.now) (seconds_at firsts.now.entries) least.old finds.now.entries) }
{
    for (key, found) in finds {
        let nodes = nodes_of_found(alloc, schema, key, found)?;
        note_seconds_of(alloc, key, nodes.as_slice(), firsts, least)?;
    }
    Ok(())
}
