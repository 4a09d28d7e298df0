ghost use Rattle.std.specs.Prelude.{◌≡◌, ◌++◌, drop, map, IfOk, OnOk};
ghost use Rattle.std.specs.Option.{option_copied};
ghost use Rattle.std.specs.Ordering.{eq_by_cmp};
ghost use Rattle.obj_kinds.specs.Order.{node_cmp};
ghost use Rattle.storage_map.specs.Entries.{indexes_of, props_in, with_fields};
ghost use Rattle.storage_map.specs.Keys.{same_node as same_nodes};
ghost use Rattle.schema_kinds.specs.Classes.{class_of};
ghost use Rattle.save_works.specs.Works.{key_seen, keys_moved_of, first_in, moved_by, node_in, old_nodes as nodes_before, one_moved, unique_nodes, uniques_at};

use crate::work::Work;
use obj_kinds::{NoMemory, Node, Text};
use schema_kinds::{Field, Index, Key, Prop, Record, Schema};
use sqlite_items::Items;
use std::alloc::Global;
use std::cmp::Ordering;
use storage_map::{index_subs, key_node};

/// A unique index in which the key of an object changes: the old and the new node of the key, none where it has no key.
#[derive(Drop)]
pub struct MovedKey {
    pub index: Text,
    pub old: Option<Node>,
    pub new: Option<Node>,
}

/// The nodes of keys, in the order of the unique indexes.
type KeyNodes = Items<Option<Node>>;

// The properties and fields of a record, whose class has these indexes.
#[derive(Clone, Copy)]
struct Indexed<'a> {
    key: &'a Key,
    indexes: &'a [Index],
    props: &'a [Prop],
    fields: &'a [Field],
}

fn with_indexes<'a>(schema: &'a Schema, key: &'a Key, kept: &'a Record) -> Indexed<'a>
    ensures key { result.key.now ≡ key.now }
    ensures indexes { result.indexes.now ≡ indexes_of (class_of schema.now kept.now.class) }
    ensures props { result.props.now ≡ props_in (class_of schema.now kept.now.class) }
    ensures fields { result.fields.now ≡ kept.now.fields }
{
    match schema.class(&kept.class) {
        None => Indexed {
            key,
            indexes: &[],
            props: &[],
            fields: kept.fields.as_slice(),
        },
        Some(class) => Indexed {
            key,
            indexes: class.indexes.as_slice(),
            props: class.props.as_slice(),
            fields: kept.fields.as_slice(),
        },
    }
}

// The node of the key of an index; none where a part of the key is empty.
fn index_node(alloc: Global, of: &Indexed<'_>, index: &Index) -> Result<Option<Node>, NoMemory>
    ensures { IfOk result (λ node. node ≡ node_in of.now.key.now (with_fields of.now.props.now of.now.fields.now) index.now) }
{
    match index_subs(alloc, index, of.props, of.fields)? {
        None => Ok(None),
        Some(subs) => Ok(Some(key_node(alloc, of.key, &index.name, subs)?)),
    }
}

fn key_nodes(alloc: Global, of: &Indexed<'_>) -> Result<KeyNodes, NoMemory>
    ensures { IfOk result (λ nodes. nodes ≡ unique_nodes (uniques_at of.now.key.now of.now.indexes.now of.now.props.now of.now.fields.now)) }
{
    let mut nodes = Items::new(alloc);
    let mut indexes = of.indexes;
    while let Some((index, more)) = indexes.split_first() {
        indexes = more;
        if index.unique {
            nodes.push(index_node(alloc, of, index)?)?;
        }
    }
    Ok(nodes)
}

// The nodes of the keys of the old record, where there is one.
fn old_nodes(alloc: Global, work: &Work<'_>) -> Result<KeyNodes, NoMemory>
    ensures { IfOk result (λ nodes. nodes ≡ nodes_before work.now.schema.now work.now.key.now (option_copied work.now.before)) }
{
    match work.before {
        None => Ok(Items::new(alloc)),
        Some(old) => key_nodes(alloc, &with_indexes(work.schema, work.key, old)),
    }
}

fn is_equal(old: &Node, new: &Node) -> bool
    ensures { result ≡ eq_by_cmp node_cmp old.now new.now }
{
    matches!(old.compare(new), Ordering::Equal)
}

fn is_same_node(old: &Option<Node>, new: &Option<Node>) -> bool
    ensures { result ≡ same_nodes old.now new.now }
{
    match (old, new) {
        (None, None) => true,
        (Some(old), Some(new)) => is_equal(old, new),
        _ => false,
    }
}

// The first of the nodes, which is none where there is none.
fn first_node(alloc: Global, olds: &[Option<Node>]) -> Result<Option<Node>, NoMemory>
    ensures { IfOk result (λ node. node ≡ first_in olds.now) }
{
    match olds.first() {
        None => Ok(None),
        Some(None) => Ok(None),
        Some(Some(node)) => Ok(Some(node.copy(alloc)?)),
    }
}

// The nodes behind the first.
fn behind(olds: &[Option<Node>]) -> &[Option<Node>]
    ensures { result.now ≡ drop 1 olds.now }
{
    match olds.split_first() {
        None => olds,
        Some((_, rest)) => rest,
    }
}

fn push_moved(
    alloc: Global,
    index: &Index,
    old: Option<Node>,
    new: Option<Node>,
    moved: &mut Items<MovedKey>,
) -> Result<(), NoMemory>
    ensures { OnOk result (map key_seen moved.new ≡ map key_seen moved.old ++ one_moved index.now.name old new) }
{
    if is_same_node(&old, &new) {
        return Ok(());
    }
    let index = index.name.copy(alloc)?;
    moved.push(MovedKey { index, old, new })?;
    Ok(())
}

// Those of the new record's keys that differ from the old nodes.
fn moved_from(
    alloc: Global,
    of: &Indexed<'_>,
    olds: &[Option<Node>],
) -> Result<Items<MovedKey>, NoMemory>
    ensures { IfOk result (λ moved. map key_seen moved ≡ moved_by olds.now (uniques_at of.now.key.now of.now.indexes.now of.now.props.now of.now.fields.now)) }
{
    let mut moved = Items::new(alloc);
    let mut indexes = of.indexes;
    let mut rest = olds;
    while let Some((index, more)) = indexes.split_first() {
        indexes = more;
        if index.unique {
            let new = index_node(alloc, of, index)?;
            let old = first_node(alloc, rest)?;
            push_moved(alloc, index, old, new, &mut moved)?;
            rest = behind(rest);
        }
    }
    Ok(moved)
}

/// The unique indexes in which the key of the object changes, in order; an object that is new had no key. It fails only for want
/// of memory.
#[tactic(auto, using(crate::proofs::MovedLaws::keys_are))]
pub fn moved_keys(alloc: Global, work: &Work<'_>) -> Result<Items<MovedKey>, NoMemory>
    ensures { IfOk result (λ moved. map key_seen moved ≡ keys_moved_of work.now.schema.now work.now.key.now (option_copied work.now.before) work.now.after.now) }
{
    let olds = old_nodes(alloc, work)?;
    moved_from(
        alloc,
        &with_indexes(work.schema, work.key, work.after),
        olds.as_slice(),
    )
}
