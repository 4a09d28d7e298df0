//! What the nodes of each key give.

ghost use Rattle.std.specs.Prelude.{◌≡◌, [], IfOk, OnOk, IsTrue, Some};
ghost use Rattle.std.specs.List.{list_all};
ghost use Rattle.obj_kinds.specs.Limits.{is_legal_node};
ghost use Rattle.world_audit.specs.Laws.{is_within};
ghost use Rattle.world_audit.specs.Owners.{row_key as key_of_row};
ghost use Rattle.world_audit.specs.Finds.{found_at, with_key, with_nodes, broken_in, broken_of};
ghost use Rattle.world_audit.specs.Least.{noted, note_each};

use crate::least::Least;
use crate::owner::row_key;
use crate::run::nodes_under;
use obj_kinds::{NoMemory, Node, Pairs};
use record_reading::{FormError, record_from};
use schema_kinds::{Key, Record, Schema};
use std::alloc::Global;
use std::collections::BTreeMap;
use storage_map::data_node;

/// What the nodes of a key give.
#[derive(Debug, Drop)]
pub(crate) enum Found {
    /// The record whose rows they are.
    Whole(Record),
    /// The node that tells why they give no record.
    Broken(Node),
}

/// What the nodes of each key give.
pub(crate) type Finds = BTreeMap<Key, Found>;

/// What is audited.
#[derive(Clone, Copy)]
pub(crate) struct Audited<'a> {
    /// The schema.
    pub schema: &'a Schema,
    /// All nodes.
    pub nodes: &'a Pairs,
}

#[tactic(auto, unfolding(crate::specs::Finds::found_at))]
fn found_of(alloc: Global, schema: &Schema, nodes: &Pairs, key: &Key) -> Result<Found, NoMemory>
    ensures { IfOk result (λ found. found ≡ found_at schema.now nodes.now key.now) }
{
    let row = data_node(alloc, key)?;
    let own = nodes_under(alloc, nodes, &row)?;
    match record_from(alloc, schema, key, &own) {
        Ok(record) => Ok(Found::Whole(record)),
        Err(FormError::Damaged(node)) => Ok(Found::Broken(node)),
        Err(FormError::NoMemory) => Err(NoMemory),
    }
}

// What the nodes of the key give, unless it is known.
#[tactic(auto, unfolding(schema_kinds::specs::Worlds::key_cmp))]
fn put_key(
    alloc: Global,
    schema: &Schema,
    nodes: &Pairs,
    key: Key,
    finds: &mut Finds,
) -> Result<(), NoMemory>
    ensures { OnOk result (finds.new.entries ≡ with_key schema.now nodes.now finds.old.entries (Some key)) }
{
    if finds.contains_key(&key) {
        return Ok(());
    }
    let found = found_of(alloc, schema, nodes, &key)?;
    finds.insert(key, found)?;
    Ok(())
}

// The same for the key of a node, where it is at a row or below one.
fn put_node(
    alloc: Global,
    schema: &Schema,
    nodes: &Pairs,
    node: &Node,
    finds: &mut Finds,
) -> Result<(), NoMemory>
    requires { IsTrue (is_legal_node node.now) }
    ensures { OnOk result (finds.new.entries ≡ with_key schema.now nodes.now finds.old.entries (key_of_row schema.now node.now)) }
{
    match row_key(alloc, schema, node)? {
        Some(key) => put_key(alloc, schema, nodes, key, finds),
        None => Ok(()),
    }
}

/// What the nodes of each key give, for all keys that have a node at their row or below it. The nodes of a key are
/// looked at once. It fails only for want of memory.
pub(crate) fn find_all(alloc: Global, schema: &Schema, nodes: &Pairs) -> Result<Finds, NoMemory>
    requires { IsTrue (list_all is_within nodes.now) }
    ensures { IfOk result (λ finds. finds.entries ≡ with_nodes schema.now nodes.now [] nodes.now) }
{
    let mut finds = BTreeMap::new(alloc);
    let mut rest = nodes.as_slice();
    while let Some((pair, more)) = rest.split_first() {
        rest = more;
        put_node(alloc, schema, nodes, &pair.0, &mut finds)?;
    }
    Ok(finds)
}

// Notes the node that tells why the nodes of a key give no record.
fn note_broken(alloc: Global, found: &Found, least: &mut Least) -> Result<(), NoMemory>
    ensures { OnOk result (least.new ≡ noted least.old (broken_in found.now)) }
{
    match found {
        Found::Whole(_) => Ok(()),
        Found::Broken(node) => {
            least.note(node.copy(alloc)?);
            Ok(())
        }
    }
}

/// Notes the nodes that tell why the nodes of keys give no records. It fails only for want of memory.
pub(crate) fn note_all_broken(
    alloc: Global,
    finds: &Finds,
    least: &mut Least,
) -> Result<(), NoMemory>
    ensures { OnOk result (least.new ≡ note_each broken_of least.old finds.now.entries) }
{
    for (_, found) in finds {
        note_broken(alloc, found, least)?;
    }
    Ok(())
}
