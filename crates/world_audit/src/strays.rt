//! Nodes that belong to no key, or to a key whose record hasn't them.

ghost use Rattle.std.specs.Prelude.{◌≡◌, IfOk, OnOk, IsTrue, is_some, option_to_list};
ghost use Rattle.std.specs.List.{list_all};
ghost use Rattle.std.specs.FinMap.{find};
ghost use Rattle.std.specs.Option.{option_copied};
ghost use Rattle.obj_kinds.specs.Limits.{is_legal_node};
ghost use Rattle.schema_kinds.specs.Worlds.{key_cmp};
ghost use Rattle.world_audit.specs.Laws.{is_within};
ghost use Rattle.world_audit.specs.Least.{noted};
ghost use Rattle.world_audit.specs.Openings.{is_object_node as object_node};
ghost use Rattle.world_audit.specs.Owners.{entry_owner as owner_of_entry};
ghost use Rattle.world_audit.specs.Strays.{of_found as fault_of_found, of_owner as fault_of_owner, stray_at as fault_at, stray_of as fault_of, note_strays as strays_noted};

use crate::found::{Finds, Found};
use crate::least::Least;
use crate::owner::{entry_owner, is_counter, row_key};
use obj_kinds::{NoMemory, Node, Value};
use schema_kinds::{Key, Schema};
use std::alloc::Global;
use storage_map::data_node;

// The fault by an entry of the key that its record hasn't.
#[tactic(auto, unfolding(schema_kinds::specs::Worlds::key_cmp))]
fn found_fault(
    alloc: Global,
    finds: &Finds,
    node: &Node,
    key: &Key,
) -> Result<Option<Node>, NoMemory>
    ensures { IfOk result (λ fault. fault ≡ fault_of_found node.now key.now (find key_cmp key.now finds.now.entries)) }
{
    match finds.get(key) {
        None => Ok(Some(data_node(alloc, key)?)),
        Some(Found::Broken(_)) => Ok(None),
        Some(Found::Whole(_)) => Ok(Some(node.copy(alloc)?)),
    }
}

fn owner_fault(
    alloc: Global,
    finds: &Finds,
    node: &Node,
    key: Option<Key>,
) -> Result<Option<Node>, NoMemory>
    ensures { IfOk result (λ fault. fault ≡ fault_of_owner finds.now.entries node.now key) }
{
    match key {
        None => Ok(Some(node.copy(alloc)?)),
        Some(key) => found_fault(alloc, finds, node, &key),
    }
}

// Whether it is a node of the schema, and no counter.
#[tactic(auto, unfolding(crate::specs::Openings::is_object_node))]
fn is_object_node(alloc: Global, schema: &Schema, node: &Node) -> Result<bool, NoMemory>
    ensures { IfOk result (λ is. is ≡ object_node schema.now node.now) }
{
    if !schema.is_own(node.global.as_slice()) {
        return Ok(false);
    }
    Ok(!is_counter(alloc, schema, node)?)
}

fn entry_fault(
    alloc: Global,
    schema: &Schema,
    finds: &Finds,
    node: &Node,
) -> Result<Option<Node>, NoMemory>
    requires { IsTrue (is_legal_node node.now) }
    ensures { IfOk result (λ fault. fault ≡ fault_of_owner finds.now.entries node.now (owner_of_entry schema.now node.now)) }
{
    let key = entry_owner(alloc, schema, node)?;
    owner_fault(alloc, finds, node, key)
}

// The fault by a node that is no whole record's entry.
fn stray_at(
    alloc: Global,
    schema: &Schema,
    finds: &Finds,
    node: &Node,
) -> Result<Option<Node>, NoMemory>
    requires { IsTrue (is_legal_node node.now) }
    ensures { IfOk result (λ fault. fault ≡ fault_at schema.now finds.now.entries node.now) }
{
    if !is_object_node(alloc, schema, node)? {
        return Ok(None);
    }
    match row_key(alloc, schema, node)? {
        Some(_) => Ok(None),
        None => entry_fault(alloc, schema, finds, node),
    }
}

fn stray_of(
    alloc: Global,
    schema: &Schema,
    finds: &Finds,
    node: &Node,
    is_marked: bool,
) -> Result<Option<Node>, NoMemory>
    requires { IsTrue (is_legal_node node.now) }
    ensures { IfOk result (λ fault. fault ≡ fault_of schema.now finds.now.entries node.now is_marked) }
{
    if is_marked {
        return Ok(None);
    }
    stray_at(alloc, schema, finds, node)
}

/// Nodes, and for each whether it is an entry of a whole record.
#[derive(Clone, Copy)]
pub(crate) struct Marked<'a> {
    /// The nodes.
    pub nodes: &'a [(Node, Value)],
    /// A mark for each.
    pub marks: &'a [bool],
}

/// Notes the faults by nodes that are no whole record's entries. It fails only for want of memory.
pub(crate) fn note_strays(
    alloc: Global,
    schema: &Schema,
    finds: &Finds,
    marked: &Marked<'_>,
    least: &mut Least,
) -> Result<(), NoMemory>
    requires { IsTrue (list_all is_within marked.now.nodes.now) }
    ensures { OnOk result (least.new ≡ strays_noted schema.now finds.now.entries least.old marked.now.nodes.now marked.now.marks.now) }
{
    let mut rest = marked.nodes;
    let mut marks = marked.marks;
    while let Some((pair, more)) = rest.split_first() {
        rest = more;
        let Some((mark, others)) = marks.split_first() else {
            return Ok(());
        };
        marks = others;
        let fault = stray_of(alloc, schema, finds, &pair.0, *mark)?;
        least.note_some(fault);
    }
    Ok(())
}
