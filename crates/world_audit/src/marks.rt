//! The entries of whole records among the nodes.

ghost use Rattle.std.specs.Prelude.{◌≡◌, ◌∷◌, [], IfOk, OnOk, IsTrue, map, length};
ghost use Rattle.std.specs.Option.{option_copied};
ghost use Rattle.std.specs.FinMap.{find};
ghost use Rattle.obj_kinds.specs.Order.{node_cmp};
ghost use Rattle.world_audit.specs.Least.{noted, note_each};
ghost use Rattle.world_audit.specs.Marks.{is_entered as entered, entries_of as entries_of_found, lacking, lacking_of, mark, mark_all, mark_finds as marks_of_finds, no_marks};

use crate::found::{Audited, Finds, Found};
use crate::least::Least;
use obj_kinds::{NoMemory, Node, Nodes, Pairs, Value, search_pairs};
use schema_kinds::{Key, Schema};
use sqlite_items::Items;
use std::alloc::Global;
use storage_map::entry_list;

/// For each node whether it is an entry of a whole record.
pub(crate) type Marks = Vec<bool>;

// Whether an entry is there with the empty text, where this stands at its node.
fn is_entered(value: Option<&Value>) -> bool
    ensures { result ≡ entered (option_copied value.entry) }
{
    match value {
        None => false,
        Some(Value::List(_)) => false,
        Some(Value::Str(text)) => text.is_empty(),
    }
}

// Marks the node, if it is there.
fn mark_node(nodes: &Pairs, node: &Node, marks: &mut Marks)
    requires { length marks.old.items ≡ length nodes.now }
    ensures marks { marks.new.items ≡ mark nodes.now node.now marks.old.items }
    ensures long { length marks.new.items ≡ length nodes.now }
{
    if let Ok(at) = search_pairs(nodes.as_slice(), node) {
        marks[at] = true;
    }
}

// Notes the entry, if it isn't there.
fn note_lacking(
    alloc: Global,
    nodes: &Pairs,
    node: &Node,
    least: &mut Least,
) -> Result<(), NoMemory>
    ensures { OnOk result (least.new ≡ noted least.old (lacking nodes.now (node.now ∷ []))) }
{
    if !is_entered(nodes.get(node)) {
        least.note(node.copy(alloc)?);
    }
    Ok(())
}

// Marks the entries, and notes those that aren't there.
#[tactic(auto, using(crate::proofs::MarkLaws::lacking_more))]
fn mark_entries(
    alloc: Global,
    nodes: &Pairs,
    entries: &[(Node, Value)],
    marks: &mut Marks,
    least: &mut Least,
) -> Result<(), NoMemory>
    requires { length marks.old.items ≡ length nodes.now }
    ensures marks { OnOk result (marks.new.items ≡ mark_all nodes.now marks.old.items (map (λ e. e.0) entries.now)) }
    ensures long { OnOk result (length marks.new.items ≡ length nodes.now) }
    ensures least { OnOk result (least.new ≡ noted least.old (lacking nodes.now (map (λ e. e.0) entries.now))) }
{
    let mut rest = entries;
    while let Some((entry, more)) = rest.split_first() {
        rest = more;
        mark_node(nodes, &entry.0, marks);
        note_lacking(alloc, nodes, &entry.0, least)?;
    }
    Ok(())
}

fn none_marked(alloc: Global, nodes: &Pairs) -> Result<Marks, NoMemory>
    ensures { IfOk result (λ marks. marks.items ≡ no_marks nodes.now) }
{
    let mut marks = Vec::new(alloc);
    let mut rest = nodes.as_slice();
    while let Some((_, more)) = rest.split_first() {
        rest = more;
        marks.push(false)?;
    }
    Ok(marks)
}

// The entries of a whole record.
#[tactic(auto, using(crate::proofs::MarkLaws::entry_nodes_back))]
fn entries_of(alloc: Global, schema: &Schema, key: &Key, found: &Found) -> Result<Nodes, NoMemory>
    ensures { IfOk result (λ entries. map (λ e. e.0) entries ≡ entries_of_found schema.now (key.now, found.now)) }
{
    match found {
        Found::Whole(record) => entry_list(alloc, schema, key, record),
        Found::Broken(_) => Ok(Items::new(alloc)),
    }
}

fn put_marks(
    alloc: Global,
    on: &Audited<'_>,
    finds: &Finds,
    marks: &mut Marks,
    least: &mut Least,
) -> Result<(), NoMemory>
    requires { length marks.old.items ≡ length on.now.nodes.now }
    ensures marks { OnOk result (marks.new.items ≡ marks_of_finds on.now.schema.now on.now.nodes.now marks.old.items finds.now.entries) }
    ensures least { OnOk result (least.new ≡ note_each (lacking_of on.now.schema.now on.now.nodes.now) least.old finds.now.entries) }
{
    for (key, found) in finds {
        let entries = entries_of(alloc, on.schema, key, found)?;
        mark_entries(alloc, on.nodes, entries.as_slice(), marks, least)?;
    }
    Ok(())
}

/// Marks the entries of all whole records, and notes those that aren't there with the empty text. It fails only for
/// want of memory.
#[tactic(auto, using(crate::proofs::MarkLaws::none_long))]
pub(crate) fn mark_finds(
    alloc: Global,
    on: &Audited<'_>,
    finds: &Finds,
    least: &mut Least,
) -> Result<Marks, NoMemory>
    ensures marks { IfOk result (λ marks. marks.items ≡ marks_of_finds on.now.schema.now on.now.nodes.now (no_marks on.now.nodes.now) finds.now.entries) }
    ensures least { OnOk result (least.new ≡ note_each (lacking_of on.now.schema.now on.now.nodes.now) least.old finds.now.entries) }
{
    let mut marks = none_marked(alloc, on.nodes)?;
    put_marks(alloc, on, finds, &mut marks, least)?;
    Ok(marks)
}
