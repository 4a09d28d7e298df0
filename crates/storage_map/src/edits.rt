ghost use Rattle.std.specs.Prelude.{◌≡◌, ◌++◌, IfOk};
ghost use Rattle.std.specs.Option.{option_copied};
ghost use Rattle.std.specs.FinMap.{entries as listed};
ghost use Rattle.storage_map.specs.Changes.{same_there, stale, differing, rows_if, entries_if, AreChanges};

use crate::entry_nodes::entries;
use crate::row_nodes::rows;
use obj_kinds::{NoMemory, Node, Nodes, Pairs, Value};
use schema_kinds::{Key, Record, Schema};
use sqlite_items::Items;
use std::alloc::Global;

/// What turns the nodes of one record of a key into those of another, each list in node order: the kills come
/// before the sets.
#[derive(Debug, Drop)]
pub struct Edits {
    /// The entries that only the old record has.
    pub entry_kills: Items<Node>,
    /// The other nodes that only the old record has.
    pub row_kills: Items<Node>,
    /// The nodes of the row, its lists and its arrays that are new or have another value.
    pub row_sets: Pairs,
    /// The entries that the old record lacks.
    pub entry_sets: Pairs,
}

#[tactic(auto, unfolding(crate::specs::Changes::stale))]
fn stale_nodes(alloc: Global, old: &Pairs, new: &Pairs) -> Result<Items<Node>, NoMemory>
    ensures { IfOk result (λ nodes. nodes ≡ stale old.now new.now) }
{
    let mut nodes = Items::new(alloc);
    let mut rest = old.as_slice();
    while let Some((pair, more)) = rest.split_first() {
        rest = more;
        if new.get(&pair.0).is_none() {
            nodes.push(pair.0.copy(alloc)?)?;
        }
    }
    Ok(nodes)
}

fn is_there(old: Option<&Value>, value: &Value) -> bool
    ensures { result ≡ same_there (option_copied old.entry) value.now }
{
    match old {
        None => false,
        Some(old) => old.is_same(value),
    }
}

#[tactic(auto, unfolding(crate::specs::Changes::differing))]
fn push_differing(alloc: Global, old: &Pairs, new: &[(Node, Value)]) -> Result<Nodes, NoMemory>
    ensures { IfOk result (λ nodes. nodes ≡ differing old.now new.now) }
{
    let mut nodes = Items::new(alloc);
    let mut rest = new;
    while let Some((pair, more)) = rest.split_first() {
        rest = more;
        if !is_there(old.get(&pair.0), &pair.1) {
            nodes.push((pair.0.copy(alloc)?, pair.1.copy(alloc)?))?;
        }
    }
    Ok(nodes)
}

#[tactic(auto, using(crate::proofs::ChangeLaws::differing_rise))]
fn differing_pairs(alloc: Global, old: &Pairs, new: &Pairs) -> Result<Pairs, NoMemory>
    ensures { IfOk result (λ pairs. pairs ≡ differing old.now new.now) }
{
    let nodes = push_differing(alloc, old, new.as_slice())?;
    Ok(Pairs::from_rising(nodes))
}

#[tactic(auto, using(crate::proofs::OrderedLaws::none_listed))]
fn rows_of(
    alloc: Global,
    schema: &Schema,
    key: &Key,
    kept: Option<&Record>,
) -> Result<Pairs, NoMemory>
    ensures { IfOk result (λ pairs. pairs ≡ listed (rows_if schema.now key.now (option_copied kept.entry))) }
{
    match kept {
        None => Ok(Pairs::new(alloc)),
        Some(kept) => rows(alloc, schema, key, kept),
    }
}

#[tactic(auto, using(crate::proofs::OrderedLaws::none_listed))]
fn entries_of(
    alloc: Global,
    schema: &Schema,
    key: &Key,
    kept: Option<&Record>,
) -> Result<Pairs, NoMemory>
    ensures { IfOk result (λ pairs. pairs ≡ listed (entries_if schema.now key.now (option_copied kept.entry))) }
{
    match kept {
        None => Ok(Pairs::new(alloc)),
        Some(kept) => entries(alloc, schema, key, kept),
    }
}

/// What turns the nodes of the old record of a key, if there is one, into those of the new one: kills of entries
/// and of other nodes that only the old one has, and sets of nodes that are new or have another value. It fails
/// only for want of memory.
pub fn changes(
    alloc: Global,
    schema: &Schema,
    key: &Key,
    old: Option<&Record>,
    new: Option<&Record>,
) -> Result<Edits, NoMemory>
    ensures { IfOk result (AreChanges schema.now key.now (option_copied old.entry) (option_copied new.entry)) }
{
    let old_rows = rows_of(alloc, schema, key, old)?;
    let new_rows = rows_of(alloc, schema, key, new)?;
    let old_entries = entries_of(alloc, schema, key, old)?;
    let new_entries = entries_of(alloc, schema, key, new)?;
    let entry_kills = stale_nodes(alloc, &old_entries, &new_entries)?;
    let row_kills = stale_nodes(alloc, &old_rows, &new_rows)?;
    let row_sets = differing_pairs(alloc, &old_rows, &new_rows)?;
    let entry_sets = differing_pairs(alloc, &old_entries, &new_entries)?;
    Ok(Edits {
        entry_kills,
        row_kills,
        row_sets,
        entry_sets,
    })
}
