ghost use Rattle.std.specs.Prelude.{◌≡◌, IfOk, IfErr, None, option_map};
ghost use Rattle.std.specs.List.{find, list_all};
ghost use Rattle.obj_kinds.specs.Limits.{is_legal_node};
ghost use Rattle.record_layout.specs.Rows.{below};
ghost use Rattle.record_layout.specs.Reading.{Read};
ghost use Rattle.record_reading.specs.Rows.{read_record};
ghost use Rattle.record_reading.specs.Damage.{has_legal_entries as legal_entries, is_strange, unread_node, over, damage};
ghost use Rattle.record_reading.specs.Answers.{Names};

use crate::error::{FormError, ReadError};
use crate::reading::{Stored, read_stored};
use obj_kinds::{NoMemory, Node, Pairs, Subs, Value};
use schema_kinds::{Key, Record, Schema};
use std::alloc::Global;
use storage_map::{data_node, entry_list, rows};

// The node at the end of a way below the row.
fn node_below(row: Node, way: Subs) -> Result<Node, NoMemory>
    ensures { IfOk result (λ node. node ≡ below row way) }
{
    let mut node = row;
    node.subs.append(way)?;
    Ok(node)
}

// The record that is read, or the node at which reading stops.
#[tactic(auto, unfolding(crate::specs::Rows::read_record))]
fn read_record(
    alloc: Global,
    schema: &Schema,
    key: &Key,
    nodes: &Pairs,
) -> Result<Record, FormError>
    ensures record { IfOk result (λ r. read_record schema.now key.now nodes.now ≡ Read r) }
    ensures damaged { IfErr result (Names (unread_node schema.now key.now nodes.now)) }
{
    let row = data_node(alloc, key)?;
    let stored = Stored {
        schema,
        row: &row,
        nodes,
    };
    match read_stored(alloc, &stored, &key.extent) {
        Ok(record) => Ok(record),
        Err(ReadError::NoMemory) => Err(FormError::NoMemory),
        Err(ReadError::Damaged(way)) => Err(FormError::Damaged(node_below(row, way)?)),
    }
}

fn are_legal(entries: &[(Node, Value)]) -> bool
    ensures { result ≡ list_all (λ e. is_legal_node e.0) entries.now }
{
    entries.iter().all(|entry| entry.0.is_legal())
}

/// Whether each entry of the record is within the limits of a node. It fails only for want of memory.
#[tactic(auto, unfolding(storage_map::specs::Entries::has_legal_entries), using(crate::proofs::DamageLaws::all_legal))]
pub fn has_legal_entries(
    alloc: Global,
    schema: &Schema,
    key: &Key,
    record: &Record,
) -> Result<bool, NoMemory>
    ensures { IfOk result (λ legal. legal ≡ legal_entries schema.now key.now «record».now) }
{
    let entries = entry_list(alloc, schema, key, record)?;
    Ok(are_legal(entries.as_slice()))
}

// The first node that isn't in the rows of the record.
fn strange_node(
    alloc: Global,
    schema: &Schema,
    key: &Key,
    record: &Record,
    nodes: &Pairs,
) -> Result<Option<Node>, NoMemory>
    ensures { IfOk result (λ node. node ≡ option_map (λ e. e.0) (find (is_strange schema.now key.now «record».now) nodes.now)) }
{
    let rows = rows(alloc, schema, key, record)?;
    for pair in nodes.as_slice() {
        if rows.get(&pair.0).is_none() {
            return Ok(Some(pair.0.copy(alloc)?));
        }
    }
    Ok(None)
}

// The record that was read, unless an entry of it passes a limit or some node is none of its rows.
fn judged(
    alloc: Global,
    schema: &Schema,
    key: &Key,
    nodes: &Pairs,
    record: Record,
) -> Result<Record, FormError>
    ensures record { IfOk result (λ r. (r ≡ «record») × (over schema.now key.now nodes.now «record» ≡ None)) }
    ensures damaged { IfErr result (Names (over schema.now key.now nodes.now «record»)) }
{
    let legal = match has_legal_entries(alloc, schema, key, &record) {
        Ok(legal) => legal,
        Err(_) => return Err(FormError::NoMemory),
    };
    if !legal {
        return match data_node(alloc, key) {
            Ok(row) => Err(FormError::Damaged(row)),
            Err(_) => Err(FormError::NoMemory),
        };
    }
    match strange_node(alloc, schema, key, &record, nodes) {
        Ok(None) => Ok(record),
        Ok(Some(node)) => Err(FormError::Damaged(node)),
        Err(_) => Err(FormError::NoMemory),
    }
}

/// The record whose rows the nodes are. Else `Damaged` names the first of these four that there is: the row,
/// where it is missing; the first node in the order of reading that is missing or has the wrong form; the row,
/// where an entry of the record would pass a limit; the first node that isn't in the rows of the record.
#[tactic(auto, using(crate::proofs::DamageLaws::damage_read, crate::proofs::DamageLaws::damage_unread))]
pub fn record_from(
    alloc: Global,
    schema: &Schema,
    key: &Key,
    nodes: &Pairs,
) -> Result<Record, FormError>
    ensures record { IfOk result (λ r. (damage schema.now key.now nodes.now ≡ None) × (read_record schema.now key.now nodes.now ≡ Read r)) }
    ensures damaged { IfErr result (Names (damage schema.now key.now nodes.now)) }
{
    match read_record(alloc, schema, key, nodes) {
        Ok(record) => judged(alloc, schema, key, nodes, record),
        Err(error) => Err(error),
    }
}
