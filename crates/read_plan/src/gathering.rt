ghost use Rattle.std.specs.Prelude.{◌≡◌, ◌++◌, ℕ, IfOk};
ghost use Rattle.std.specs.List.{flat_map};
ghost use Rattle.store_calls.specs.Calls.{Tag};
ghost use Rattle.read_plan.specs.Reads.{gathered as gathered_in, tried_of};

use crate::call::{Outcome, ReadCall};
use crate::phase::Begun;
use obj_kinds::{Cause, NoMemory};
use record_reading::{Arrays, has_legal_entries, merged};
use schema_kinds::{FieldPairs, Fields, Record, copy_field_pairs, copy_fields};
use sqlite_items::Items;
use std::alloc::Global;
use storage_map::data_node;

// The fields that stand in rows.
fn own_fields(alloc: Global, begun: &Begun<'_>) -> Result<Fields, NoMemory>
    ensures { IfOk result (λ fields. fields ≡ begun.now.first ++ flat_map (λ fields. fields) begun.now.lists) }
{
    let mut own = copy_fields(alloc, begun.first.as_slice())?;
    for list in begun.lists.as_slice() {
        own.append(copy_fields(alloc, list.as_slice())?)?;
    }
    Ok(own)
}

fn copy_arrays(alloc: Global, maps: &[FieldPairs]) -> Result<Arrays, NoMemory>
    ensures { IfOk result (λ copy. copy ≡ maps.now) }
{
    let mut copy = Items::new(alloc);
    for pairs in maps {
        copy.push(copy_field_pairs(alloc, pairs.as_slice())?)?;
    }
    Ok(copy)
}

/// The record, where all was read. It fails only for want of memory.
pub fn gathered(
    alloc: Global,
    call: ReadCall<'_, '_>,
    begun: &Begun<'_>,
    maps: &[FieldPairs],
) -> Result<Outcome, NoMemory>
    ensures { IfOk result (λ outcome. (tag : Tag) (most : ℕ) → tried_of outcome ≡ gathered_in call.entry.schema.now call.entry.key.now tag most begun.now begun.now.lists maps.now) }
{
    let own = own_fields(alloc, begun)?;
    let maps = copy_arrays(alloc, maps)?;
    let fields = merged(alloc, begun.steps.props, own, maps)?;
    let class = begun.class.copy(alloc)?;
    let record = Record { class, fields };
    if has_legal_entries(alloc, call.schema, call.key, &record)? {
        Ok(Ok(Some(record)))
    } else {
        Ok(Err(Cause::Damaged(data_node(alloc, call.key)?)))
    }
}
