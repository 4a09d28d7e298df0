ghost use Rattle.std.specs.Prelude.{◌≡◌, IfOk, filter, map};
ghost use Rattle.oref_table.specs.Memory.{IsLive};
ghost use Rattle.object_calls.specs.Memories.{is_modified as counts_as_modified, written};
ghost use Rattle.object_members.specs.Seeing.{memories};

use crate::modified::{Objects, is_modified};
use crate::reach::{Numbers, reach_of};
use item_rows::Rows;
use obj_kinds::NoMemory;
use oref_table::{Oref, Orefs, Table};
use schema_kinds::Schema;
use std::alloc::Global;

// Those that are modified, in the same order.
fn modified_of(alloc: Global, of: &Objects<'_>, found: &Numbers) -> Result<Orefs, NoMemory>
    ensures { IfOk result (λ orefs. map (λ o. o.0) orefs ≡ filter (counts_as_modified (memories of.now.schema.now) of.now.table.now) found.now.keys) }
{
    let mut orefs = Rows::new(alloc);
    for number in found {
        let oref = Oref(*number);
        if is_modified(of, oref) {
            orefs.push(oref)?;
        }
    }
    Ok(orefs)
}

/// What a save of the root writes: the modified persistent objects that it reaches by OREFs in slots, items, pairs, parts and
/// members, in the order of their numbers. An object is modified where it is new, or it or a part of it was changed since it was
/// read or saved. It looks at each object that is reached once, and at its parts once more; the table stays as it is. It fails
/// only for want of memory.
#[tactic(auto, unfolding(object_calls::specs::Memories::written))]
pub fn save_set(
    alloc: Global,
    table: &Table,
    schema: &Schema,
    root: Oref,
) -> Result<Orefs, NoMemory>
    requires { IsLive table.now root.0 }
    ensures { IfOk result (λ orefs. map (λ o. o.0) orefs ≡ written (memories schema.now) table.now root.0) }
{
    let found = reach_of(alloc, table, root)?;
    modified_of(alloc, &Objects { table, schema }, &found)
}
