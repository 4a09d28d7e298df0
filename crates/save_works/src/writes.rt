ghost use Rattle.std.specs.Prelude.{◌≡◌, ◌++◌, map, IfOk, OnOk, Some};
ghost use Rattle.std.specs.Option.{option_copied};
ghost use Rattle.storage_map.specs.Changes.{AreChanges};
ghost use Rattle.save_works.specs.Works.{kill_of, kills_of, set_of, writes_of};

use crate::locks::Askings;
use crate::tests::key_askings;
use crate::work::Work;
use asking_plan::Asking;
use obj_kinds::{NoMemory, Node, Value};
use sqlite_items::Items;
use std::alloc::Global;
use storage_map::{Edits, changes};

fn edits_of(alloc: Global, work: &Work<'_>) -> Result<Edits, NoMemory>
    ensures { IfOk result (AreChanges work.now.schema.now work.now.key.now (option_copied work.now.before) (option_copied (Some work.now.after))) }
{
    changes(alloc, work.schema, work.key, work.before, Some(work.after))
}

fn push_kills(alloc: Global, nodes: &[Node], askings: &mut Askings) -> Result<(), NoMemory>
    ensures { OnOk result (askings.new ≡ askings.old ++ map kill_of nodes.now) }
{
    let mut rest = nodes;
    while let Some((node, more)) = rest.split_first() {
        askings.push(Asking::Kill(node.copy(alloc)?))?;
        rest = more;
    }
    Ok(())
}

fn push_sets(alloc: Global, pairs: &[(Node, Value)], askings: &mut Askings) -> Result<(), NoMemory>
    ensures { OnOk result (askings.new ≡ askings.old ++ map set_of pairs.now) }
{
    let mut rest = pairs;
    while let Some((pair, more)) = rest.split_first() {
        let node = pair.0.copy(alloc)?;
        askings.push(Asking::Set(node, pair.1.copy(alloc)?))?;
        rest = more;
    }
    Ok(())
}

/// The kills of the entries that only the old record has. It fails only for want of memory.
#[tactic(auto, using(crate::proofs::WorkLaws::kills_are))]
pub fn kill_askings(alloc: Global, work: &Work<'_>) -> Result<Askings, NoMemory>
    ensures { IfOk result (λ askings. askings ≡ kills_of work.now.schema.now work.now.key.now (option_copied work.now.before) work.now.after.now) }
{
    let edits = edits_of(alloc, work)?;
    let mut askings = Items::new(alloc);
    push_kills(alloc, edits.entry_kills.as_slice(), &mut askings)?;
    Ok(askings)
}

/// The tests of new keys, and then the kills of nodes that only the old record has and the sets of its nodes and entries that are
/// new or have another value. It fails only for want of memory.
#[tactic(auto, using(crate::proofs::WorkLaws::writes_are))]
pub fn write_askings(alloc: Global, work: &Work<'_>) -> Result<Askings, NoMemory>
    ensures { IfOk result (λ askings. askings ≡ writes_of work.now.schema.now work.now.key.now (option_copied work.now.before) work.now.after.now) }
{
    let mut askings = key_askings(alloc, work)?;
    let edits = edits_of(alloc, work)?;
    push_kills(alloc, edits.row_kills.as_slice(), &mut askings)?;
    push_sets(alloc, edits.row_sets.as_slice(), &mut askings)?;
    push_sets(alloc, edits.entry_sets.as_slice(), &mut askings)?;
    Ok(askings)
}
