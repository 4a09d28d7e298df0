ghost use Rattle.std.specs.Prelude.{◌≡◌, IfOk};
ghost use Rattle.record_layout.specs.Rows.{data_node as row_of};
ghost use Rattle.store_calls.specs.Walks.{child};
ghost use Rattle.read_plan.specs.Reads.{named_node, asked_in};

use crate::phase::Phase;
use obj_kinds::{NoMemory, Node, Op, Sub};
use schema_kinds::Key;
use std::alloc::Global;
use storage_map::{data_node, named_below};

/// The node of a list or of an array below the row. It fails only for want of memory.
pub fn named(alloc: Global, key: &Key, name: &[u8]) -> Result<Node, NoMemory>
    ensures { IfOk result (λ node. node ≡ named_node key.now name.now) }
{
    let row = data_node(alloc, key)?;
    named_below(alloc, &row, name)
}

/// The node of an element. It fails only for want of memory.
#[tactic(auto, unfolding(store_calls::specs::Walks::child))]
pub fn element(alloc: Global, key: &Key, name: &[u8], sub: &Sub) -> Result<Node, NoMemory>
    ensures { IfOk result (λ node. node ≡ child (named_node key.now name.now) sub.now) }
{
    let mut node = named(alloc, key, name)?;
    node.subs.push(sub.copy(alloc)?)?;
    Ok(node)
}

fn copy_behind(alloc: Global, behind: &Option<Sub>) -> Result<Option<Sub>, NoMemory>
    ensures { IfOk result (λ copy. copy ≡ behind.now) }
{
    match behind {
        None => Ok(None),
        Some(sub) => Ok(Some(sub.copy(alloc)?)),
    }
}

/// What the phase of a read of the key asks; nothing where it waits for no reply. It fails only for want of memory.
pub fn operation(alloc: Global, key: &Key, phase: &Phase<'_>) -> Result<Option<Op>, NoMemory>
    ensures { IfOk result (λ op. op ≡ asked_in key.now phase.now) }
{
    match phase {
        Phase::AtRow => Ok(Some(Op::Get(data_node(alloc, key)?))),
        Phase::AtList(listing) => Ok(Some(Op::Get(named(alloc, key, listing.list.name)?))),
        Phase::AtKey(walking, behind) => {
            let node = named(alloc, key, walking.array.name)?;
            let behind = copy_behind(alloc, behind)?;
            Ok(Some(Op::Order(node, behind)))
        }
        Phase::AtElement(pending) => {
            let node = element(alloc, key, pending.walking.array.name, &pending.key)?;
            Ok(Some(Op::Get(node)))
        }
        Phase::Full(_, _) => Ok(None),
        Phase::Over(_) => Ok(None),
        Phase::Told => Ok(None),
    }
}
