ghost use Rattle.std.specs.Prelude.{◌≡◌, ◌++◌, IfOk, OnOk};
ghost use Rattle.std.specs.FinMap.{from_entries, entries as listed};
ghost use Rattle.obj_kinds.specs.Order.{node_cmp};
ghost use Rattle.storage_map.specs.Ordered.{put_all};

use obj_kinds::{NoMemory, Node, Nodes, Pairs, Value};
use sqlite_items::Items;
use std::alloc::Global;
use std::collections::BTreeMap;

#[tactic(auto, using(crate::proofs::OrderedLaws::last_put))]
// Puts each pair into the map, the last one first, so that of two at one node the first stays.
fn put_nodes(nodes: Nodes, map: &mut BTreeMap<Node, Value>) -> Result<(), NoMemory>
    ensures { OnOk result (map.new.entries ≡ put_all map.old.entries nodes) }
{
    let mut rest = nodes;
    while let Some((node, value)) = rest.pop() {
        map.insert(node, value)?;
    }
    Ok(())
}

fn into_nodes(alloc: Global, map: BTreeMap<Node, Value>) -> Result<Nodes, NoMemory>
    ensures { IfOk result (λ nodes. nodes ≡ map.entries) }
{
    let mut nodes = Items::new(alloc);
    for (node, value) in map {
        nodes.push((node, value))?;
    }
    Ok(nodes)
}

/// The pairs in node order; of two at one node the first stays. It fails only for want of memory.
#[tactic(auto, using(crate::proofs::OrderedLaws::all_put, crate::proofs::ChangeLaws::listed_rises))]
pub fn in_order(alloc: Global, nodes: Nodes) -> Result<Pairs, NoMemory>
    ensures { IfOk result (λ ordered. ordered ≡ listed (from_entries {R = node_cmp} nodes)) }
{
    let mut map = BTreeMap::new(alloc);
    put_nodes(nodes, &mut map)?;
    let ordered = into_nodes(alloc, map)?;
    Ok(Pairs::from_rising(ordered))
}
