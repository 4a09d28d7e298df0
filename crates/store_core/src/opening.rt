ghost use Rattle.std.specs.Prelude.{◌≡◌, IfOk, IsTrue};
ghost use Rattle.std.specs.FinMap.{from_entries, is_sorted};
ghost use Rattle.obj_kinds.specs.declared.node.Node.{Node};
ghost use Rattle.obj_kinds.specs.Order.{node_cmp};
ghost use Rattle.global_tree.specs.Contents.{pins_of};
ghost use Rattle.store_core.specs.Tied.{fresh};

use crate::writes::put;
use global_tree::Tree;
use obj_kinds::{NoMemory, Node, Value};
use std::alloc::Global;
use tran_log::Log;

/// The tree of these nodes, without pins.
pub fn tree_of(alloc: Global, nodes: &[(Node, Value)]) -> Result<Tree, NoMemory>
    requires { IsTrue (is_sorted node_cmp nodes.now) }
    ensures globals { IfOk result (λ tree. tree.globals ≡ from_entries nodes.now) }
    ensures pins { IfOk result (λ tree. (n : Node) → pins_of tree.pins n ≡ 0) }
{
    let mut tree = Tree::new(alloc);
    for pair in nodes {
        put(alloc, &mut tree, &pair.0, pair.1.copy(alloc)?)?;
    }
    Ok(tree)
}

/// The logs of so many live processes.
pub fn fresh_logs(alloc: Global, pids: u32) -> Result<Vec<Option<Log>>, NoMemory>
    ensures { IfOk result (λ logs. logs.items ≡ fresh pids) }
{
    let mut logs = Vec::with_capacity(alloc, pids as usize)?;
    for _ in 0..pids {
        logs.push(Some(Log::new(alloc)))?;
    }
    Ok(logs)
}
