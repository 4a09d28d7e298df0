ghost use Rattle.std.specs.Prelude.{◌≡◌, ◌==◌, ◌&&◌, true, cond, is_some};
ghost use Rattle.std.specs.BTreeMap.{IsOrdered};
ghost use Rattle.std.specs.BTreeSet.{contains};
ghost use Rattle.obj_kinds.specs.Order.{node_cmp};
ghost use Rattle.obj_kinds.specs.declared.node.Node.{Node as AnyNode};
ghost use Rattle.lock_table.specs.declared.hold.Hold.{Hold as AnyHold};
ghost use Rattle.lock_table.specs.Holders.{holder_of, left_by};
ghost use Rattle.lock_table.specs.Table.{found, holds_node};

use crate::holder::Change;
use crate::rows::{Rows, change_node, holds_any};
use obj_kinds::{Node, Pid};
use std::collections::BTreeSet;

/// Carries a change out at all holds of a process on these nodes.
fn change_nodes(rows: &mut Rows, nodes: &BTreeSet<Node>, pid: Pid, change: Change)
    requires { IsOrdered node_cmp rows.old }
    ensures at { (q : AnyHold) → found rows.new q ≡ cond (q.pid.0 == pid.0 && contains node_cmp nodes.now q.node) (left_by change (holder_of q) (found rows.old q)) (found rows.old q) }
    ensures ordered { IsOrdered node_cmp rows.new }
{
    for node in nodes.iter() {
        change_node(rows, node, pid, change);
    }
}

/// Leaves in the list of a process the nodes that it holds.
fn keep_held(rows: &Rows, nodes: &mut BTreeSet<Node>, pid: Pid)
    ensures { (n : AnyNode) → contains node_cmp nodes.new n ≡ (holds_node rows.now n pid && contains node_cmp nodes.old n) }
{
    nodes.retain(|node| holds_any(rows, node, pid));
}

/// Carries a change out at all holds of a process. It looks at the nodes in the process's list
/// alone, and takes no memory.
pub fn change_listed(rows: &mut Rows, nodes: &mut BTreeSet<Node>, pid: Pid, change: Change)
    requires ordered { IsOrdered node_cmp rows.old }
    requires listed { (q : AnyHold) → (q.pid.0 == pid.0) ≡ true → is_some (found rows.old q) ≡ true → contains node_cmp nodes.old q.node ≡ true }
    ensures at { (q : AnyHold) → found rows.new q ≡ cond (q.pid.0 == pid.0) (left_by change (holder_of q) (found rows.old q)) (found rows.old q) }
    ensures ordered { IsOrdered node_cmp rows.new }
    ensures listed { (q : AnyHold) → (q.pid.0 == pid.0) ≡ true → is_some (found rows.new q) ≡ true → contains node_cmp nodes.new q.node ≡ true }
{
    change_nodes(rows, nodes, pid, change);
    keep_held(rows, nodes, pid);
}
