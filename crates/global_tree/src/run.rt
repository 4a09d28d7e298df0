ghost use Rattle.std.specs.Prelude.{◌≡◌, ◌+◌, ◌-◌, ◌<◌, ◌≤◌, ◌^◌, ℕ, IsTrue, OnSome, vec_len, length, slice_index_or};
ghost use Rattle.std.specs.FinMap.{is_sorted};
ghost use Rattle.obj_kinds.specs.declared.node.Node.{Node};
ghost use Rattle.obj_kinds.specs.Order.{node_cmp};
ghost use Rattle.global_tree.specs.declared.place.Place.{Place};
ghost use Rattle.global_tree.specs.Run.{is_past as past, IsRun, emptied_in};

use crate::place::Place;
use obj_kinds::{Node, Nodes};
use std::cmp::Ordering;

/// Nodes with the values that were taken, in node order.
pub type Pairs = Nodes;

/// Whether the other node comes after the node and all its descendants.
#[tactic(auto, unfolding(crate::specs::Run::is_past))]
fn is_past(node: &Node, other: &Node) -> bool
    ensures { result ≡ past node.now other.now }
{
    matches!(node.compare(other), Ordering::Less) && !node.covers(other)
}

/// Where the places of the node and its descendants begin, and where they end.
pub fn run_of(places: &[(Node, Place)], node: &Node) -> (usize, usize)
    requires { IsTrue (is_sorted node_cmp places.now) }
    ensures { IsRun places.now node.now result.0 result.1 }
{
    let start = places.partition_point(|place| matches!(place.0.compare(node), Ordering::Less));
    let end = places.partition_point(|place| !is_past(node, &place.0));
    (start, end)
}

/// Empties the places from start to end.
pub fn empty_run(places: &mut Vec<(Node, Place)>, start: usize, end: usize)
    requires order { start ≤ end }
    requires within { end ≤ vec_len places.old }
    requires pins { (j : ℕ) (d : Node × Place) → start ≤ j → j < end → let e = slice_index_or places.old.items j d in OnSome e.1.value (e.1.pins + 1 < 2 ^ 64) }
    ensures { places.new.items ≡ emptied_in start (end - start) places.old.items }
{
    for at in start..end {
        places[at].1.empty();
    }
}
