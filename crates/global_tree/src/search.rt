ghost use Rattle.std.specs.Prelude.{◌≡◌, IsTrue, IfOk, IfErr};
ghost use Rattle.obj_kinds.specs.Order.{node_cmp};
ghost use Rattle.std.specs.FinMap.{is_sorted};
ghost use Rattle.obj_kinds.specs.Search.{IsHit, IsGap};

use obj_kinds::Node;

/// Where the node is, or where it would go; the pairs stand in rising node order.
pub fn search_node<X>(pairs: &[(Node, X)], node: &Node) -> Result<usize, usize>
    requires { IsTrue (is_sorted node_cmp pairs.now) }
    ensures found { IfOk result (IsHit node_cmp pairs.now node.now) }
    ensures absent { IfErr result (IsGap node_cmp pairs.now node.now) }
{
    pairs.binary_search_by(|pair| pair.0.compare(node))
}
