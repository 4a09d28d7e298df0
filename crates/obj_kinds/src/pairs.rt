ghost use Rattle.std.specs.Prelude.{◌≡◌, [], ◌∷◌, ◌++◌, length, true, false, IfOk, IfErr, OnOk, OnErr, IsTrue, ◌↔◌};
ghost use Rattle.std.specs.Option.{option_copied};
ghost use Rattle.std.specs.FinMap.{find, is_sorted};
ghost use Rattle.obj_kinds.specs.Order.{node_cmp};
ghost use Rattle.obj_kinds.specs.Search.{IsHit, IsGap};
ghost use Rattle.obj_kinds.specs.Rising.{is_chain};

use crate::memory::NoMemory;
use crate::node::Node;
use crate::value::{Nodes, Value, copy_nodes};
use sqlite_items::Items;
use std::alloc::Global;
use std::cmp::Ordering;
use std::marker::Model;

/// Nodes with their values, in rising node order, each node once; seen as the list of them.
#[derive(Debug, Drop)]
pub struct Pairs {
    nodes: Nodes,
}

impl Model for Pairs {
    ghost use Rattle.std.specs.Prelude.{List, IsTrue};
    ghost use Rattle.std.specs.Coded.{coded_list, coded×};
    ghost use Rattle.std.specs.FinMap.{is_sorted};
    ghost use Rattle.obj_kinds.specs.declared.node.Node.{Node};
    ghost use Rattle.obj_kinds.specs.declared.value.Value.{Value as Stored};
    ghost use Rattle.obj_kinds.specs.contracts.node.Node as node;
    ghost use Rattle.obj_kinds.specs.contracts.value.Value as value;
    ghost use Rattle.obj_kinds.specs.Order.{node_cmp};

    ghost Value = { List (Node × Stored) };

    ghost coded = { coded_list (coded× (node.the_row).coded (value.the_row).coded) };

    ghost view = { λ p. p.nodes };

    ghost invariant = { λ p. IsTrue (is_sorted node_cmp p.nodes) };
}

/// Where the node is, or where it would go; the pairs stand in rising node order.
pub fn search_pairs<X>(pairs: &[(Node, X)], node: &Node) -> Result<usize, usize>
    requires { IsTrue (is_sorted node_cmp pairs.now) }
    ensures found { IfOk result (IsHit node_cmp pairs.now node.now) }
    ensures absent { IfErr result (IsGap node_cmp pairs.now node.now) }
{
    pairs.binary_search_by(|pair| pair.0.compare(node))
}

/// Whether each stands behind the one before it, and the first behind a node.
fn rise_behind(first: &Node, rest: &[(Node, Value)]) -> bool
    ensures { result ≡ is_chain first.now rest.now }
{
    let mut last = first;
    for pair in rest {
        if !matches!(last.compare(&pair.0), Ordering::Less) {
            return false;
        }
        last = &pair.0;
    }
    true
}

/// Whether the nodes stand in rising node order, each node once.
#[tactic(auto, using(crate::proofs::PairLaws::chain_rises))]
pub fn are_rising(pairs: &[(Node, Value)]) -> bool
    ensures { result ≡ is_sorted node_cmp pairs.now }
{
    match pairs.split_first() {
        None => true,
        Some((first, rest)) => rise_behind(&first.0, rest),
    }
}

impl Pairs {
    /// No nodes.
    pub fn new(alloc: Global) -> Pairs
        ensures { result ≡ [] }
    {
        Pairs {
            nodes: Items::new(alloc),
        }
    }

    /// These nodes, which stand in rising node order, each node once.
    pub fn from_rising(nodes: Nodes) -> Pairs
        requires { IsTrue (is_sorted node_cmp nodes) }
        ensures { result ≡ nodes }
    {
        Pairs { nodes }
    }

    /// The nodes with their values.
    pub fn as_slice(&self) -> &[(Node, Value)]
        ensures pairs { result.now ≡ self.now }
        ensures rising { IsTrue (is_sorted node_cmp self.now) }
    {
        self.nodes.as_slice()
    }

    /// The nodes with their values, as a list that forgets its order.
    pub fn into_nodes(self) -> Nodes
        ensures pairs { result ≡ self }
        ensures rising { IsTrue (is_sorted node_cmp result) }
    {
        let Pairs { nodes } = self;
        nodes
    }

    /// How many nodes there are.
    pub fn len(&self) -> usize
        ensures { result ≡ length self.now }
    {
        self.nodes.len()
    }

    /// Whether there is no node.
    pub fn is_empty(&self) -> bool
        ensures { IsTrue result ↔ (self.now ≡ []) }
    {
        self.nodes.is_empty()
    }

    /// The value of the node, where it is among them. It takes no memory.
    pub fn get(&self, node: &Node) -> Option<&Value>
        ensures { option_copied result ≡ find node_cmp node.now self.now }
    {
        let pairs = self.nodes.as_slice();
        match search_pairs(pairs, node) {
            Ok(at) => Some(&pairs[at].1),
            Err(_) => None,
        }
    }

    /// Puts a node behind the others, which all stand before it; at a want of memory nothing changes.
    pub fn push(&mut self, node: Node, value: Value) -> Result<(), NoMemory>
        requires { IsTrue (is_sorted node_cmp (self.old ++ (node, value) ∷ [])) }
        ensures ok { OnOk result (self.new ≡ self.old ++ (node, value) ∷ []) }
        ensures err { OnErr result (self.new ≡ self.old) }
    {
        self.nodes.push((node, value))?;
        Ok(())
    }

    /// The same again; it fails only for want of memory.
    pub fn copy(&self, alloc: Global) -> Result<Pairs, NoMemory>
        ensures { IfOk result (λ copy. copy ≡ self.now) }
    {
        let nodes = copy_nodes(alloc, self.nodes.as_slice())?;
        Ok(Pairs { nodes })
    }
}
