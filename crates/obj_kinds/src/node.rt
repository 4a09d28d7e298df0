ghost use Rattle.std.specs.Prelude.{◌≡◌, IfOk, IsTrue, ◌↔◌};
ghost use Rattle.std.specs.List.{list_all};
ghost use Rattle.std.specs.Cmp.Lexicographic.{slice_cmp};
ghost use Rattle.obj_kinds.specs.SubOrder.{sub_cmp, is_front};
ghost use Rattle.obj_kinds.specs.Order.{node_cmp, covers};
ghost use Rattle.obj_kinds.specs.Limits.{is_global_first, is_global_byte, is_global_name, is_legal_sub, is_legal_node};

use crate::memory::NoMemory;
use crate::sub::{Sub, Subs};
use crate::text::Text;
use sqlite_items::Items;
use std::alloc::Global;
use std::cmp::Ordering;

/// A node of a global: the global's name without `^`, and the subscripts on the way down to it.
#[derive(Debug, Drop)]
pub struct Node {
    pub global: Text,
    pub subs: Subs,
}

/// The same subscripts again; it fails only for want of memory.
pub fn copy_subs(alloc: Global, subs: &[Sub]) -> Result<Subs, NoMemory>
    ensures { IfOk result (λ copy. copy ≡ subs.now) }
{
    let mut copy = Items::new(alloc);
    for sub in subs {
        copy.push(sub.copy(alloc)?)?;
    }
    Ok(copy)
}

/// Subscript by subscript; what ends first comes first.
pub fn compare_subs(left: &[Sub], right: &[Sub]) -> Ordering
    ensures { result ≡ slice_cmp sub_cmp left.now right.now }
{
    match (left.split_first(), right.split_first()) {
        (None, None) => Ordering::Equal,
        (None, Some(_)) => Ordering::Less,
        (Some(_), None) => Ordering::Greater,
        (Some((a, left)), Some((b, right))) => match a.compare(b) {
            Ordering::Equal => compare_subs(left, right),
            order => order,
        },
    }
}

/// Whether the way begins with the front, or is the front.
pub fn begins_with(way: &[Sub], front: &[Sub]) -> bool
    ensures { result ≡ is_front front.now way.now }
{
    match (front.split_first(), way.split_first()) {
        (None, _) => true,
        (Some(_), None) => false,
        (Some((a, front)), Some((b, way))) => match a.compare(b) {
            Ordering::Equal => begins_with(way, front),
            _ => false,
        },
    }
}

fn is_global_first(byte: u8) -> bool
    ensures { result ≡ is_global_first byte }
{
    byte.is_ascii_alphabetic() || byte == b'%'
}

fn is_global_byte(byte: u8) -> bool
    ensures { result ≡ is_global_byte byte }
{
    byte.is_ascii_alphanumeric() || byte == b'%' || byte == b'.'
}

fn are_global_bytes(bytes: &[u8]) -> bool
    ensures { result ≡ list_all is_global_byte bytes.now }
{
    bytes.iter().all(|byte| is_global_byte(*byte))
}

/// Whether the bytes are a global's name, without `^`: at most [`Node::MAX_NAME`] of them, a letter
/// or `%` first, and then letters, digits, `%` and dots, the last of them no dot.
#[tactic(auto, unfolding(crate::specs::Limits::is_global_name))]
pub fn is_global_name(name: &[u8]) -> bool
    ensures { result ≡ is_global_name name.now }
{
    let (Some(first), Some(last)) = (name.first(), name.last()) else {
        return false;
    };
    is_global_first(*first)
        && *last != b'.'
        && are_global_bytes(name)
        && name.len() <= Node::MAX_NAME
}

/// Whether each is within the limits of a subscript.
fn are_legal_subs(subs: &[Sub]) -> bool
    ensures { result ≡ list_all is_legal_sub subs.now }
{
    subs.iter().all(|sub| sub.is_legal())
}

impl Node {
    /// The most bytes of a global's name.
    pub const MAX_NAME: usize = 64;

    /// The most subscripts of a node.
    pub const MAX_SUBS: usize = 8;

    /// Whether it is within the limits of a node: a global's name, and at most [`Node::MAX_SUBS`]
    /// subscripts that are within theirs.
    #[tactic(auto, unfolding(crate::specs::Limits::is_legal_node))]
    pub fn is_legal(&self) -> bool
        ensures { result ≡ is_legal_node self.now }
    {
        is_global_name(self.global.as_slice())
            && self.subs.len() <= Self::MAX_SUBS
            && are_legal_subs(self.subs.as_slice())
    }

    /// Whether both are the same.
    #[tactic(auto, using(crate::proofs::SameLaws::node_is_same))]
    pub fn is_same(&self, other: &Node) -> bool
        ensures { IsTrue result ↔ (self.now ≡ other.now) }
    {
        matches!(self.compare(other), Ordering::Equal)
    }

    /// The same node again; it fails only for want of memory.
    pub fn copy(&self, alloc: Global) -> Result<Node, NoMemory>
        ensures { IfOk result (λ n. n ≡ self.now) }
    {
        let global = self.global.copy(alloc)?;
        let subs = copy_subs(alloc, self.subs.as_slice())?;
        Ok(Node { global, subs })
    }

    /// The order of nodes: by the global's name, then subscript by subscript; a node comes before
    /// its descendants.
    #[tactic(auto, unfolding(crate::specs::Order::node_cmp))]
    pub fn compare(&self, other: &Node) -> Ordering
        ensures { result ≡ node_cmp self.now other.now }
    {
        match self.global.compare(&other.global) {
            Ordering::Equal => compare_subs(self.subs.as_slice(), other.subs.as_slice()),
            order => order,
        }
    }

    /// Whether the other node is this one or a descendant of it.
    #[tactic(auto, unfolding(crate::specs::Order::covers))]
    pub fn covers(&self, other: &Node) -> bool
        ensures { result ≡ covers self.now other.now }
    {
        match self.global.compare(&other.global) {
            Ordering::Equal => begins_with(other.subs.as_slice(), self.subs.as_slice()),
            _ => false,
        }
    }
}

impl PartialEq for Node {
    ghost use Rattle.std.specs.Cmp.{eq_by_cmp_equiv, partial_equiv_from_equiv};
    ghost use Rattle.std.specs.Ordering.{eq_by_cmp};
    ghost use Rattle.obj_kinds.specs.Order.{node_cmp};
    ghost use Rattle.obj_kinds.specs.OrderLaws.{node_total};

    ghost eq = { eq_by_cmp node_cmp };

    ghost laws = { partial_equiv_from_equiv (eq_by_cmp_equiv node_total) };

    fn eq(&self, other: &Node) -> bool {
        matches!(self.compare(other), Ordering::Equal)
    }
}

impl Eq for Node {
    ghost use Rattle.std.specs.Cmp.{eq_by_cmp_equiv};
    ghost use Rattle.obj_kinds.specs.OrderLaws.{node_total};

    ghost laws = { eq_by_cmp_equiv node_total };
}

impl PartialOrd for Node {
    ghost use Rattle.std.specs.Prelude.{Some, refl};
    ghost use Rattle.std.specs.Cmp.{po};
    ghost use Rattle.obj_kinds.specs.Order.{node_cmp};
    ghost use Rattle.obj_kinds.specs.OrderLaws.{node_total};

    ghost partial_cmp = { λ a b. Some (node_cmp a b) };

    ghost laws = { po node_total (λ a b. refl) };

    fn partial_cmp(&self, other: &Node) -> Option<Ordering> {
        Some(self.cmp(other))
    }
}

impl Ord for Node {
    ghost use Rattle.std.specs.Prelude.{refl};
    ghost use Rattle.obj_kinds.specs.Order.{node_cmp};
    ghost use Rattle.obj_kinds.specs.OrderLaws.{node_total};

    ghost cmp = { node_cmp };

    ghost total = { node_total };

    ghost matches_partial_cmp = { λ a b. refl };

    ghost matches_eq = { λ a b. refl };

    fn cmp(&self, other: &Node) -> Ordering {
        self.compare(other)
    }
}
