ghost use Rattle.std.specs.Prelude.{◌≡◌, ◌+◌, ◌<◌, ◌≤◌, [], ◌∷◌, cond, vec_len, vec_capacity};
ghost use Rattle.std.specs.Ordering.{eq_by_cmp};
ghost use Rattle.obj_kinds.specs.declared.node.Node.{Node};
ghost use Rattle.obj_kinds.specs.Order.{node_cmp};
ghost use Rattle.tran_log.specs.Levels.{noted, noted_one, put_all, has, times, pins_of};
ghost use Rattle.tran_log.specs.Kept.{level_of, IsRising};

use global_tree::{Tree, search_node};
use obj_kinds::{Node, Value};

/// Nodes, each with its value before a write or with none. The first pair of a node counts.
pub type Olds = Vec<(Node, Option<Value>)>;

/// The pairs of a level in rising node order, each node once.
pub type Kept = Vec<(Node, Option<Value>)>;

/// Keeps the value of a node that the level lacks; of any other node it gives a pin back.
#[tactic(auto, unfolding(crate::specs::Levels::noted_one))]
fn note_one(kept: &mut Kept, node: Node, value: Option<Value>, tree: &mut Tree)
    requires rising { IsRising kept.old }
    requires room { vec_len kept.old < vec_capacity kept.old }
    requires pin { has (level_of kept.old) node + 1 ≤ pins_of tree.old.pins node }
    ensures rising { IsRising kept.new }
    ensures level { level_of kept.new ≡ noted_one (level_of kept.old) node value }
    ensures room { (vec_len kept.new ≤ vec_len kept.old + 1) × (vec_capacity kept.new ≡ vec_capacity kept.old) }
    ensures globals { tree.new.globals ≡ tree.old.globals }
    ensures pins { (m : Node) → pins_of tree.new.pins m + has (level_of kept.old) m + cond (eq_by_cmp node_cmp m node) 1 0 ≡ pins_of tree.old.pins m + has (level_of kept.new) m }
{
    match search_node(kept.as_slice(), &node) {
        Ok(_) => tree.unpin(&node),
        Err(at) => match kept.insert(at, (node, value)) {
            Ok(()) => {}
            Err(_) => unreachable!(),
        },
    }
}

/// Keeps the values of the nodes that the level lacks; of each other pair it gives a pin back.
pub fn note_all(kept: &mut Kept, olds: Olds, tree: &mut Tree)
    requires rising { IsRising kept.old }
    requires room { vec_len kept.old + vec_len olds ≤ vec_capacity kept.old }
    requires pins { (m : Node) → has (level_of kept.old) m + times olds.items m ≤ pins_of tree.old.pins m }
    ensures rising { IsRising kept.new }
    ensures level { level_of kept.new ≡ noted (level_of kept.old) olds.items }
    ensures globals { tree.new.globals ≡ tree.old.globals }
    ensures pins { (m : Node) → pins_of tree.new.pins m + has (level_of kept.old) m + times olds.items m ≡ pins_of tree.old.pins m + has (level_of kept.new) m }
{
    for old in olds {
        let (node, value) = old;
        note_one(kept, node, value, tree);
    }
}

/// Gives a pin of each node back.
pub fn unpin_all(kept: &Kept, tree: &mut Tree)
    requires pins { (m : Node) → times kept.now.items m ≤ pins_of tree.old.pins m }
    ensures globals { tree.new.globals ≡ tree.old.globals }
    ensures pins { (m : Node) → pins_of tree.new.pins m + times kept.now.items m ≡ pins_of tree.old.pins m }
{
    for pair in kept {
        tree.unpin(&pair.0);
    }
}

/// Puts the kept values back, and gives a pin of each node back.
pub fn put_all_back(kept: Kept, tree: &mut Tree)
    requires rising { IsRising kept }
    requires pins { (m : Node) → times kept.items m ≤ pins_of tree.old.pins m }
    ensures globals { tree.new.globals ≡ put_all tree.old.globals kept.items }
    ensures pins { (m : Node) → pins_of tree.new.pins m + times kept.items m ≡ pins_of tree.old.pins m }
{
    for pair in kept {
        let (node, value) = pair;
        tree.put_back(&node, value);
        tree.unpin(&node);
    }
}
