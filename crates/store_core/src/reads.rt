ghost use Rattle.std.specs.Prelude.{◌≡◌, IfOk};
ghost use Rattle.std.specs.Option.{option_copied};
ghost use Rattle.std.specs.FinMap.{get as value_of};
ghost use Rattle.global_tree.specs.Below.{next_below, state_at};
ghost use Rattle.obj_kinds.specs.declared.op.Reply.TheVariants.{State as Told};
ghost use Rattle.store_core.specs.Machine.{found_or, next_or};

use global_tree::Tree;
use obj_kinds::{NoMemory, Node, Reply, Sub};
use std::alloc::Global;

/// The value of a node.
pub fn get(alloc: Global, tree: &Tree, node: &Node) -> Result<Reply, NoMemory>
    ensures { IfOk result (λ r. r ≡ found_or (value_of tree.now.globals node.now)) }
{
    match tree.get(node) {
        None => Ok(Reply::Absent),
        Some(value) => Ok(Reply::Found(value.copy(alloc)?)),
    }
}

/// Whether a node has a value, and whether it has descendants.
pub fn defined(tree: &Tree, node: &Node) -> Reply
    ensures { result ≡ Told (state_at tree.now.globals node.now) }
{
    Reply::State(tree.defined(node))
}

/// The next subscript below a node.
pub fn order(
    alloc: Global,
    tree: &Tree,
    node: &Node,
    after: &Option<Sub>,
) -> Result<Reply, NoMemory>
    ensures { IfOk result (λ r. r ≡ next_or (next_below tree.now.globals node.now after.now)) }
{
    match tree.next(node, after.as_ref()) {
        None => Ok(Reply::NoNext),
        Some(sub) => Ok(Reply::Next(sub.copy(alloc)?)),
    }
}
