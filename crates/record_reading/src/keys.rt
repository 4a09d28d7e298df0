ghost use Rattle.std.specs.Prelude.{◌≡◌, IsTrue, IfOk, None};
ghost use Rattle.std.specs.Option.{option_copied};
ghost use Rattle.std.specs.FinMap.{is_sorted};
ghost use Rattle.std.specs.FinMap.Entries.{below_all};
ghost use Rattle.obj_kinds.specs.Order.{node_cmp};
ghost use Rattle.global_tree.specs.Below.{sub_behind as behind, step_below as step, is_after};
ghost use Rattle.record_reading.specs.Keys.{keys_after, keys_below as keys_of, IsStart};

use obj_kinds::{NoMemory, Node, Pairs, Sub, Value};
use std::alloc::Global;
use std::cmp::Ordering;

// The first subscript behind the front, if the way begins with it and goes on.
fn sub_behind<'a>(front: &[Sub], way: &'a [Sub]) -> Option<&'a Sub>
    ensures { option_copied result ≡ behind front.now way.now }
{
    match (front.split_first(), way.split_first()) {
        (None, None) => None,
        (None, Some((sub, _))) => Some(sub),
        (Some(_), None) => None,
        (Some((left, front)), Some((right, way))) => match left.compare(right) {
            Ordering::Equal => sub_behind(front, way),
            _ => None,
        },
    }
}

// The subscript by which the way from the node down to the other goes on.
#[tactic(auto, unfolding(global_tree::specs::Below::step_below))]
fn step_below<'a>(node: &Node, other: &'a Node) -> Option<&'a Sub>
    ensures { option_copied result ≡ step node.now other.now }
{
    match node.global.compare(&other.global) {
        Ordering::Equal => sub_behind(node.subs.as_slice(), other.subs.as_slice()),
        _ => None,
    }
}

fn comes_after(last: Option<&Sub>, sub: &Sub) -> bool
    ensures { result ≡ is_after (option_copied last.entry) sub.now }
{
    match last {
        None => true,
        Some(last) => matches!(last.compare(sub), Ordering::Less),
    }
}

// The subscripts below the node, as far as nodes below it stand at the front.
fn first_keys(alloc: Global, node: &Node, pairs: &[(Node, Value)]) -> Result<Vec<Sub>, NoMemory>
    requires rising { IsTrue (is_sorted node_cmp pairs.now) }
    requires behind { IsTrue (below_all node_cmp node.now pairs.now) }
    ensures { IfOk result (λ keys. keys.items ≡ keys_after node.now None pairs.now) }
{
    let mut keys = Vec::new(alloc);
    let mut last = None;
    let mut rest = pairs;
    while let Some((pair, more)) = rest.split_first() {
        rest = more;
        let Some(sub) = step_below(node, &pair.0) else {
            return Ok(keys);
        };
        if comes_after(last, sub) {
            keys.push(sub.copy(alloc)?)?;
            last = Some(sub);
        }
    }
    Ok(keys)
}

// Where the nodes begin that come behind the node.
fn start_of(node: &Node, pairs: &[(Node, Value)]) -> usize
    requires { IsTrue (is_sorted node_cmp pairs.now) }
    ensures { IsStart node.now pairs.now result }
{
    pairs.partition_point(|pair| !matches!(node.compare(&pair.0), Ordering::Less))
}

/// The subscripts by which nodes stand below the node, each once, in order. It fails only for want of memory.
#[tactic(auto, unfolding(crate::specs::Keys::keys_below))]
pub fn keys_below(alloc: Global, pairs: &Pairs, node: &Node) -> Result<Vec<Sub>, NoMemory>
    ensures { IfOk result (λ keys. keys.items ≡ keys_of node.now pairs.now) }
{
    let pairs = pairs.as_slice();
    let start = start_of(node, pairs);
    let rest = pairs.split_at(start).1;
    first_keys(alloc, node, rest)
}
