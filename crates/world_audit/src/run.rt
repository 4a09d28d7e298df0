//! The nodes of a key, which stand together.

ghost use Rattle.std.specs.Prelude.{◌≡◌, IfOk, IsTrue};
ghost use Rattle.std.specs.FinMap.{is_sorted};
ghost use Rattle.obj_kinds.specs.Order.{node_cmp};
ghost use Rattle.world_audit.specs.Objects.{nodes_under as under};
ghost use Rattle.world_audit.specs.Runs.{front_run as run_at_front};

use obj_kinds::{NoMemory, Node, Nodes, Pairs, Value};
use sqlite_items::Items;
use std::alloc::Global;
use std::cmp::Ordering;

// Those at the front, up to the first that isn't at or below the row.
fn front_run(alloc: Global, row: &Node, pairs: &[(Node, Value)]) -> Result<Nodes, NoMemory>
    ensures { IfOk result (λ run. run ≡ run_at_front row.now pairs.now) }
{
    let mut run = Items::new(alloc);
    let mut rest = pairs;
    while let Some((pair, more)) = rest.split_first() {
        rest = more;
        if !row.covers(&pair.0) {
            return Ok(run);
        }
        run.push((pair.0.copy(alloc)?, pair.1.copy(alloc)?))?;
    }
    Ok(run)
}

// The nodes from the row on, which begin with those at it and below it.
fn from_row<'a>(pairs: &'a [(Node, Value)], row: &Node) -> &'a [(Node, Value)]
    requires { IsTrue (is_sorted node_cmp pairs.now) }
    ensures { run_at_front row.now result.now ≡ under row.now pairs.now }
{
    let start = pairs.partition_point(|pair| matches!(pair.0.compare(row), Ordering::Less));
    pairs.split_at(start).1
}

/// The nodes at the row and below it, copied; found by a search, and as many are looked at as there are. It fails only
/// for want of memory.
#[tactic(auto, using(crate::proofs::NodeLaws::under_rise))]
pub(crate) fn nodes_under(alloc: Global, nodes: &Pairs, row: &Node) -> Result<Pairs, NoMemory>
    ensures { IfOk result (λ run. run ≡ under row.now nodes.now) }
{
    let rest = from_row(nodes.as_slice(), row);
    let run = front_run(alloc, row, rest)?;
    Ok(Pairs::from_rising(run))
}
