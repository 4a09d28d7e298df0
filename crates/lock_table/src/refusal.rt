ghost use Rattle.std.specs.Prelude.{◌≡◌, length, map, Some, MatchOption, IfOk};
ghost use Rattle.std.specs.List.{find};
ghost use Rattle.std.specs.BTreeMap.{keys, IsOrdered};
ghost use Rattle.lock_table.specs.Holders.{holder_cmp, hold_on, keeps_out};
ghost use Rattle.lock_table.specs.Against.{IsHolderOn, IsFirstStop, NoneStops, NoneBefore, IsVerdict};

use crate::holder::Holder;
use crate::rows::{Holders, Rows};
use obj_kinds::{Mode, NoMemory, Node, Pid, Subs};
use std::alloc::Global;
use std::ops::Bound;

/// What stands against a lock.
#[derive(Drop)]
pub enum Verdict {
    /// This holder of this node.
    Refused { node: Node, holder: Holder },
    /// Nothing; the node that was asked for again.
    Free(Node),
}

/// The first of a node's holders that keeps a process out.
fn first_against(holders: &Holders, pid: Pid, mode: Mode) -> Option<Holder>
    ensures first { result ≡ find (keeps_out pid mode) (keys holders.now) }
    ensures ordered { IsOrdered holder_cmp holders.now }
{
    for (holder, _) in holders.iter() {
        if holder.keeps_out(pid, mode) {
            return Some(*holder);
        }
    }
    None
}

/// The first holder of a node that keeps a process out.
fn refuser_at(rows: &Rows, pid: Pid, node: &Node, mode: Mode) -> Option<Holder>
    ensures { IsHolderOn rows.now pid mode node.now result }
{
    match rows.get(node) {
        Some(holders) => first_against(holders, pid, mode),
        None => None,
    }
}

/// The first hold of a node or a descendant that keeps a process out. They stand in one run.
fn refuser_under<'a>(
    rows: &'a Rows,
    pid: Pid,
    node: &Node,
    mode: Mode,
) -> Option<(&'a Node, Holder)>
    requires { NoneBefore (length node.now.subs) rows.now pid mode node.now }
    ensures { MatchOption result (NoneStops rows.now pid mode node.now) (λ x. IsFirstStop rows.now pid mode node.now (hold_on x.0.now x.1)) }
{
    for (place, holders) in rows.range((Bound::Included(node), Bound::Unbounded)) {
        if !node.covers(place) {
            return None;
        }
        if let Some(holder) = first_against(holders, pid, mode) {
            return Some((place, holder));
        }
    }
    None
}

/// The first hold that keeps a process from holding a node in a mode: that of an ancestor, looked
/// up one by one, or of the node or a descendant. It fails only for want of memory.
pub fn refuser(
    alloc: Global,
    rows: &Rows,
    pid: Pid,
    node: &Node,
    mode: Mode,
) -> Result<Verdict, NoMemory>
    ensures { IfOk result (λ verdict. IsVerdict rows.now pid mode node.now verdict) }
{
    let mut way = Node {
        global: node.global.copy(alloc)?,
        subs: Subs::new(alloc),
    };
    for sub in node.subs.as_slice() {
        if let Some(holder) = refuser_at(rows, pid, &way, mode) {
            return Ok(Verdict::Refused { node: way, holder });
        }
        way.subs.push(sub.copy(alloc)?)?;
    }
    match refuser_under(rows, pid, &way, mode) {
        Some((place, holder)) => {
            let node = place.copy(alloc)?;
            Ok(Verdict::Refused { node, holder })
        }
        None => Ok(Verdict::Free(way)),
    }
}
