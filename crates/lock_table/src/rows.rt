ghost use Rattle.std.specs.Prelude.{◌≡◌, true, false, cond, is_some, Some, None, OnOk, OnErr};
ghost use Rattle.std.specs.Ordering.{is_eq};
ghost use Rattle.std.specs.BTreeMap.{get, IsOrdered};
ghost use Rattle.obj_kinds.specs.Order.{node_cmp};
ghost use Rattle.lock_table.specs.declared.hold.Hold.{Hold as AnyHold};
ghost use Rattle.lock_table.specs.declared.holder.Holder.{Holder as AnyHolder};
ghost use Rattle.lock_table.specs.Holders.{holder_cmp, holder_of, hold_on, some_held, left_by};
ghost use Rattle.lock_table.specs.Table.{found, found_among, is_here, is_in_mode, is_of_process, holds_in_mode, holds_node};

use crate::hold::Kept;
use crate::holder::{Change, Holder};
use obj_kinds::{Mode, NoMemory, Node, Owner, Pid};
use std::alloc::Global;
use std::collections::BTreeMap;

/// How each holder of one node holds it.
pub type Holders = BTreeMap<Holder, Kept>;

/// The holders of each node that is held.
pub type Rows = BTreeMap<Node, Holders>;

/// How a hold is kept, if it is held.
pub fn look_up(rows: &Rows, node: &Node, holder: Holder) -> Option<Kept>
    ensures { result ≡ found rows.now (hold_on node.now holder) }
{
    match rows.get(node) {
        Some(holders) => look_among(holders, holder),
        None => None,
    }
}

fn look_among(holders: &Holders, holder: Holder) -> Option<Kept>
    ensures { result ≡ get holder_cmp holders.now holder }
{
    match holders.get(&holder) {
        Some(kept) => Some(*kept),
        None => None,
    }
}

/// Keeps a holder that is there anew; what is no longer held is taken out. It takes no memory.
fn rekeep(holders: &mut Holders, holder: Holder, kept: Kept)
    requires { is_some (get holder_cmp holders.old holder) ≡ true }
    ensures { (q : AnyHolder) → get holder_cmp holders.new q ≡ cond (is_eq (holder_cmp holder q)) (some_held kept) (get holder_cmp holders.old q) }
{
    if !kept.is_held() {
        holders.remove(&holder);
        return;
    }
    if let Some(place) = holders.get_mut(&holder) {
        *place = kept;
    }
}

/// Keeps a hold that is there anew, in the row of its node.
fn rekeep_at(rows: &mut Rows, node: &Node, holder: Holder, kept: Kept)
    requires { is_some (found rows.old (hold_on node.now holder)) ≡ true }
    ensures at { (q : AnyHold) → found rows.new q ≡ cond (is_here node.now holder q) (some_held kept) (found rows.old q) }
    ensures ordered { IsOrdered node_cmp rows.new }
{
    if let Some(holders) = rows.get_mut(node) {
        rekeep(holders, holder, kept);
    }
}

/// Takes the row of a node that nobody holds out.
fn tidy(rows: &mut Rows, node: &Node)
    requires { IsOrdered node_cmp rows.old }
    ensures same { (q : AnyHold) → found rows.new q ≡ found rows.old q }
    ensures ordered { IsOrdered node_cmp rows.new }
{
    if is_idle(rows, node) {
        rows.remove(node);
    }
}

/// Whether a node has a row, and nobody in it.
fn is_idle(rows: &Rows, node: &Node) -> bool
    ensures { result ≡ true → (q : AnyHolder) → found_among (get node_cmp rows.now node.now) q ≡ None }
{
    match rows.get(node) {
        Some(holders) => holders.is_empty(),
        None => false,
    }
}

/// Keeps a hold that is there anew; what is no longer held is taken out. It takes no memory.
pub fn keep_anew(rows: &mut Rows, node: &Node, holder: Holder, kept: Kept)
    requires { is_some (found rows.old (hold_on node.now holder)) ≡ true }
    ensures at { (q : AnyHold) → found rows.new q ≡ cond (is_here node.now holder q) (some_held kept) (found rows.old q) }
    ensures ordered { IsOrdered node_cmp rows.new }
{
    rekeep_at(rows, node, holder, kept);
    tidy(rows, node);
}

/// Carries a change out at one hold, if it is there.
fn change_hold(rows: &mut Rows, node: &Node, holder: Holder, change: Change)
    requires { IsOrdered node_cmp rows.old }
    ensures at { (q : AnyHold) → found rows.new q ≡ cond (is_here node.now holder q) (left_by change (holder_of q) (found rows.old q)) (found rows.old q) }
    ensures ordered { IsOrdered node_cmp rows.new }
{
    if let Some(kept) = look_up(rows, node, holder) {
        keep_anew(rows, node, holder, change.apply(holder, kept));
    }
}

/// Carries a change out at all holds of a process on a node in a mode.
fn change_mode(rows: &mut Rows, node: &Node, pid: Pid, mode: Mode, change: Change)
    requires { IsOrdered node_cmp rows.old }
    ensures at { (q : AnyHold) → found rows.new q ≡ cond (is_in_mode node.now pid mode q) (left_by change (holder_of q) (found rows.old q)) (found rows.old q) }
    ensures ordered { IsOrdered node_cmp rows.new }
{
    let script = Owner::Script;
    let object = Owner::Object;
    change_hold(
        rows,
        node,
        Holder {
            pid,
            mode,
            owner: script,
        },
        change,
    );
    change_hold(
        rows,
        node,
        Holder {
            pid,
            mode,
            owner: object,
        },
        change,
    );
}

/// Carries a change out at all holds of a process on a node. It takes no memory.
pub fn change_node(rows: &mut Rows, node: &Node, pid: Pid, change: Change)
    requires { IsOrdered node_cmp rows.old }
    ensures at { (q : AnyHold) → found rows.new q ≡ cond (is_of_process node.now pid q) (left_by change (holder_of q) (found rows.old q)) (found rows.old q) }
    ensures ordered { IsOrdered node_cmp rows.new }
{
    change_mode(rows, node, pid, Mode::Shared, change);
    change_mode(rows, node, pid, Mode::Exclusive, change);
}

/// Whether a process holds a node in any way.
pub fn holds_any(rows: &Rows, node: &Node, pid: Pid) -> bool
    ensures { result ≡ holds_node rows.now node.now pid }
{
    holds_in(rows, node, pid, Mode::Shared) || holds_in(rows, node, pid, Mode::Exclusive)
}

fn holds_in(rows: &Rows, node: &Node, pid: Pid, mode: Mode) -> bool
    ensures { result ≡ holds_in_mode rows.now node.now pid mode }
{
    let script = Owner::Script;
    let object = Owner::Object;
    look_up(
        rows,
        node,
        Holder {
            pid,
            mode,
            owner: script,
        },
    )
    .is_some()
        || look_up(
            rows,
            node,
            Holder {
                pid,
                mode,
                owner: object,
            },
        )
        .is_some()
}

/// Keeps a hold that may be new. At a want of memory the table stays as it was.
pub fn keep_new(
    alloc: Global,
    rows: &mut Rows,
    node: Node,
    holder: Holder,
    kept: Kept,
) -> Result<(), NoMemory>
    ensures at { OnOk result ((q : AnyHold) → found rows.new q ≡ cond (is_here node holder q) (Some kept) (found rows.old q)) }
    ensures ordered { IsOrdered node_cmp rows.new }
    ensures err { OnErr result ((q : AnyHold) → found rows.new q ≡ found rows.old q) }
{
    match rows.get_mut(&node) {
        Some(holders) => {
            holders.insert(holder, kept)?;
        }
        None => {
            let mut holders = BTreeMap::new(alloc);
            holders.insert(holder, kept)?;
            rows.insert(node, holders)?;
        }
    }
    Ok(())
}
