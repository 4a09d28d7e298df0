ghost use Rattle.std.specs.Prelude.{◌≡◌, ◌==◌, ◌&&◌, true, false, cond, is_some, OnOk};
ghost use Rattle.std.specs.Ordering.{is_eq, nat_cmp};
ghost use Rattle.std.specs.BTreeMap.{get};
ghost use Rattle.obj_kinds.specs.Order.{node_cmp};
ghost use Rattle.obj_kinds.specs.declared.op.Pid.{Pid as AnyPid};
ghost use Rattle.obj_kinds.specs.declared.node.Node.{Node as AnyNode};
ghost use Rattle.lock_table.specs.Table.{is_listed};

use obj_kinds::{NoMemory, Node, Pid};
use std::alloc::Global;
use std::collections::{BTreeMap, BTreeSet};

/// The nodes that each process holds, by its number.
pub type Listed = BTreeMap<u32, BTreeSet<Node>>;

/// Lists a node for a process; it fails only for want of memory, and takes no node out then.
pub fn list(alloc: Global, listed: &mut Listed, pid: Pid, node: &Node) -> Result<(), NoMemory>
    ensures ok { OnOk result (is_listed listed.new pid node.now ≡ true) }
    ensures keeps { (p : AnyPid) (n : AnyNode) → is_listed listed.old p n ≡ true → is_listed listed.new p n ≡ true }
{
    open_list(alloc, listed, pid)?;
    add(alloc, listed, pid, node)
}

/// Sees to it that a process has a list.
fn open_list(alloc: Global, listed: &mut Listed, pid: Pid) -> Result<(), NoMemory>
    ensures ok { OnOk result (is_some (get nat_cmp listed.new pid.0) ≡ true) }
    ensures same { (p : AnyPid) (n : AnyNode) → is_listed listed.new p n ≡ is_listed listed.old p n }
{
    if !listed.contains_key(&pid.0) {
        listed.insert(pid.0, BTreeSet::new(alloc))?;
    }
    Ok(())
}

/// Adds a node to the list of a process, if it has one.
fn add(alloc: Global, listed: &mut Listed, pid: Pid, node: &Node) -> Result<(), NoMemory>
    requires { is_some (get nat_cmp listed.old pid.0) ≡ true }
    ensures ok { OnOk result (is_listed listed.new pid node.now ≡ true) }
    ensures keeps { (p : AnyPid) (n : AnyNode) → is_listed listed.old p n ≡ true → is_listed listed.new p n ≡ true }
{
    let copy = node.copy(alloc)?;
    if let Some(nodes) = listed.get_mut(&pid.0) {
        nodes.insert(copy)?;
    }
    Ok(())
}

/// Takes a node out of the list of a process. It takes no memory.
pub fn unlist(listed: &mut Listed, pid: Pid, node: &Node)
    ensures { (p : AnyPid) (n : AnyNode) → is_listed listed.new p n ≡ cond (pid.0 == p.0 && is_eq (node_cmp node.now n)) false (is_listed listed.old p n) }
{
    if let Some(nodes) = listed.get_mut(&pid.0) {
        nodes.remove(node);
    }
}
