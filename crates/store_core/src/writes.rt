ghost use Rattle.std.specs.Prelude.{◌≡◌, ◌+◌, ◌<◌, ◌≤◌, ◌^◌, [], ◌∷◌, not, vec_len, vec_capacity, OnOk, OnErr};
ghost use Rattle.std.specs.FinMap.{get, insert, retain_keys};
ghost use Rattle.obj_kinds.specs.declared.node.Node.{Node};
ghost use Rattle.obj_kinds.specs.Order.{covers};
ghost use Rattle.tran_log.specs.Levels.{note_top, put_all, as_olds, kept_by, times, pins_of};
ghost use Rattle.tran_log.specs.Kept.{IsRising};
ghost use Rattle.store_core.specs.Machine.{killed};
ghost use Rattle.store_core.specs.Numbers.{as_value};

use crate::number::number_value;
use global_tree::{Pairs, Tree};
use obj_kinds::{NoMemory, Node, Value};
use std::alloc::Global;
use tran_log::{Log, Olds, olds_of, put_all_back, unpin_all};

/// Keeps in the top level what written nodes had before; where no level is open, their pins are
/// given back. At a want of memory the nodes have their old values again.
fn keep(tree: &mut Tree, log: &mut Log, olds: Olds) -> Result<(), NoMemory>
    requires rising { IsRising olds }
    requires pins { (n : Node) → kept_by log.old n + times olds.items n ≤ pins_of tree.old.pins n }
    ensures levels { OnOk result (log.new ≡ note_top log.old olds.items) }
    ensures globals { OnOk result (tree.new.globals ≡ tree.old.globals) }
    ensures pins { (n : Node) → pins_of tree.new.pins n + kept_by log.old n + times olds.items n ≡ pins_of tree.old.pins n + kept_by log.new n }
    ensures levels_err { OnErr result (log.new ≡ log.old) }
    ensures globals_err { OnErr result (tree.new.globals ≡ put_all tree.old.globals olds.items) }
{
    if log.level() == 0 {
        unpin_all(&olds, tree);
        return Ok(());
    }
    match log.note(olds, tree) {
        Ok(()) => Ok(()),
        Err((olds, _)) => {
            put_all_back(olds, tree);
            Err(NoMemory)
        }
    }
}

/// Puts the one pair into the list that has room for it.
fn one_old(mut olds: Olds, node: Node, before: Option<Value>) -> Olds
    requires empty { olds.items ≡ [] }
    requires room { 1 ≤ vec_capacity olds }
    ensures { result.items ≡ (node, before) ∷ [] }
{
    match olds.push((node, before)) {
        Ok(()) => olds,
        Err(_) => unreachable!(),
    }
}

/// Gives a node a value. Where a level is open, the top one keeps what the node had before. At a
/// want of memory nothing changes.
pub fn set(
    alloc: Global,
    tree: &mut Tree,
    log: &mut Log,
    node: &Node,
    value: &Value,
) -> Result<(), NoMemory>
    requires room { pins_of tree.old.pins node.now + 1 < 2 ^ 64 }
    requires pins { (n : Node) → kept_by log.old n ≤ pins_of tree.old.pins n }
    ensures levels { OnOk result (log.new ≡ note_top log.old ((node.now, get tree.old.globals node.now) ∷ [])) }
    ensures globals { OnOk result (tree.new.globals ≡ insert tree.old.globals node.now value.now) }
    ensures pins { (n : Node) → pins_of tree.new.pins n + kept_by log.old n ≡ pins_of tree.old.pins n + kept_by log.new n }
    ensures err { OnErr result ((log.new ≡ log.old) × (tree.new.globals ≡ tree.old.globals)) }
{
    let place = node.copy(alloc)?;
    let key = node.copy(alloc)?;
    let value = value.copy(alloc)?;
    let olds = Vec::with_capacity(alloc, 1)?;
    let before = tree.set(key, value)?;
    keep(tree, log, one_old(olds, place, before))
}

/// Gives the taken nodes their values again.
fn put_taken_back(mut pairs: Pairs, tree: &mut Tree)
    requires pins { (n : Node) → times pairs n ≤ pins_of tree.old.pins n }
    ensures globals { tree.new.globals ≡ put_all tree.old.globals (as_olds pairs) }
    ensures pins { (n : Node) → pins_of tree.new.pins n + times pairs n ≡ pins_of tree.old.pins n }
{
    while let Some(pair) = pairs.pop() {
        let (node, value) = pair;
        tree.put_back(&node, Some(value));
        tree.unpin(&node);
    }
}

/// Takes a node and its descendants away. Where a level is open, the top one keeps what they had.
/// At a want of memory nothing changes.
pub fn kill(alloc: Global, tree: &mut Tree, log: &mut Log, node: &Node) -> Result<(), NoMemory>
    requires room { (n : Node) → pins_of tree.old.pins n + 1 < 2 ^ 64 }
    requires pins { (n : Node) → kept_by log.old n ≤ pins_of tree.old.pins n }
    ensures levels { OnOk result (log.new ≡ note_top log.old (killed tree.old.globals node.now)) }
    ensures globals { OnOk result (tree.new.globals ≡ retain_keys tree.old.globals (λ m. not (covers node.now m))) }
    ensures pins { (n : Node) → pins_of tree.new.pins n + kept_by log.old n ≡ pins_of tree.old.pins n + kept_by log.new n }
    ensures err { OnErr result ((log.new ≡ log.old) × (tree.new.globals ≡ tree.old.globals)) }
{
    let taken = tree.take_under(alloc, node)?;
    match olds_of(alloc, taken) {
        Ok(olds) => keep(tree, log, olds),
        Err((taken, _)) => {
            put_taken_back(taken, tree);
            Err(NoMemory)
        }
    }
}

/// Gives a node a value that no level keeps. At a want of memory nothing changes.
pub fn put(alloc: Global, tree: &mut Tree, node: &Node, value: Value) -> Result<(), NoMemory>
    requires room { pins_of tree.old.pins node.now + 1 < 2 ^ 64 }
    ensures globals { OnOk result (tree.new.globals ≡ insert tree.old.globals node.now value) }
    ensures pins { (n : Node) → pins_of tree.new.pins n ≡ pins_of tree.old.pins n }
    ensures err { OnErr result (tree.new ≡ tree.old) }
{
    let key = node.copy(alloc)?;
    tree.set(key, value)?;
    tree.unpin(node);
    Ok(())
}

/// Stores a number, which no level keeps. At a want of memory nothing changes.
pub fn store_number(
    alloc: Global,
    tree: &mut Tree,
    node: &Node,
    number: i64,
) -> Result<(), NoMemory>
    requires room { pins_of tree.old.pins node.now + 1 < 2 ^ 64 }
    ensures globals { OnOk result (tree.new.globals ≡ insert tree.old.globals node.now (as_value number)) }
    ensures pins { (n : Node) → pins_of tree.new.pins n ≡ pins_of tree.old.pins n }
    ensures err { OnErr result (tree.new ≡ tree.old) }
{
    let value = number_value(alloc, number)?;
    put(alloc, tree, node, value)
}
