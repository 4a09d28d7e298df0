ghost use Rattle.std.specs.Prelude.{◌≡◌, ◌+◌, ◌<◌, ◌≤◌, [], length, IfOk, IfErr, OnOk, OnErr, IsOk};
ghost use Rattle.obj_kinds.specs.declared.node.Node.{Node};
ghost use Rattle.tran_log.specs.Levels.{begun, note_top, committed, rolled_back, top_undone, all_undone, kept_by, times, pins_of};
ghost use Rattle.tran_log.specs.Ends.{begun_at, ended_at};

use crate::ends::{Begun, Ended};
use crate::kept::{Kept, Olds, note_all, put_all_back};
use crate::stack::{drop_last, join_top};
use global_tree::Tree;
use obj_kinds::NoMemory;
use std::alloc::Global;
use std::marker::Model;

/// The open levels of one process, seen as the list of them with the top level first.
///
/// Each call with a tree needs as many pins at a node as levels of this log keep it; a tree may
/// hold more, for the logs of other processes.
#[derive(Drop)]
pub struct Log {
    levels: Vec<Kept>,
}

impl Model for Log {
    ghost use Rattle.std.specs.Coded.{coded_list, coded_option};
    ghost use Rattle.std.specs.FinMap.{code};
    ghost use Rattle.obj_kinds.specs.contracts.node.Node as node;
    ghost use Rattle.obj_kinds.specs.contracts.value.Value as value;
    ghost use Rattle.tran_log.specs.Levels.{Levels};
    ghost use Rattle.tran_log.specs.Kept.{levels_of, IsLog};

    ghost Value = { Levels };

    ghost coded = { coded_list (code (node.the_row).coded (coded_option (value.the_row).coded)) };

    ghost view = { λ g. levels_of g.levels.items };

    ghost invariant = { λ g. IsLog g.levels.items };
}

impl Log {
    /// The most levels of a process.
    pub const MOST: usize = 255;

    /// The log without levels.
    pub fn new(alloc: Global) -> Log
        ensures { result ≡ [] }
    {
        Log {
            levels: Vec::new(alloc),
        }
    }

    /// How many levels are open, from 0 to [`Log::MOST`].
    pub fn level(&self) -> u8
        ensures { result ≡ length self.now }
    {
        self.levels.len() as u8
    }

    /// Opens a level, unless 255 are open. At a want of memory the log stays as it was.
    pub fn begin(&mut self, alloc: Global) -> Result<Begun, NoMemory>
        ensures begun { IfOk result (λ answer. answer ≡ begun_at self.old) }
        ensures levels { OnOk result (self.new ≡ begun self.old) }
        ensures err { OnErr result (self.new ≡ self.old) }
    {
        let level = self.levels.len();
        if level >= Log::MOST {
            return Ok(Begun::TooDeep);
        }
        self.levels.push(Vec::new(alloc))?;
        Ok(Begun::Level(level as u8 + 1))
    }

    /// Keeps the value of each node that the top level doesn't have yet, and gives a pin of each
    /// other pair back. It needs an open level, and a pin of each pair beside those of the levels.
    /// At a want of memory nothing changes, and the pairs come back.
    pub fn note(&mut self, olds: Olds, tree: &mut Tree) -> Result<(), (Olds, NoMemory)>
        requires open { 0 < length self.old }
        requires pins { (n : Node) → kept_by self.old n + times olds.items n ≤ pins_of tree.old.pins n }
        ensures levels { OnOk result (self.new ≡ note_top self.old olds.items) }
        ensures globals { tree.new.globals ≡ tree.old.globals }
        ensures pins { OnOk result ((n : Node) → pins_of tree.new.pins n + kept_by self.old n + times olds.items n ≡ pins_of tree.old.pins n + kept_by self.new n) }
        ensures err { IfErr result (λ e. (e.0.items ≡ olds.items) × (self.new ≡ self.old) × (tree.new ≡ tree.old)) }
    {
        let top = self.levels.len() - 1;
        match self.levels[top].reserve(olds.len()) {
            Err(_) => Err((olds, NoMemory)),
            Ok(()) => {
                note_all(&mut self.levels[top], olds, tree);
                Ok(())
            }
        }
    }

    /// Ends the top level and keeps its writes. An inner level adds to the one below what that
    /// lacks, and every pin that no level needs any more is given back. The outermost level ends
    /// without memory; at a want of memory nothing changes.
    pub fn commit(&mut self, tree: &mut Tree) -> Result<Ended, NoMemory>
        requires { (n : Node) → kept_by self.old n ≤ pins_of tree.old.pins n }
        ensures ended { IfOk result (λ answer. answer ≡ ended_at self.old) }
        ensures levels { OnOk result (self.new ≡ committed self.old) }
        ensures globals { tree.new.globals ≡ tree.old.globals }
        ensures pins { OnOk result ((n : Node) → pins_of tree.new.pins n + kept_by self.old n ≡ pins_of tree.old.pins n + kept_by self.new n) }
        ensures outermost { length self.old ≤ 1 → IsOk result }
        ensures err { OnErr result ((self.new ≡ self.old) × (tree.new ≡ tree.old)) }
    {
        match self.levels.len() {
            0 => Ok(Ended::NoTran),
            1 => {
                drop_last(&mut self.levels, tree);
                Ok(Ended::Level(0))
            }
            level => {
                join_top(&mut self.levels, tree)?;
                Ok(Ended::Level(level as u8 - 1))
            }
        }
    }

    /// Undoes the top level: each of its nodes has its kept value again. It takes no memory and
    /// always succeeds.
    pub fn undo_one(&mut self, tree: &mut Tree) -> Ended
        requires { (n : Node) → kept_by self.old n ≤ pins_of tree.old.pins n }
        ensures ended { result ≡ ended_at self.old }
        ensures levels { self.new ≡ rolled_back self.old }
        ensures globals { tree.new.globals ≡ top_undone tree.old.globals self.old }
        ensures pins { (n : Node) → pins_of tree.new.pins n + kept_by self.old n ≡ pins_of tree.old.pins n + kept_by self.new n }
    {
        let Some(top) = self.levels.pop() else {
            return Ended::NoTran;
        };
        put_all_back(top, tree);
        Ended::Level(self.levels.len() as u8)
    }

    /// Undoes all levels, from the top. It takes no memory and always succeeds.
    pub fn undo_all(&mut self, tree: &mut Tree)
        requires { (n : Node) → kept_by self.old n ≤ pins_of tree.old.pins n }
        ensures levels { self.new ≡ [] }
        ensures globals { tree.new.globals ≡ all_undone tree.old.globals self.old }
        ensures pins { (n : Node) → pins_of tree.new.pins n + kept_by self.old n ≡ pins_of tree.old.pins n }
    {
        while self.level() > 0 {
            self.undo_one(tree);
        }
    }
}
