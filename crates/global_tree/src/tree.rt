ghost use Rattle.std.specs.Prelude.{◌≡◌, true, not, filter, ◌+◌, ◌<◌, ◌≤◌, ◌^◌, ◌↔◌, IfOk, IfSome, IfNone, OnOk, OnErr};
ghost use Rattle.std.specs.Option.{option_copied};
ghost use Rattle.std.specs.FinMap as map;
ghost use Rattle.obj_kinds.specs.Order.{node_cmp, covers};
ghost use Rattle.global_tree.specs.Contents.{pins_of, pinned, unpinned, taken_at};
ghost use Rattle.obj_kinds.specs.declared.node.Node.{Node};
ghost use Rattle.global_tree.specs.Maps.{placed};
ghost use Rattle.global_tree.specs.Below.{next_below, IsNext, IsLast, HasDescendants, state_at};

use crate::below::{first_step, is_beyond};
use crate::copies::copy_valued;
use crate::place::{Place, remove_empty};
use crate::run::{Pairs, empty_run, run_of};
use crate::search::search_node;
use obj_kinds::{NoMemory, Node, Nodes, Sub, Value};
use std::alloc::Global;
use std::marker::Model;

/// The values of nodes, and how often the place of each node is pinned.
#[derive(Drop)]
pub struct Tree {
    places: Vec<(Node, Place)>,
}

impl Model for Tree {
    ghost use Rattle.global_tree.specs.Contents.{Contents};
    ghost use Rattle.global_tree.specs.ContentsCode.{contents_code};
    ghost use Rattle.global_tree.specs.Places.{contents, IsTree};

    ghost Value = { Contents };

    ghost coded = { contents_code };

    ghost view = { λ t. contents t.places.items };

    ghost invariant = { λ t. IsTree t.places.items };
}

impl Tree {
    /// The tree without values and pins.
    pub fn new(alloc: Global) -> Tree
        ensures values { result.globals ≡ map.empty }
        ensures pins { result.pins ≡ map.empty }
    {
        Tree {
            places: Vec::new(alloc),
        }
    }

    /// The value of the node, if it has one. It takes no memory.
    pub fn get(&self, node: &Node) -> Option<&Value>
        ensures { option_copied result ≡ map.get self.now.globals node.now }
    {
        match search_node(self.places.as_slice(), node) {
            Ok(at) => self.places[at].1.value.as_ref(),
            Err(_) => None,
        }
    }

    /// Gives the node a value and answers the old one. The place, which needs fewer than 2^64 - 1
    /// pins, is pinned once more, whether it had a value or not. At a want of memory the tree stays
    /// as it was.
    pub fn set(&mut self, node: Node, value: Value) -> Result<Option<Value>, NoMemory>
        requires { pins_of self.old.pins node + 1 < 2 ^ 64 }
        ensures before { IfOk result (λ before. before ≡ map.get self.old.globals node) }
        ensures values { OnOk result (self.new.globals ≡ map.insert self.old.globals node value) }
        ensures pins { OnOk result (self.new.pins ≡ pinned self.old.pins node) }
        ensures err { OnErr result (self.new ≡ self.old) }
    {
        match search_node(self.places.as_slice(), &node) {
            Ok(at) => {
                let place = &mut self.places[at].1;
                place.pins += 1;
                Ok(place.value.replace(value))
            }
            Err(at) => {
                let place = Place {
                    value: Some(value),
                    pins: 1,
                };
                self.places.insert(at, (node, place))?;
                Ok(None)
            }
        }
    }

    /// The least subscript below the node, after the one given or from the first on, that has a
    /// value or descendants, as `$ORDER` finds it. It takes no memory.
    pub fn next(&self, node: &Node, after: Option<&Sub>) -> Option<&Sub>
        ensures next { option_copied result ≡ next_below self.now.globals node.now (option_copied after.entry) }
        ensures least { IfSome result (λ sub. IsNext self.now.globals node.now (option_copied after.entry) sub.now) }
        ensures none { IfNone result (IsLast self.now.globals node.now (option_copied after.entry)) }
    {
        let places = self.places.as_slice();
        let start = places.partition_point(|place| !is_beyond(node, after, &place.0));
        first_step(node, &places[start..])
    }

    /// 1 where the node has a value, 10 where it has descendants, 11 where both, and else 0, as
    /// `$DATA` answers. It takes no memory.
    #[tactic(auto, unfolding(crate::specs::Below::state_at))]
    pub fn defined(&self, node: &Node) -> u8
        ensures state { result ≡ state_at self.now.globals node.now }
        ensures descendants { (10 ≤ result) ↔ HasDescendants self.now.globals node.now }
    {
        match (self.get(node), self.next(node, None)) {
            (None, None) => 0,
            (Some(_), None) => 1,
            (None, Some(_)) => 10,
            (Some(_), Some(_)) => 11,
        }
    }

    /// Copies of all nodes that have a value, in node order; it fails only for want of memory.
    pub fn nodes(&self, alloc: Global) -> Result<Nodes, NoMemory>
        ensures { IfOk result (λ nodes. nodes ≡ map.entries self.now.globals) }
    {
        copy_valued(alloc, self.places.as_slice())
    }

    /// Stores the value at a pinned place, or takes it away; the pins stay. It takes no memory and
    /// always succeeds.
    pub fn put_back(&mut self, node: &Node, value: Option<Value>)
        requires { 0 < pins_of self.old.pins node.now }
        ensures values { self.new.globals ≡ placed self.old.globals node.now value }
        ensures pins { self.new.pins ≡ self.old.pins }
    {
        match search_node(self.places.as_slice(), node) {
            Ok(at) => self.places[at].1.put(value),
            Err(_) => unreachable!(),
        }
    }

    /// Takes one pin of a pinned place away. Where no pin and no value is left the place goes. It
    /// takes no memory and always succeeds.
    pub fn unpin(&mut self, node: &Node)
        requires { 0 < pins_of self.old.pins node.now }
        ensures values { self.new.globals ≡ self.old.globals }
        ensures pins { self.new.pins ≡ unpinned self.old.pins node.now }
    {
        match search_node(self.places.as_slice(), node) {
            Ok(at) => {
                self.places[at].1.pins -= 1;
                remove_empty(&mut self.places, at);
            }
            Err(_) => unreachable!(),
        }
    }

    /// Takes the values of the node and of its descendants away, answers them in node order, and
    /// pins the place of each, which needs fewer than 2^64 - 1 pins, once more. At a want of memory
    /// the tree stays as it was.
    pub fn take_under(&mut self, alloc: Global, node: &Node) -> Result<Pairs, NoMemory>
        requires { (m : Node) → covers node.now m ≡ true → map.contains_key self.old.globals m ≡ true → pins_of self.old.pins m + 1 < 2 ^ 64 }
        ensures taken { IfOk result (λ taken. taken ≡ filter (λ e. covers node.now e.0) (map.entries self.old.globals)) }
        ensures values { OnOk result (self.new.globals ≡ map.retain_keys self.old.globals (λ m. not (covers node.now m))) }
        ensures pins { OnOk result ((m : Node) → pins_of self.new.pins m ≡ pins_of self.old.pins m + taken_at self.old.globals node.now m) }
        ensures err { OnErr result (self.new ≡ self.old) }
    {
        let (start, end) = run_of(self.places.as_slice(), node);
        let taken = copy_valued(alloc, &self.places.as_slice()[start..end])?;
        empty_run(&mut self.places, start, end);
        Ok(taken)
    }
}
