//! Names of methods, with the places where they are declared.

ghost use Rattle.std.specs.Prelude.{◌≡◌, [], ◌++◌, ◌<◌, IfOk, OnOk, IsTrue, length, slice_get, option_to_list};
ghost use Rattle.indexmap.specs.IndexMap.{insert_entry};
ghost use Rattle.obj_kinds.specs.Texts.{same_text};
ghost use Rattle.method_table.specs.Places.{place_in, put_last, put_all};

use indexmap::IndexMap;
use obj_kinds::{NoMemory, Text};
use std::alloc::Global;
use std::marker::Model;

/// Where a method is declared: the place of its class in the list of all, and its place among the methods that this class declares;
/// both are counted from 0.
#[derive(Clone, Copy, Debug, PartialEq, Eq)]
pub struct MethodPlace {
    pub class: usize,
    pub method: usize,
}

/// The methods of one class by their names, each name once.
#[derive(Drop)]
pub(crate) struct PlaceTable {
    places: IndexMap<Text, MethodPlace>,
}

impl Model for PlaceTable {
    ghost use Rattle.std.specs.Prelude.{ℕ, List};
    ghost use Rattle.method_table.specs.declared.table.MethodPlace.{MethodPlace};

    ghost Value = { List (List ℕ × MethodPlace) };

    ghost view = { λ t. t.places.entries };
}

impl PlaceTable {
    pub(crate) fn new(alloc: Global) -> PlaceTable
        ensures { result ≡ [] }
    {
        PlaceTable {
            places: IndexMap::new(alloc),
        }
    }

    /// The place of a name.
    pub(crate) fn find(&self, name: &Text) -> Option<MethodPlace>
        ensures { result ≡ place_in name.now self.now }
    {
        self.places.get(name).copied()
    }

    fn put_new(&mut self, name: Text, place: MethodPlace) -> Result<(), NoMemory>
        ensures { OnOk result (self.new ≡ insert_entry same_text self.old name place) }
    {
        self.places.insert(name, place)?;
        Ok(())
    }

    /// Puts the name last with its place, where it isn't there yet.
    pub(crate) fn put(
        &mut self,
        alloc: Global,
        name: &Text,
        place: MethodPlace,
    ) -> Result<(), NoMemory>
        ensures { OnOk result (self.new ≡ put_last self.old (name.now, place)) }
    {
        match self.find(name) {
            Some(_) => Ok(()),
            None => {
                self.put_new(name.copy(alloc)?, place)?;
                Ok(())
            }
        }
    }

    fn put_from(&mut self, alloc: Global, other: &PlaceTable, at: usize) -> Result<(), NoMemory>
        ensures { OnOk result (self.new ≡ put_all self.old (option_to_list (slice_get other.now at))) }
    {
        if let Some((name, place)) = other.places.get_index(at) {
            self.put(alloc, name, *place)?;
        }
        Ok(())
    }

    /// Puts each name of the other table last, where it isn't there yet.
    pub(crate) fn put_all(&mut self, alloc: Global, other: &PlaceTable) -> Result<(), NoMemory>
        ensures { OnOk result (self.new ≡ put_all self.old other.now) }
    {
        for at in 0..other.places.len() {
            self.put_from(alloc, other, at)?;
        }
        Ok(())
    }

    fn is_same_at(&self, other: &PlaceTable, at: usize) -> bool
        ensures { IsTrue result → slice_get self.now at ≡ slice_get other.now at }
    {
        match (self.places.get_index(at), other.places.get_index(at)) {
            (Some((name, place)), Some((other_name, other_place))) => {
                name == other_name && *place == *other_place
            }
            _ => false,
        }
    }

    /// Whether both have the same names in the same order, each with the same place.
    pub(crate) fn is_same(&self, other: &PlaceTable) -> bool
        ensures { IsTrue result → self.now ≡ other.now }
    {
        if self.places.len() != other.places.len() {
            return false;
        }
        for at in 0..self.places.len() {
            if !self.is_same_at(other, at) {
                return false;
            }
        }
        true
    }
}

/// Whether the tables are the same, one by one.
pub(crate) fn are_same(tables: &[PlaceTable], others: &[PlaceTable]) -> bool
    ensures { IsTrue result → tables.now ≡ others.now }
{
    match (tables.split_first(), others.split_first()) {
        (None, None) => true,
        (Some((table, tables)), Some((other, others))) => {
            table.is_same(other) && are_same(tables, others)
        }
        _ => false,
    }
}
