ghost use Rattle.std.specs.Prelude.{◌≡◌, [], ◌++◌, ◌<◌, IfOk, OnOk, slice_get, option_to_list};
ghost use Rattle.class_facts.specs.Trees.{spots_in};
ghost use Rattle.class_facts.specs.Spots.{spot_of, add_spot, put_spot, add_spots};

use indexmap::IndexMap;
use obj_kinds::{NoMemory, Text};
use sqlite_items::Items;
use std::alloc::Global;
use std::marker::Model;

/// Where a member is declared: the place of its class in the list of all, and its place among the properties,
/// or among the indexes, of that class; both are counted from 0.
#[derive(Clone, Copy, Debug, PartialEq, Eq)]
pub struct Spot {
    pub class: usize,
    pub place: usize,
}

/// Names with the spots where they are declared, each name once, in the order in which they were put.
#[derive(Drop)]
pub struct SpotTable {
    spots: IndexMap<Text, Spot>,
}

impl Model for SpotTable {
    ghost use Rattle.std.specs.Prelude.{ℕ, List};
    ghost use Rattle.class_facts.specs.declared.spots.Spot.{Spot};

    ghost Value = { List (List ℕ × Spot) };

    ghost view = { λ t. t.spots.entries };
}

impl SpotTable {
    /// A table without a name.
    pub fn new(alloc: Global) -> SpotTable
        ensures { result ≡ [] }
    {
        SpotTable {
            spots: IndexMap::new(alloc),
        }
    }

    /// The spot of a name.
    pub fn find(&self, name: &Text) -> Option<Spot>
        ensures { result ≡ spot_of name.now self.now }
    {
        self.spots.get(name).copied()
    }

    /// Gives the name the spot: a name that is there keeps its place, and a new one goes last.
    pub fn put(&mut self, name: Text, spot: Spot) -> Result<(), NoMemory>
        ensures { OnOk result (self.new ≡ put_spot self.old (name, spot)) }
    {
        self.spots.insert(name, spot)?;
        Ok(())
    }

    /// Puts the name last with its spot, where it isn't there yet.
    pub fn add(&mut self, alloc: Global, name: &Text, spot: Spot) -> Result<(), NoMemory>
        ensures { OnOk result (self.new ≡ add_spot self.old (name.now, spot)) }
    {
        match self.find(name) {
            Some(_) => Ok(()),
            None => {
                self.put(name.copy(alloc)?, spot)?;
                Ok(())
            }
        }
    }

    fn add_from(&mut self, alloc: Global, other: &SpotTable, place: usize) -> Result<(), NoMemory>
        ensures { OnOk result (self.new ≡ add_spots self.old (option_to_list (slice_get other.now place))) }
    {
        if let Some((name, spot)) = other.spots.get_index(place) {
            self.add(alloc, name, *spot)?;
        }
        Ok(())
    }

    /// Puts each pair of the other table last, where its name isn't there yet.
    pub fn add_all(&mut self, alloc: Global, other: &SpotTable) -> Result<(), NoMemory>
        ensures { OnOk result (self.new ≡ add_spots self.old other.now) }
    {
        for place in 0..other.spots.len() {
            self.add_from(alloc, other, place)?;
        }
        Ok(())
    }

    /// Puts each pair last, where its name isn't there yet.
    pub fn add_pairs(&mut self, alloc: Global, pairs: &[(Text, Spot)]) -> Result<(), NoMemory>
        ensures { OnOk result (self.new ≡ add_spots self.old pairs.now) }
    {
        for pair in pairs {
            self.add(alloc, &pair.0, pair.1)?;
        }
        Ok(())
    }

    fn push_spot(&self, place: usize, spots: &mut Items<Spot>) -> Result<(), NoMemory>
        ensures { OnOk result (spots.new ≡ spots.old ++ option_to_list (slice_get (spots_in self.now) place)) }
    {
        match self.spots.get_index(place) {
            Some((_, spot)) => {
                spots.push(*spot)?;
                Ok(())
            }
            None => Ok(()),
        }
    }

    /// All its spots, in order.
    pub fn spots(&self, alloc: Global) -> Result<Items<Spot>, NoMemory>
        ensures { IfOk result (λ spots. spots ≡ spots_in self.now) }
    {
        let mut spots = Items::new(alloc);
        for place in 0..self.spots.len() {
            self.push_spot(place, &mut spots)?;
        }
        Ok(spots)
    }
}
