ghost use Rattle.std.specs.Prelude.{ℕ, ◌≡◌, ◌+◌, ◌≤◌, ◌<◌, ◌^◌, ◌∷◌, [], length, Some, None, Option, IsSome, OnOk};
ghost use Rattle.std.specs.Option.{option_copied};
ghost use Rattle.std.specs.HashMap.{spare};
ghost use Rattle.oref_table.specs.declared.spot.Spot.{Spot};
ghost use Rattle.oref_table.specs.Keys.{found_at, numbers_in, place_of, spot_at, spot_for, same_spot, HasSpare, IsForgotten, IsKnown, IsMore, IsPut, KeepsPlaces};

use crate::spot::Spot;
use indexmap::IndexSet;
use obj_kinds::{ClassName, Id, NoMemory, Text};
use std::alloc::Global;
use std::collections::HashMap;

/// The numbers of the objects that have an id in an extent, each found without a search.
#[derive(Drop)]
pub struct Keys {
    extents: IndexSet<Text>,
    numbers: HashMap<Spot, u64>,
}

impl Keys {
    /// No key.
    pub fn new(alloc: Global) -> Keys
        ensures { result.numbers.entries ≡ [] }
    {
        Keys {
            extents: IndexSet::new(alloc),
            numbers: HashMap::new(alloc),
        }
    }

    /// Where the key of the id in the extent stands; none where no object of the extent was met.
    fn spot_of(&self, extent: &ClassName, id: Id) -> Option<Spot>
        ensures { result ≡ spot_at id (place_of self.now.extents.keys extent.now) }
    {
        let place = self.extents.get_index_of(&extent.0)?;
        Some(Spot { extent: place, id })
    }

    /// Where the key of an object stands; none where it has no extent or no id.
    pub fn spot(&self, extent: Option<&ClassName>, id: Option<Id>) -> Option<Spot>
        ensures { result ≡ spot_for (place_of self.now.extents.keys) (option_copied extent.entry) id }
    {
        self.spot_of(extent?, id?)
    }

    /// The number of the object with the id in the extent.
    pub fn find(&self, extent: &ClassName, id: Id) -> Option<u64>
        ensures { result ≡ found_at (spot_at id (place_of self.now.extents.keys extent.now)) (numbers_in self.now.numbers.entries) }
    {
        let spot = self.spot_of(extent, id)?;
        self.numbers.get(&spot).copied()
    }

    /// Gives the extent a place, if it has none yet; for want of memory nothing changes.
    fn meet(&mut self, alloc: Global, extent: &ClassName) -> Result<(), NoMemory>
        ensures places { KeepsPlaces (place_of self.old.extents.keys) (place_of self.new.extents.keys) }
        ensures met { OnOk result (IsSome (place_of self.new.extents.keys extent.now)) }
        ensures numbers { self.new.numbers ≡ self.old.numbers }
    {
        if self.extents.get_index_of(&extent.0).is_some() {
            return Ok(());
        }
        self.extents.insert(extent.0.copy(alloc)?)?;
        Ok(())
    }

    fn meet_any(&mut self, alloc: Global, extent: Option<&ClassName>) -> Result<(), NoMemory>
        ensures places { KeepsPlaces (place_of self.old.extents.keys) (place_of self.new.extents.keys) }
        ensures met { OnOk result (IsKnown (place_of self.new.extents.keys) (option_copied extent.entry)) }
        ensures numbers { self.new.numbers ≡ self.old.numbers }
    {
        match extent {
            None => Ok(()),
            Some(extent) => self.meet(alloc, extent),
        }
    }

    /// Makes room for the key of one object more than there are, and gives its extent a place. For want of memory no
    /// key changes.
    pub fn make_room(
        &mut self,
        alloc: Global,
        extent: Option<&ClassName>,
        objects: usize,
    ) -> Result<(), NoMemory>
        requires { objects < 2 ^ 63 }
        ensures places { KeepsPlaces (place_of self.old.extents.keys) (place_of self.new.extents.keys) }
        ensures met { OnOk result (IsKnown (place_of self.new.extents.keys) (option_copied extent.entry)) }
        ensures numbers { (s : Spot) → numbers_in self.new.numbers.entries s ≡ numbers_in self.old.numbers.entries s }
        ensures len { length self.new.numbers.entries ≡ length self.old.numbers.entries }
        ensures spare { spare self.old.numbers ≤ spare self.new.numbers }
        ensures room { OnOk result (objects + 1 ≤ length self.old.numbers.entries + spare self.new.numbers) }
    {
        self.meet_any(alloc, extent)?;
        let more = objects.saturating_sub(self.numbers.len());
        self.numbers.reserve(more + 1)?;
        Ok(())
    }

    /// Puts the number at the spot, if there is one, in room that was made before.
    pub fn put(&mut self, spot: Option<Spot>, number: u64)
        requires { IsSome spot → 0 < spare self.old.numbers }
        ensures extents { self.new.extents.keys ≡ self.old.extents.keys }
        ensures numbers { IsPut same_spot spot number (numbers_in self.old.numbers.entries) (numbers_in self.new.numbers.entries) }
        ensures len { IsMore spot (length self.old.numbers.entries) (length self.new.numbers.entries) }
        ensures spare { HasSpare spot (spare self.old.numbers) (spare self.new.numbers) }
    {
        let Some(spot) = spot else {
            return;
        };
        match self.numbers.insert(spot, number) {
            Ok(_) => {}
            Err(_) => {}
        }
    }

    /// Takes away what stands at the spot, if there is one.
    pub fn forget(&mut self, spot: Option<Spot>)
        ensures extents { self.new.extents.keys ≡ self.old.extents.keys }
        ensures numbers { IsForgotten same_spot spot (numbers_in self.old.numbers.entries) (numbers_in self.new.numbers.entries) }
        ensures none { spot ≡ None → length self.new.numbers.entries ≡ length self.old.numbers.entries }
        ensures some { (n : ℕ) → found_at spot (numbers_in self.old.numbers.entries) ≡ Some n → length self.new.numbers.entries + 1 ≡ length self.old.numbers.entries }
        ensures spare { spare self.old.numbers ≤ spare self.new.numbers }
    {
        let Some(spot) = spot else {
            return;
        };
        self.numbers.remove(&spot);
    }
}
