//! Worlds: which stored object has which record.

ghost use Rattle.std.specs.Prelude.{◌≡◌, ◌∷◌, ◌++◌, length, IfOk, OnOk, IsTrue, option_to_list};
ghost use Rattle.std.specs.Option.{option_copied};
ghost use Rattle.std.specs.FinMap.{is_sorted, from_sorted, get as record_at, entries as listed};
ghost use Rattle.schema_kinds.specs.Worlds.{key_cmp};
ghost use Rattle.world_audit.specs.Finds.{whole_in, wholes};

use crate::found::{Finds, Found};
use obj_kinds::NoMemory;
use schema_kinds::{Key, Record};
use sqlite_items::Items;
use std::alloc::Global;
use std::marker::Model;

/// Records with their keys.
pub type Objects = Items<(Key, Record)>;

/// Which stored object has which record, in the order of keys; seen as the finite map from keys to records.
#[derive(Debug, Drop)]
pub struct World {
    objects: Objects,
}

impl Model for World {
    ghost use Rattle.std.specs.Prelude.{IsTrue};
    ghost use Rattle.std.specs.FinMap as map;
    ghost use Rattle.schema_kinds.specs.declared.key.Key.{Key};
    ghost use Rattle.schema_kinds.specs.declared.record.Record.{Record};
    ghost use Rattle.schema_kinds.specs.contracts.key.Key as of_key;
    ghost use Rattle.schema_kinds.specs.contracts.record.Record as of_record;
    ghost use Rattle.schema_kinds.specs.Worlds.{key_cmp};

    ghost Value = { map.FinMap key_cmp Record };

    ghost coded = { map.code (of_key.the_row).coded (of_record.the_row).coded };

    ghost view = { λ w. map.from_sorted w.objects };

    ghost invariant = { λ w. IsTrue (map.is_sorted key_cmp w.objects) };
}

fn push_whole(objects: &mut Objects, key: Key, found: Found) -> Result<(), NoMemory>
    ensures { OnOk result (objects.new ≡ objects.old ++ option_to_list (whole_in (key, found))) }
{
    if let Found::Whole(record) = found {
        objects.push((key, record))?;
    }
    Ok(())
}

fn whole_objects(alloc: Global, finds: Finds) -> Result<Objects, NoMemory>
    ensures { IfOk result (λ objects. objects ≡ wholes finds.entries) }
{
    let mut objects = Items::new(alloc);
    for (key, found) in finds {
        push_whole(&mut objects, key, found)?;
    }
    Ok(objects)
}

/// The world of the whole records. It fails only for want of memory.
#[tactic(auto, using(crate::proofs::FindLaws::wholes_rise))]
pub(crate) fn into_world(alloc: Global, finds: Finds) -> Result<World, NoMemory>
    requires { IsTrue (is_sorted key_cmp finds.entries) }
    ensures { IfOk result (λ world. world ≡ from_sorted (wholes finds.entries)) }
{
    let objects = whole_objects(alloc, finds)?;
    Ok(World { objects })
}

impl World {
    /// The records with their keys, in the order of keys.
    pub fn as_slice(&self) -> &[(Key, Record)]
        ensures { result.now ≡ listed self.now }
    {
        self.objects.as_slice()
    }
}
