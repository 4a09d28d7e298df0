ghost use Rattle.std.specs.Prelude.{◌≡◌, ◌++◌, map, IfOk, OnOk};
ghost use Rattle.std.specs.List.{flat_map};
ghost use Rattle.std.specs.Option.{option_copied};
ghost use Rattle.save_works.specs.Works.{key_seen, key_test, key_tests_of, side_seen, side_test, side_tests_of, target_test};

use crate::keys::{MovedKey, moved_keys};
use crate::locks::{Askings, other_target};
use crate::sides::{MovedSide, moved_sides};
use crate::work::{Keys, Work};
use asking_plan::{Asking, KeyBelow, TargetRow};
use obj_kinds::{ClassName, NoMemory};
use schema_kinds::{Key, Schema};
use sqlite_items::Items;
use std::alloc::Global;
use storage_map::data_node;

// ---- targets

fn push_target(
    alloc: Global,
    class: &ClassName,
    key: Option<Key>,
    askings: &mut Askings,
) -> Result<(), NoMemory>
    ensures { OnOk result (askings.new ≡ askings.old ++ target_test class.now key) }
{
    if let Some(key) = key {
        let class = class.copy(alloc)?;
        let row = data_node(alloc, &key)?;
        let id = key.id;
        askings.push(Asking::Target(TargetRow { class, id, row }))?;
    }
    Ok(())
}

fn push_sides(
    alloc: Global,
    schema: &Schema,
    put: &Keys,
    sides: &[MovedSide],
    askings: &mut Askings,
) -> Result<(), NoMemory>
    ensures { OnOk result (askings.new ≡ askings.old ++ flat_map (side_test schema.now put.now.keys) (map side_seen sides.now)) }
{
    let mut rest = sides;
    while let Some((side, more)) = rest.split_first() {
        let key = other_target(alloc, schema, put, side)?;
        push_target(alloc, &side.class, key, askings)?;
        rest = more;
    }
    Ok(())
}

/// The tests that the new targets are there, but for those that the save puts. It fails only for want of memory.
#[tactic(auto, unfolding(crate::specs::Works::side_tests_of))]
pub fn target_askings(alloc: Global, work: &Work<'_>, put: &Keys) -> Result<Askings, NoMemory>
    ensures { IfOk result (λ askings. askings ≡ side_tests_of work.now.schema.now put.now.keys (option_copied work.now.before) work.now.after.now) }
{
    let mut askings = Items::new(alloc);
    let sides = moved_sides(alloc, work)?;
    push_sides(alloc, work.schema, put, sides.as_slice(), &mut askings)?;
    Ok(askings)
}

// ---- new keys

// That nothing stands below the new node of a key.
fn push_key(
    alloc: Global,
    extent: &ClassName,
    key: &MovedKey,
    askings: &mut Askings,
) -> Result<(), NoMemory>
    ensures { OnOk result (askings.new ≡ askings.old ++ key_test extent.now (key_seen key.now)) }
{
    match &key.new {
        None => Ok(()),
        Some(node) => {
            let extent = extent.copy(alloc)?;
            let index = key.index.copy(alloc)?;
            let node = node.copy(alloc)?;
            askings.push(Asking::NoKey(KeyBelow {
                extent,
                index,
                node,
            }))?;
            Ok(())
        }
    }
}

fn push_keys(
    alloc: Global,
    extent: &ClassName,
    keys: &[MovedKey],
    askings: &mut Askings,
) -> Result<(), NoMemory>
    ensures { OnOk result (askings.new ≡ askings.old ++ flat_map (key_test extent.now) (map key_seen keys.now)) }
{
    let mut rest = keys;
    while let Some((key, more)) = rest.split_first() {
        push_key(alloc, extent, key, askings)?;
        rest = more;
    }
    Ok(())
}

/// The tests that the new keys are free. It fails only for want of memory.
#[tactic(auto, unfolding(crate::specs::Works::key_tests_of))]
pub fn key_askings(alloc: Global, work: &Work<'_>) -> Result<Askings, NoMemory>
    ensures { IfOk result (λ askings. askings ≡ key_tests_of work.now.schema.now work.now.key.now (option_copied work.now.before) work.now.after.now) }
{
    let mut askings = Items::new(alloc);
    let keys = moved_keys(alloc, work)?;
    push_keys(alloc, &work.key.extent, keys.as_slice(), &mut askings)?;
    Ok(askings)
}
