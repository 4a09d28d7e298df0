ghost use Rattle.std.specs.Prelude.{◌≡◌, ◌++◌, [], ◌∷◌, map, option_map, IfOk, OnOk};
ghost use Rattle.std.specs.List.{flat_map};
ghost use Rattle.std.specs.Option.{option_copied};
ghost use Rattle.obj_kinds.specs.Ids.{id_text};
ghost use Rattle.obj_kinds.specs.Subscript.{sub_of};
ghost use Rattle.object_calls.specs.Keys.{side_node as node_of_side};
ghost use Rattle.storage_map.specs.Keys.{target_key as key_of_target};
ghost use Rattle.save_works.specs.Works.{key_locks, key_seen, lock_if, locks_of, other_key, put_in, side_locks, side_seen, target_lock};

use crate::keys::{MovedKey, moved_keys};
use crate::sides::{MovedSide, moved_sides};
use crate::work::{Keys, Work};
use asking_plan::Asking;
use obj_kinds::{ClassName, Id, Mode, NoMemory, Node, Sub, Text, whole_number};
use schema_kinds::{Key, Schema};
use sqlite_items::Items;
use std::alloc::Global;
use storage_map::{data_node, entry_node};

/// What is asked one after the other.
pub type Askings = Items<Asking>;

// The exclusive lock of a node, where there is one.
fn push_lock(alloc: Global, node: &Option<Node>, askings: &mut Askings) -> Result<(), NoMemory>
    ensures { OnOk result (askings.new ≡ askings.old ++ lock_if node.now) }
{
    match node {
        None => Ok(()),
        Some(node) => {
            askings.push(Asking::Lock(Mode::Exclusive, node.copy(alloc)?))?;
            Ok(())
        }
    }
}

// ---- keys of unique indexes

fn push_key_locks(alloc: Global, key: &MovedKey, askings: &mut Askings) -> Result<(), NoMemory>
    ensures { OnOk result (askings.new ≡ askings.old ++ key_locks (key_seen key.now)) }
{
    push_lock(alloc, &key.old, askings)?;
    push_lock(alloc, &key.new, askings)?;
    Ok(())
}

fn push_keys(alloc: Global, keys: &[MovedKey], askings: &mut Askings) -> Result<(), NoMemory>
    ensures { OnOk result (askings.new ≡ askings.old ++ flat_map key_locks (map key_seen keys.now)) }
{
    let mut rest = keys;
    while let Some((key, more)) = rest.split_first() {
        push_key_locks(alloc, key, askings)?;
        rest = more;
    }
    Ok(())
}

// ---- one sides

fn id_sub(alloc: Global, id: &Id) -> Result<Sub, NoMemory>
    ensures { IfOk result (λ sub. sub ≡ sub_of (id_text id.now)) }
{
    let text = id.text(alloc)?;
    match whole_number(text.as_slice()) {
        Some(number) => Ok(Sub::Num(number)),
        None => Ok(Sub::Str(text)),
    }
}

// The entry of an object whose side has this target.
fn side_node(
    alloc: Global,
    key: &Key,
    name: &Text,
    target: Option<Id>,
) -> Result<Option<Node>, NoMemory>
    ensures { IfOk result (λ node. node ≡ node_of_side key.now name.now target) }
{
    match target {
        None => Ok(None),
        Some(id) => {
            let mut subs = Items::new(alloc);
            subs.push(id_sub(alloc, &id)?)?;
            Ok(Some(entry_node(alloc, key, name, subs)?))
        }
    }
}

fn target_key(alloc: Global, schema: &Schema, class: &ClassName, id: Id) -> Result<Key, NoMemory>
    ensures { IfOk result (λ key. key ≡ key_of_target schema.now class.now id) }
{
    let extent = match schema.extent(class) {
        Some(root) => root.copy(alloc)?,
        None => class.copy(alloc)?,
    };
    Ok(Key { extent, id })
}

#[tactic(auto, unfolding(schema_kinds::specs::Worlds::key_cmp))]
fn is_put(put: &Keys, key: &Key) -> bool
    ensures { result ≡ put_in put.now.keys key.now }
{
    put.contains(key)
}

/// The key of the new target of a side, where the save doesn't put an object there. It fails only for want of memory.
pub fn other_target(
    alloc: Global,
    schema: &Schema,
    put: &Keys,
    side: &MovedSide,
) -> Result<Option<Key>, NoMemory>
    ensures { IfOk result (λ key. key ≡ other_key schema.now put.now.keys side.now.class side.now.new) }
{
    let Some(id) = side.new else {
        return Ok(None);
    };
    let key = target_key(alloc, schema, &side.class, id)?;
    if is_put(put, &key) {
        Ok(None)
    } else {
        Ok(Some(key))
    }
}

// The shared lock of a target.
fn push_target(alloc: Global, key: Option<Key>, askings: &mut Askings) -> Result<(), NoMemory>
    ensures { OnOk result (askings.new ≡ askings.old ++ target_lock key) }
{
    if let Some(key) = key {
        askings.push(Asking::Lock(Mode::Shared, data_node(alloc, &key)?))?;
    }
    Ok(())
}

fn push_side_locks(
    alloc: Global,
    work: &Work<'_>,
    put: &Keys,
    side: &MovedSide,
    askings: &mut Askings,
) -> Result<(), NoMemory>
    ensures { OnOk result (askings.new ≡ askings.old ++ side_locks work.now.schema.now put.now.keys work.now.key.now (side_seen side.now)) }
{
    let old = side_node(alloc, work.key, &side.name, side.old)?;
    let new = side_node(alloc, work.key, &side.name, side.new)?;
    let target = other_target(alloc, work.schema, put, side)?;
    push_lock(alloc, &old, askings)?;
    push_lock(alloc, &new, askings)?;
    push_target(alloc, target, askings)?;
    Ok(())
}

fn push_sides(
    alloc: Global,
    work: &Work<'_>,
    put: &Keys,
    sides: &[MovedSide],
    askings: &mut Askings,
) -> Result<(), NoMemory>
    ensures { OnOk result (askings.new ≡ askings.old ++ flat_map (side_locks work.now.schema.now put.now.keys work.now.key.now) (map side_seen sides.now)) }
{
    let mut rest = sides;
    while let Some((side, more)) = rest.split_first() {
        push_side_locks(alloc, work, put, side, askings)?;
        rest = more;
    }
    Ok(())
}

/// The locks of an object beside that of its row: of the old and the new node of each key that changes, and then, for each one
/// side whose target changes, of the old and the new entry and of the row of the new target, where the save doesn't put it. It fails only for
/// want of memory.
#[tactic(auto, unfolding(crate::specs::Works::locks_of))]
pub fn lock_askings(alloc: Global, work: &Work<'_>, put: &Keys) -> Result<Askings, NoMemory>
    ensures { IfOk result (λ askings. askings ≡ locks_of work.now.schema.now put.now.keys work.now.key.now (option_copied work.now.before) work.now.after.now) }
{
    let mut askings = Items::new(alloc);
    let keys = moved_keys(alloc, work)?;
    push_keys(alloc, keys.as_slice(), &mut askings)?;
    let sides = moved_sides(alloc, work)?;
    push_sides(alloc, work, put, sides.as_slice(), &mut askings)?;
    Ok(askings)
}
