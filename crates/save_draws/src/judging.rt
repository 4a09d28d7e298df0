ghost use Rattle.std.specs.Prelude.{◌≡◌, ◌||◌, ◌<◌, ◌∷◌, ◌++◌, [], ℕ, List, true, length, is_some, slice_get, IfOk, OnOk, OnErr};
ghost use Rattle.std.specs.List.{list_any};
ghost use Rattle.std.specs.BTreeSet.{insert_key};
ghost use Rattle.obj_kinds.specs.Limits.{is_legal_reply, is_whole};
ghost use Rattle.obj_kinds.specs.declared.cause.Cause.TheVariants.{Damaged};
ghost use Rattle.schema_kinds.specs.Worlds.{key_cmp};
ghost use Rattle.object_calls.specs.Extents.{counter_node as node_of_counter};
ghost use Rattle.object_calls.specs.Saves.{Drawn, is_key, on_number};
ghost use Rattle.read_plan.specs.Reads.{tried_of};
ghost use Rattle.save_draws.specs.Draws.{id_of_number, is_live_in, key_told as told_of_key, number_judged, seen, with_drawn, IsJudged};

use crate::drawing::Drawing;
use obj_kinds::{Cause, ClassName, Id, NoMemory, Node, Reply};
use oref_table::Table;
use schema_kinds::Key;
use sqlite_items::{Items, at};
use std::alloc::Global;
use std::collections::BTreeSet;

/// The node that counts the ids of an extent. It fails only for want of memory.
pub fn counter_node(alloc: Global, extent: &ClassName) -> Result<Node, NoMemory>
    ensures { IfOk result (λ node. node ≡ node_of_counter extent.now) }
{
    let mut name = extent.0.copy(alloc)?;
    name.push(b'D')?;
    Ok(Node {
        global: name,
        subs: Items::new(alloc),
    })
}

fn damaged(alloc: Global, extent: &ClassName) -> Result<Cause, NoMemory>
    ensures { IfOk result (λ cause. cause ≡ Damaged (node_of_counter extent.now)) }
{
    Ok(Cause::Damaged(counter_node(alloc, extent)?))
}

// The id that a number is.
#[tactic(auto, unfolding(obj_kinds::specs::Limits::is_legal_reply))]
fn drawn_id(number: i64) -> Option<Id>
    requires { is_whole number ≡ true }
    ensures { result ≡ id_of_number number }
{
    if number < 1 {
        return None;
    }
    Some(Id::new(number.unsigned_abs()))
}

#[tactic(auto, using(crate::proofs::KeyLaws::live_some, crate::proofs::KeyLaws::live_nowhere))]
fn is_live(table: &Table, key: &Key) -> bool
    ensures { result ≡ is_live_in table.now key.now }
{
    match table.by_id(&key.extent, key.id) {
        Some(_) => true,
        None => false,
    }
}

#[tactic(auto, unfolding(schema_kinds::specs::Worlds::key_cmp))]
fn is_drawn(keys: &BTreeSet<Key>, key: &Key) -> bool
    ensures { result ≡ list_any (is_key key.now) keys.now.keys }
{
    keys.contains(key)
}

fn is_taken(table: &Table, keys: &BTreeSet<Key>, key: &Key) -> bool
    ensures { result ≡ (is_live_in table.now key.now || list_any (is_key key.now) keys.now.keys) }
{
    is_live(table, key) || is_drawn(keys, key)
}

// The key that an id gives, where no object has it.
fn key_by(
    alloc: Global,
    table: &Table,
    keys: &BTreeSet<Key>,
    extent: &ClassName,
    id: Id,
) -> Result<Result<Key, Cause>, NoMemory>
    ensures { IfOk result (λ told. tried_of told ≡ told_of_key (is_live_in table.now) keys.now.keys (record { extent = extent.now; id = id })) }
{
    let extent = extent.copy(alloc)?;
    let key = Key { extent, id };
    if is_taken(table, keys, &key) {
        Ok(Err(Cause::IdTaken(id)))
    } else {
        Ok(Ok(key))
    }
}

fn number_told(
    alloc: Global,
    table: &Table,
    keys: &BTreeSet<Key>,
    extent: &ClassName,
    number: i64,
) -> Result<Result<Key, Cause>, NoMemory>
    requires { is_whole number ≡ true }
    ensures { IfOk result (λ told. tried_of told ≡ number_judged (is_live_in table.now) keys.now.keys extent.now (id_of_number number)) }
{
    match drawn_id(number) {
        Some(id) => key_by(alloc, table, keys, extent, id),
        None => Ok(Err(damaged(alloc, extent)?)),
    }
}

// The key that the reply of a counter gives.
#[tactic(auto, unfolding(obj_kinds::specs::Limits::is_legal_reply), using(crate::proofs::DrawLaws::number_is))]
fn key_told(
    alloc: Global,
    table: &Table,
    keys: &BTreeSet<Key>,
    extent: &ClassName,
    reply: &Reply,
) -> Result<Result<Key, Cause>, NoMemory>
    requires { is_legal_reply reply.now ≡ true }
    ensures { IfOk result (λ told. tried_of told ≡ on_number (is_live_in table.now) keys.now.keys extent.now reply.now) }
{
    match reply {
        Reply::Number(number) => number_told(alloc, table, keys, extent, *number),
        Reply::NumberLimit => Ok(Err(Cause::IdLimit)),
        _ => Ok(Err(damaged(alloc, extent)?)),
    }
}

// Takes the last id away.
fn take_back(ids: &mut Items<(u64, Id)>)
    ensures { (before : Drawn) (x : ℕ × List ℕ) → ids.old ≡ before ++ x ∷ [] → ids.new ≡ before }
{
    let _ = ids.pop();
}

// The key and its id are put to the others. For want of memory nothing has changed.
#[tactic(auto, unfolding(schema_kinds::specs::Worlds::key_cmp))]
fn put(
    ids: &mut Items<(u64, Id)>,
    keys: &mut BTreeSet<Key>,
    number: u64,
    key: Key,
) -> Result<(), NoMemory>
    ensures ids { OnOk result (ids.new ≡ ids.old ++ (number, key.id) ∷ []) }
    ensures keys { OnOk result (keys.new.keys ≡ insert_key key_cmp keys.old.keys key) }
    ensures ids_stay { OnErr result (ids.new ≡ ids.old) }
    ensures keys_stay { OnErr result (keys.new.keys ≡ keys.old.keys) }
{
    ids.push((number, key.id))?;
    let Err(_) = keys.insert(key) else {
        return Ok(());
    };
    take_back(ids);
    Err(NoMemory)
}

// The key is drawn for the next object. For want of memory nothing has changed.
fn keep(drawing: &mut Drawing, number: u64, key: Key) -> Result<(), NoMemory>
    requires { drawing.old.at < length drawing.old.news }
    ensures ok { OnOk result (seen drawing.new ≡ with_drawn (seen drawing.old) number key (insert_key key_cmp drawing.old.keys.keys key)) }
    ensures err { OnErr result (seen drawing.new ≡ seen drawing.old) }
    ensures news { drawing.new.news ≡ drawing.old.news }
{
    let _ = drawing.news.len();
    put(&mut drawing.ids, &mut drawing.keys, number, key)?;
    drawing.at += 1;
    Ok(())
}

/// Judges the reply of the counter of the next object: it has an id then, or this is why not. For want of memory nothing has changed.
#[tactic(auto, using(crate::proofs::DrawLaws::is_there, crate::proofs::DrawLaws::judged_lost, crate::proofs::DrawLaws::judged_kept))]
pub fn judge(
    alloc: Global,
    table: &Table,
    drawing: &mut Drawing,
    reply: &Reply,
) -> Result<Option<Cause>, NoMemory>
    requires there { is_some (slice_get drawing.old.news drawing.old.at) ≡ true }
    requires legal { is_legal_reply reply.now ≡ true }
    ensures ok { IfOk result (IsJudged (is_live_in table.now) (seen drawing.old) reply.now (seen drawing.new)) }
    ensures err { OnErr result (seen drawing.new ≡ seen drawing.old) }
    ensures news { drawing.new.news ≡ drawing.old.news }
{
    let Some(newcomer) = at(drawing.news.as_slice(), drawing.at) else {
        unreachable!();
    };
    let number = newcomer.number;
    match key_told(alloc, table, &drawing.keys, &newcomer.extent, reply)? {
        Err(cause) => Ok(Some(cause)),
        Ok(key) => {
            keep(drawing, number, key)?;
            Ok(None)
        }
    }
}
