ghost use Rattle.std.specs.Prelude.{◌≡◌, IfOk};
ghost use Rattle.std.specs.Option.{option_copied};
ghost use Rattle.save_looks.specs.Looks.{item_of};
ghost use Rattle.save_passes.specs.Works.{askings_of, key_locks_of, row_lock_of};

use asking_plan::Asking;
use obj_kinds::{Mode, NoMemory};
use save_looks::SaveItem;
use save_works::{Askings, Keys, Work, kill_askings, lock_askings, target_askings, write_askings};
use schema_kinds::{Record, Schema};
use sqlite_items::Items;
use std::alloc::Global;
use storage_map::data_node;

/// What a pass asks for each object.
#[derive(Clone, Copy)]
pub enum Stage {
    /// The lock of its row, where its level isn't 0.
    Rows,
    /// The locks of its keys, entries and targets, where its level isn't 0.
    Keys,
    /// Whether its new targets are there.
    Targets,
    /// The kills of its old entries.
    Kills,
    /// Whether its new keys are free, and then what of it is killed and set.
    Writes,
}

// The lock of the row.
fn row_askings(alloc: Global, item: &SaveItem) -> Result<Askings, NoMemory>
    ensures { IfOk result (λ askings. askings ≡ row_lock_of (item_of item.now)) }
{
    let mut askings = Items::new(alloc);
    if item.level > 0 {
        let row = data_node(alloc, &item.key)?;
        askings.push(Asking::Lock(Mode::Exclusive, row))?;
    }
    Ok(askings)
}

// The locks beside that of the row.
fn key_askings(
    alloc: Global,
    item: &SaveItem,
    work: &Work<'_>,
    put: &Keys,
) -> Result<Askings, NoMemory>
    ensures { IfOk result (λ askings. askings ≡ key_locks_of work.now.schema.now put.now.keys item.now.level work.now.key.now (option_copied work.now.before) work.now.after.now) }
{
    if item.level == 0 {
        return Ok(Items::new(alloc));
    }
    lock_askings(alloc, work, put)
}

/// What a pass asks for an object whose old record is given. It fails only for want of memory.
pub fn askings_for(
    alloc: Global,
    stage: Stage,
    schema: &Schema,
    put: &Keys,
    item: &SaveItem,
    before: Option<&Record>,
) -> Result<Askings, NoMemory>
    ensures { IfOk result (λ askings. askings ≡ askings_of schema.now put.now.keys stage (record { item = item_of item.now; old = option_copied before.entry })) }
{
    let work = Work {
        schema,
        key: &item.key,
        before,
        after: &item.after,
    };
    match stage {
        Stage::Rows => row_askings(alloc, item),
        Stage::Keys => key_askings(alloc, item, &work, put),
        Stage::Targets => target_askings(alloc, &work, put),
        Stage::Kills => kill_askings(alloc, &work),
        Stage::Writes => write_askings(alloc, &work),
    }
}
