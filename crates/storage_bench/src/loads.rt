//! Loads of an object over a store of one process.

ghost use Rattle.std.specs.Prelude.{◌≡◌, ◌≢◌, false};
ghost use Rattle.obj_kinds.specs.declared.op.Op.TheVariants.{End};
ghost use Rattle.load_plan.specs.Loads.{is_told};

use crate::work::Work;
use load_plan::{LoadCall, LoadPlan, LoadStep};
use obj_kinds::{NoMemory, Node, Op, Pid, Reply, Value};
use sqlite_items::Items;
use std::alloc::Global;
use std::io;
use std::time::Instant;
use storage_map::rows;
use store_core::Store;

const PID: Pid = Pid(1);

/// The volume of a store.
const VOLUME: u64 = 1 << 40;

/// The most operations of a load.
const MOST: u32 = 1_000_000;

fn is_end(op: &Op) -> bool
    ensures { result ≡ false → op.now ≢ End }
{
    matches!(op, Op::End)
}

// The reply to an operation; none where it can't be asked.
fn ask(store: &mut Store, op: Op) -> Option<Reply> {
    if is_end(&op) || !op.is_legal() || !store.is_live(PID) {
        return None;
    }
    store.apply(PID, op).ok()
}

fn put(alloc: Global, store: &mut Store, node: &Node, value: &Value) -> Result<(), NoMemory> {
    let op = Op::Set(node.copy(alloc)?, value.copy(alloc)?);
    let _ = ask(store, op);
    Ok(())
}

/// A store that has the rows of the object.
pub fn store_of(alloc: Global, work: &Work) -> Result<Store, NoMemory> {
    let nodes = rows(alloc, &work.schema, &work.key, &work.old)?;
    let mut store = Store::new(alloc, 1, Items::new(alloc), VOLUME)?;
    for (node, value) in nodes.as_slice() {
        put(alloc, &mut store, node, value)?;
    }
    Ok(store)
}

// Whether the object is loaded.
fn is_played(store: &mut Store, plan: &mut LoadPlan<'_>) -> Result<bool, NoMemory>
    requires { is_told plan.old.phase ≡ false }
{
    for _ in 0..MOST {
        match plan.next()? {
            LoadStep::Ask(op) => match ask(store, op) {
                Some(reply) => plan.take(reply)?,
                None => return Ok(false),
            },
            LoadStep::Load(loaded) => return Ok(loaded.is_ok()),
        }
    }
    Ok(false)
}

/// Loads the object at level 2, and says whether that was done.
pub fn is_loaded(alloc: Global, work: &Work, store: &mut Store) -> Result<bool, NoMemory> {
    let call = LoadCall {
        key: work.key.copy(alloc)?,
        class: work.old.class.copy(alloc)?,
        level: 2,
        tries: 1,
        touch: false,
    };
    let mut plan = LoadPlan::new(alloc, &work.schema, call)?;
    is_played(store, &mut plan)
}

/// The nanoseconds of so many loads; none where one failed.
pub fn load_time(
    rt: &HostRuntime,
    work: &Work,
    store: &mut Store,
    times: u32,
) -> io::Result<Option<u128>> {
    let start = Instant::now(rt)?;
    for _ in 0..times {
        match is_loaded(rt.alloc(), work, store) {
            Ok(true) => {}
            _ => return Ok(None),
        }
    }
    Ok(Some(start.elapsed(rt)?.as_nanos()))
}
