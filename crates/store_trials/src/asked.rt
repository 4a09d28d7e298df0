ghost use Rattle.std.specs.Prelude.{◌≤◌};

use crate::failure::Failure;
use obj_kinds::{Pid, Reply};
use plain_store::Ask;
use sqlite_items::Items;
use std::alloc::Global;
use store_core::Store;

/// Asks a live process's operation of the store.
pub fn asked(store: &mut Store, alloc: Global, pid: u32, ask: Ask) -> Result<Reply, Failure> {
    let op = ask.op(alloc)?;
    let pid = Pid(pid);
    if !store.is_live(pid) {
        return Err(Failure::Process);
    }
    if !op.is_legal() {
        return Err(Failure::Limits);
    }
    Ok(store.apply(pid, op)?)
}

/// Ends a process, and tells whether it was live.
pub fn ended(store: &mut Store, pid: u32) -> bool {
    let pid = Pid(pid);
    if !store.is_live(pid) {
        return false;
    }
    matches!(store.apply_end(pid), Reply::Done)
}

/// A store without nodes.
pub fn empty_store(alloc: Global, pids: u32, volume: u64) -> Result<Store, Failure>
    requires { (1 ≤ pids) × (pids ≤ 64) }
{
    Ok(Store::new(alloc, pids, Items::new(alloc), volume)?)
}
