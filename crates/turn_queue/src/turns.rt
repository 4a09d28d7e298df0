//! The steps on the queue.
ghost use Rattle.std.specs.Prelude.{◌≡◌, ◌≢◌, ◌<◌, [], true, Some, None, All, IfSome};
ghost use Rattle.store_core.specs.declared.entry.Entry.{Entry};
ghost use Rattle.store_core.specs.Machine.{is_live};
ghost use Rattle.store_core.specs.Ledger.{with_entry, end_entry, next_entry, volume_with, state_of};
ghost use Rattle.crossbeam_queue.specs.Passes.{view, IsSamePass, IsPassOf, ruled_capacity};
ghost use Rattle.turn_queue.specs.Parts.{as_opened, fresh_from, has, Fits, IsRefused, entered};
ghost use Rattle.turn_queue.specs.Rule.{seat_view, with_store, no_store};

use crate::enter::{Enters, Refusal};
use crate::rule::{StoreQueue, Turns};
use crate::steps::{Opens, Returns, Takes};
use obj_kinds::{Op, Pid};
use std::snapshot::Snapshot;
use std::sync::Wait;
use std::thread;
use store_core::Store;

/// A turn of a process, and the store as it was before.
#[derive(Drop)]
pub struct Turn {
    pub pid: Pid,
    pub before: Snapshot<Store>,
}

/// A process, and its operation for which there was no room.
#[derive(Drop)]
pub struct Refused {
    pub pid: Pid,
    pub asked: Snapshot<Op>,
}

/// Puts a new store into the queue.
pub fn open<R: Wait>(rt: &R, queue: &StoreQueue, turns: &mut Turns, store: Store)
    requires queue { IsPassOf queue.now turns.old × (ruled_capacity queue.now ≡ 1) }
    requires first { ((view turns.old).parts ≡ []) × ((view turns.old).taken ≡ Some no_store) }
    requires empty { store.history ≡ [] }
    ensures queue { IsSamePass turns.old turns.new }
    ensures opened { view turns.new ≡ seat_view (as_opened store) (fresh_from 1 store.pids) }
{
    match queue.push_as::<Opens, R>(rt, turns, store) {
        Ok(()) => {}
        Err(_) => unreachable!(),
    }
}

/// Takes the store, and yields until it is there.
pub fn take<R: Wait>(rt: &R, queue: &StoreQueue, turns: &mut Turns) -> Store
    requires queue { IsPassOf queue.now turns.old }
    requires idle { (view turns.old).parts ≢ [] }
    ensures queue { IsSamePass turns.old turns.new }
    ensures taken { view turns.new ≡ with_store (view turns.old) result }
    ensures opened { as_opened result ≡ (view turns.old).opened }
    ensures fits { All (Fits result) (view turns.old).parts }
{
    for _ in rt.forever() {
        if let Some(store) = queue.pop_as::<Takes, R>(rt, turns) {
            return store;
        }
        thread::yield_now();
    }
    unreachable!()
}

/// Gives the store back as it was.
pub fn give_back<R: Wait>(rt: &R, queue: &StoreQueue, turns: &mut Turns, store: Store)
    requires queue { IsPassOf queue.now turns.old × (ruled_capacity queue.now ≡ 1) }
    requires same { (view turns.old).taken ≡ Some store }
    ensures queue { IsSamePass turns.old turns.new }
    ensures idle { view turns.new ≡ seat_view (view turns.old).opened (view turns.old).parts }
{
    match queue.push_as::<Returns, R>(rt, turns, store) {
        Ok(()) => {}
        Err(_) => unreachable!(),
    }
}

/// Gives the store back with the entry of a turn, which is of one of the seat's processes.
pub fn enter<N: Refusal, R: Wait>(
    rt: &R,
    queue: &StoreQueue,
    turns: &mut Turns,
    store: Store,
    turn: Turn,
)
    requires queue { IsPassOf queue.now turns.old × (ruled_capacity queue.now ≡ 1) }
    requires taken { (view turns.old).taken ≡ Some turn.before.value }
    requires entry { (e : Entry) × (e.pid ≡ turn.pid) × (store ≡ with_entry turn.before.value e) }
    requires own { has turn.pid.0 (view turns.old).parts ≡ true }
    requires refused { IfSome N.op (IsRefused store turn.pid) }
    ensures queue { IsSamePass turns.old turns.new }
    ensures entered { (e : Entry) → store ≡ with_entry turn.before.value e → view turns.new ≡ seat_view (view turns.old).opened (entered e N.op (view turns.old).parts) }
{
    match queue.push_as::<Enters<N>, R>(rt, turns, store) {
        Ok(()) => {}
        Err(_) => unreachable!(),
    }
}

/// Ends the process of which an operation was refused, and gives the store back.
pub fn refuse<N: Refusal, R: Wait>(
    rt: &R,
    queue: &StoreQueue,
    turns: &mut Turns,
    mut store: Store,
    refused: Refused,
)
    requires op { N.op ≡ Some refused.asked.value }
    requires queue { IsPassOf queue.now turns.old × (ruled_capacity queue.now ≡ 1) }
    requires taken { (view turns.old).taken ≡ Some store }
    requires live { is_live (state_of store) refused.pid ≡ true }
    requires own { has refused.pid.0 (view turns.old).parts ≡ true }
    requires volume { store.limit < volume_with store (next_entry store refused.pid refused.asked.value) }
    ensures queue { IsSamePass turns.old turns.new }
    ensures entered { view turns.new ≡ seat_view (view turns.old).opened (entered (end_entry refused.pid) (Some refused.asked.value) (view turns.old).parts) }
{
    let Refused { pid, asked: _ } = refused;
    let before = Snapshot::of(&store);
    store.apply_end(pid);
    enter::<N, R>(rt, queue, turns, store, Turn { pid, before });
}
