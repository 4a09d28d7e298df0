//! The rule of the queue.
use crate::view::View;
use crossbeam_queue::protocol::Protocol;
use crossbeam_queue::{Pass, RuledArrayQueue};
use store_core::Store;

/// There is one store: in the queue, or with one seat. What each seat knows is so of that store, and no
/// process has two seats.
pub struct OneStore;

impl Protocol<Store, View> for OneStore {
    ghost use Rattle.turn_queue.specs.Rule.{OneStore, first_view};

    ghost holds = { OneStore };

    ghost first = { first_view };
}

/// The queue that carries the store.
pub type StoreQueue = RuledArrayQueue<Store, View, OneStore>;

/// What a seat knows of it. It has no bytes.
pub type Turns = Pass<Store, View>;
