use obj_kinds::{Cause, ClassName, Id, Op, Reply};
use schema_kinds::Key;
use sqlite_items::Items;
use std::collections::BTreeSet;

/// An object that has no id yet.
#[derive(Drop)]
pub struct Newcomer {
    /// Its number among the objects of the process.
    pub number: u64,
    /// The extent in which it gets an id.
    pub extent: ClassName,
}

/// The draws of a save: what was drawn so far, and for whom more is to be.
#[derive(Drop)]
pub struct Drawing {
    /// The new objects, in the order of the save.
    pub news: Items<Newcomer>,
    /// How many of them have their ids.
    pub at: usize,
    /// The keys that were drawn for these.
    pub keys: BTreeSet<Key>,
    /// Their ids, each with the number of its object, in the order of the save.
    pub ids: Items<(u64, Id)>,
}

/// What the draws wait for.
#[derive(Drop)]
pub enum Phase {
    /// The counter of the next object, where there is one.
    Drawing,
    /// Nothing: the counter replied this.
    Judging(Reply),
    /// Nothing: an id couldn't be drawn, and this is why.
    Over(Cause),
    /// Nothing: the answer was handed out.
    Told,
}

/// Whether all ids were drawn: they stand with the draws then. `IdLimit` says that a counter has no further number; `IdTaken` that the
/// id that it gave is one of a live object, or was drawn for an earlier object of the save; `Damaged` has the node of a counter that
/// gives no number from 1 on.
pub type Drawn = Result<(), Cause>;

/// What the draws do next.
#[derive(Drop)]
pub enum DrawStep {
    /// They ask this of the store, and wait for the reply.
    Ask(Op),
    /// They have ended.
    Draw(Drawn),
}
