use obj_kinds::{Op, Pid};
use std::collections::LinkedList;
use store_core::{Entry, Store};

/// What a seat knows of one of its processes: its entries in the history, in their order, and the
/// operation for which there was no room when it ended, if that was why. Only clauses speak of it, and
/// no value of it is made.
pub struct Part {
    pub pid: Pid,
    pub entries: LinkedList<Entry>,
    pub refused: Option<Op>,
}

/// What a seat knows: the store as it was opened, its processes, and the store as it was taken, while
/// the seat has it. Only clauses speak of it, and no value of it is made.
pub struct View {
    pub opened: Store,
    pub parts: LinkedList<Part>,
    pub taken: Option<Store>,
}
