use crate::call::Outcome;
use item_rows::Rows;
use obj_kinds::{ClassName, Sub};
use record_reading::{ArrayBelow, ListBelow, Steps};
use schema_kinds::{FieldPairs, Fields};
use sqlite_items::Items;

/// A read whose row was found.
#[derive(Drop)]
pub struct Begun<'s> {
    /// The class that the row names.
    pub class: &'s ClassName,
    /// What is read of an object of the class.
    pub steps: Steps<'s>,
    /// The fields in the row.
    pub first: Fields,
    /// The fields of each list below the row that was read, in order.
    pub lists: Items<Fields>,
}

/// A read that waits for a list below the row.
#[derive(Drop)]
pub struct Listing<'s> {
    pub begun: Begun<'s>,
    /// The list that is awaited.
    pub list: ListBelow<'s>,
}

/// A read that is at an array.
#[derive(Drop)]
pub struct Walking<'s> {
    pub begun: Begun<'s>,
    /// The arrays that were read whole, in order.
    pub maps: Rows<FieldPairs>,
    /// The array that is being read.
    pub array: ArrayBelow<'s>,
    /// Its elements so far.
    pub pairs: FieldPairs,
}

/// A read that waits for an element of an array.
#[derive(Drop)]
pub struct Pending<'s> {
    pub walking: Walking<'s>,
    /// The key of the element.
    pub key: Sub,
}

/// What a read waits for.
#[derive(Drop)]
pub enum Phase<'s> {
    /// The row.
    AtRow,
    /// A list below the row.
    AtList(Listing<'s>),
    /// The first key of the array, or the first behind the one given.
    AtKey(Walking<'s>, Option<Sub>),
    /// An element of an array.
    AtElement(Pending<'s>),
    /// Nothing: all nodes were read.
    Full(Begun<'s>, Rows<FieldPairs>),
    /// Nothing: it ended early, and this is the answer.
    Over(Outcome),
    /// Nothing: the answer was handed out.
    Told,
}
