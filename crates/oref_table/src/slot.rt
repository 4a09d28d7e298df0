use crate::oref::Oref;
use item_rows::Rows;
use obj_kinds::{Id, Sub, Value};

/// What an object has at one place of its own: the value of a property, what it refers to, or the parts
/// of a collection.
#[derive(Drop)]
pub enum Slot {
    /// A value without references.
    Plain(Value),
    /// The id of an object that isn't opened, or none.
    Target(Option<Id>),
    /// A live object of the table, which this place counts as a holder of.
    To(Oref),
    /// The items of a list.
    Items(Rows<Slot>),
    /// The elements of an array with their keys.
    Map(Rows<(Sub, Slot)>),
    /// The members of a many side that were touched.
    Members(Rows<Oref>),
}

/// The slots of an object in the order of its class, or the items of a list.
pub type Slots = Rows<Slot>;

/// The elements of an array.
pub type SlotPairs = Rows<(Sub, Slot)>;

/// The members of a many side.
pub type Orefs = Rows<Oref>;
