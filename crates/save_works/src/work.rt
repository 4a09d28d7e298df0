use schema_kinds::{Key, Record, Schema};
use std::collections::BTreeSet;

/// The keys under which a save puts objects.
pub type Keys = BTreeSet<Key>;

/// An object of a save, with what is stored under its key.
#[derive(Clone, Copy)]
pub struct Work<'a> {
    pub schema: &'a Schema,
    pub key: &'a Key,
    /// The record that is stored; none where the object is new.
    pub before: Option<&'a Record>,
    /// The record that is to be stored.
    pub after: &'a Record,
}
