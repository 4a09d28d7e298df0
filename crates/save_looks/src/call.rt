use obj_kinds::{Cause, Op};
use schema_kinds::{Key, Record, Schema};

/// An object of a save, with its key.
#[derive(Drop)]
pub struct SaveItem {
    /// The key of the object, where it is new with the id that was drawn for it.
    pub key: Key,
    /// The level of concurrency of the object, from 0 to 4.
    pub level: u8,
    /// Whether it is new: then nothing may stand under its key.
    pub is_new: bool,
    /// The record that is to be stored.
    pub after: Record,
}

/// Which object is looked for.
#[derive(Clone, Copy)]
pub struct LookCall<'s, 'k> {
    /// The schema of the classes.
    pub schema: &'s Schema,
    /// The object that is saved.
    pub item: &'k SaveItem,
}

/// What stands under the key: the old record, none for a new object; or why the object can't be saved. `IdTaken` says that something
/// stands under the key of a new object, `Gone` that nothing does under that of an old one. `Damaged` has the first node of the old
/// record that is missing or has the wrong form, or the row where the stored class isn't the object's own or an entry of the record would
/// pass a limit.
pub type Looked = Result<Option<Record>, Cause>;

/// What a look does next.
#[derive(Drop)]
pub enum LookStep {
    /// It asks this of the store, and waits for the reply.
    Ask(Op),
    /// It has ended.
    Look(Looked),
}
