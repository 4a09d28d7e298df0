use obj_kinds::{Cause, ClassName, Op};
use schema_kinds::{Key, Record, Schema};

/// Which record is read.
#[derive(Clone, Copy)]
pub struct ReadCall<'s, 'k> {
    /// The schema of the classes.
    pub schema: &'s Schema,
    /// The key whose record it is.
    pub key: &'k Key,
    /// The class that is asked for: where the row names one that is neither this class nor below it, nothing
    /// more is read. With none, each class of the extent will do.
    pub wanted: Option<&'k ClassName>,
}

/// What a read answers: the record, or none where the key has no row. `Damaged` names the first node that is
/// missing or has the wrong form, or the row where an entry of the record would pass a limit; `OtherClass` is
/// the class of a row that isn't of the class that is asked for.
pub type Outcome = Result<Option<Record>, Cause>;

/// What a read does next.
#[derive(Drop)]
pub enum ReadStep {
    /// It asks this of the store, and waits for the reply.
    Ask(Op),
    /// It has ended.
    Read(Outcome),
}
