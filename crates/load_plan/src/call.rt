use obj_kinds::{Cause, ClassName, Op};
use schema_kinds::{Key, Record};

/// What is opened.
#[derive(Drop)]
pub struct LoadCall {
    /// The key of the object.
    pub key: Key,
    /// The class that it is opened for.
    pub class: ClassName,
    /// The level of concurrency, from 0 to 4.
    pub level: u8,
    /// How often a lock is asked for at most, 1 or more.
    pub tries: u32,
    /// Whether it is opened from a reference or a many side: where it isn't there, it is gone, and else not found.
    pub touch: bool,
}

/// What a load answers: the record of the object, or why there is none. `Busy` names the process and the node by
/// which the last try of the lock was refused; `NotFound` or `Gone` say that the key has no row; `OtherClass` has the
/// class of the row, where it isn't the class that is asked for or one below it; `Damaged` has the first node that is
/// missing or has the wrong form, or the row where an entry of the record would pass a limit.
pub type Loaded = Result<Record, Cause>;

/// What a load does next.
#[derive(Drop)]
pub enum LoadStep {
    /// It asks this of the store, and waits for the reply.
    Ask(Op),
    /// It has ended.
    Load(Loaded),
}
