//! What a process notes of its run beside its operations.

use obj_kinds::{Cause, Pid};
use schema_kinds::{Change, Key, Record};

/// What is noted.
#[derive(Drop)]
pub enum MarkKind {
    /// A script's `TSTART`.
    TStart,
    /// A script's `TCOMMIT`.
    TCommit,
    /// A script's `TROLLBACK`, of one level or of all.
    TRollback,
    /// A save whose `Commit` got a number, with what it put.
    Saved(Change),
    /// A delete whose `Commit` got a number.
    Deleted(Change),
    /// A load that made an object, with the record that it read.
    Loaded(Key, Record),
    /// A call of an object that failed.
    Failed(Cause),
    /// A script's `SET`, `KILL` or `$INCREMENT` on a global that the schema owns.
    Raw,
    /// A `%OpenId` or `%DeleteId` that was called with level 0 or 1.
    Low,
}

/// A mark of a process.
#[derive(Drop)]
pub struct Mark {
    pub pid: Pid,
    /// Which of the process's entries it names, counted from 1; 0 stands before the first.
    pub at: u64,
    pub kind: MarkKind,
}
