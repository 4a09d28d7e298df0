//! What a script asks of its surroundings, what it is answered, and what it tells.

use crate::val::{Val, Vals};
use obj_kinds::{ClassName, ErrorName, Mode, Node, Op, Reply, Text};

/// A special variable, whose value the surroundings keep.
#[derive(Clone, Copy, Debug, PartialEq, Eq)]
pub enum Special {
    /// `$TEST`: whether the last lock with a timeout was granted.
    Test,
    /// `$TLEVEL`: how many transactions are open.
    Level,
    /// `%objlasterror`: the status text of the last failed call of an object.
    LastError,
}

/// What a script asks of its surroundings.
#[derive(Debug, Drop)]
pub enum Call {
    /// An operation of the store.
    Store(Op),
    /// A `LOCK` of one name. With a timeout it is tried so many times, and `$TEST` says whether it was granted.
    TryLock {
        node: Node,
        mode: Mode,
        tries: Option<u64>,
    },
    /// The value of a special variable.
    Special(Special),
    /// A method of a class.
    OnClass {
        class: ClassName,
        member: Text,
        args: Vals,
    },
    /// A method of the class whose method runs, where there is no object.
    OnOwn {
        member: Text,
        args: Vals,
    },
    /// A method of an object.
    OnObject {
        on: u64,
        member: Text,
        args: Vals,
    },
    /// The value of a property.
    Read {
        on: u64,
        prop: Text,
    },
    /// Sets a property.
    Write {
        on: u64,
        prop: Text,
        value: Val,
    },
    /// A method of a collection or of a many side.
    OnItems {
        on: u64,
        prop: Text,
        member: Text,
        args: Vals,
    },
}

/// What the surroundings answer.
#[derive(Debug, Drop)]
pub enum Answer {
    Reply(Reply),
    Got(Val),
    /// The property is a collection or a many side, which only a method can follow.
    Items,
    Done,
    Error(ErrorName),
}

/// How a frame ends.
#[derive(Debug, Drop)]
pub enum ScriptEnd {
    /// With a value, which is the answer of a method.
    Done(Val),
    /// By `HALT`, which ends the process.
    Halt,
    /// By an error, with the line of the command in which it was met.
    Error { name: ErrorName, line: u32 },
    /// The units were used up.
    Fuel,
}

/// What a script does next.
#[derive(Debug, Drop)]
pub enum Event {
    /// It asks, and goes on once it is answered.
    Need(Call),
    /// It prints this text, which isn't empty.
    Print(Text),
    /// The object of this number gets one more place.
    More(u64),
    /// The object of this number has lost a place.
    Less(u64),
    /// The end of a command argument, postcondition, header of a `FOR` or loop test.
    Point,
    Finished(ScriptEnd),
}
