//! Commands.

use crate::expression::{Expression, GlobalReference, Place};
use obj_kinds::{Mode, Text};
use sqlite_items::Items;

/// What a `SET` gives a value.
#[derive(Debug, Drop)]
pub enum Target {
    /// A variable or a global.
    Place(Place),
    /// `..property`
    OwnProperty(Text),
    /// `object.property`
    Property { object: Expression, member: Text },
}

/// One argument of a `SET`.
#[derive(Debug, Drop)]
pub struct Assignment {
    pub target: Target,
    pub value: Expression,
}

/// One argument of a `WRITE`.
#[derive(Debug, Drop)]
pub enum Output {
    Value(Expression),
    /// `!`: a line feed.
    NewLine,
}

/// What an argument of a `LOCK` does.
#[derive(Clone, Copy, Debug, PartialEq, Eq)]
pub enum LockAction {
    /// Without sign: the first such name of a command gives back all locks, and then each asks for its lock.
    Renew,
    /// `+`: asks for this lock beside the others.
    Add,
    /// `-`: gives this lock back.
    Remove,
}

/// One argument of a `LOCK`. Only a lock that is asked for has a timeout.
#[derive(Debug, Drop)]
pub struct Claim {
    pub action: LockAction,
    pub global: GlobalReference,
    pub mode: Mode,
    pub timeout: Option<Expression>,
}

/// What a command without blocks does.
#[derive(Debug, Drop)]
pub enum Action {
    Set(Items<Assignment>),
    Write(Items<Output>),
    /// Calls, whose answers aren't used.
    Do(Items<Expression>),
    Quit(Option<Expression>),
    Kill(Items<Place>),
    /// `KILL` without arguments: all variables of the frame.
    KillAll,
    Lock(Items<Claim>),
    /// `LOCK` without arguments.
    UnlockAll,
    TStart,
    TCommit,
    TRollback,
    /// `TROLLBACK 1`
    TRollbackOne,
    Halt,
}

/// The header of a `FOR`: a variable from a first number by a step, up to or down to a last one.
#[derive(Debug, Drop)]
pub struct Counting {
    pub variable: Text,
    pub first: Expression,
    pub step: Expression,
    pub last: Option<Expression>,
}

/// Commands, one after the other.
pub type Block = Items<Command>;

/// The commands of a whole script, or of a method's body.
pub type Script = Items<Command>;

/// An `IF` or `ELSEIF`: the line of its word, its conditions and its block.
#[cycle(command)]
#[derive(Debug, Drop)]
pub struct Branch {
    pub line: u32,
    pub conditions: Items<Expression>,
    pub block: Items<Command>,
}

/// A command. Its line is that of its word, for errors.
#[cycle(command)]
#[derive(Debug, Drop)]
pub enum Command {
    /// A command without blocks, with its postcondition.
    Plain {
        line: u32,
        condition: Option<Expression>,
        action: Action,
    },
    /// The first branch is that of `IF`, the others are those of `ELSEIF`.
    If {
        branches: Items<Branch>,
        otherwise: Option<Items<Command>>,
    },
    For {
        line: u32,
        counting: Option<Counting>,
        block: Items<Command>,
    },
    While {
        line: u32,
        conditions: Items<Expression>,
        block: Items<Command>,
    },
}
