ghost use Rattle.std.specs.Prelude.{◌≡◌};
ghost use Rattle.os_machine.specs.Moves.{lost, lost_some, held, event_of};

use obj_kinds::{ErrorName, Text};
use os_kinds::{Call, Event, Val};

/// What a frame shows without being asked for more.
#[derive(Debug, Drop)]
pub(crate) enum Sight {
    Print(Text),
    /// An object has one more place.
    More(u64),
    /// An object has lost a place.
    Less(u64),
    Point,
}

impl Sight {
    pub(crate) fn event(self) -> Event
        ensures { result ≡ event_of self }
    {
        match self {
            Sight::Print(text) => Event::Print(text),
            Sight::More(number) => Event::More(number),
            Sight::Less(number) => Event::Less(number),
            Sight::Point => Event::Point,
        }
    }
}

/// Which reply of the store an instruction waits for, and so what the reply does. One that can fail has the line of its command.
#[derive(Clone, Copy, Debug, PartialEq, Eq)]
pub(crate) enum Wanted {
    /// The value of a node.
    Found(u32),
    /// The value of a node, or the empty text.
    FoundOrEmpty,
    /// The value of a node; where there is none, one instruction is passed.
    FoundOrSkip,
    /// What is at and below a node.
    State,
    /// The next subscript.
    Next,
    /// A sum.
    Counted(u32),
    /// That it is done.
    Done,
    /// That a lock is given back, if it was held.
    GivenBack,
    /// That a transaction is open.
    Begun(u32),
    /// That a transaction has ended.
    Committed(u32),
    /// That a transaction is undone, if there was one.
    Undone,
}

/// What an instruction that has asked waits for, and so what its answer does.
#[derive(Clone, Copy, Debug, PartialEq, Eq)]
pub(crate) enum Awaits {
    /// A value, which goes on the stack.
    Value(u32),
    /// A property of which a method follows.
    Subject(u32),
    /// The same of the object whose method runs.
    OwnSubject(u32),
    /// That a property is set.
    Written(u32),
    /// That a lock was tried.
    Tried,
    /// A reply of the store.
    Reply(Wanted),
}

/// What one instruction does.
#[derive(Debug, Drop)]
pub(crate) enum Stepped {
    /// Nothing that is seen; the code goes on behind so many of the following instructions.
    Goes(usize),
    /// It shows something, and then goes on in the same way.
    Shows(Sight, usize),
    /// It shows something, and has more to do.
    Stays(Sight),
    /// It asks, and waits for the answer.
    Asks(Call, Awaits),
    /// The frame is left with a value.
    Leaves(Val),
    /// It takes a unit.
    Spends,
    /// It takes a unit, and goes back by so many instructions.
    Returns(usize),
    Fails(ErrorName, u32),
    Halts,
}

/// What an answer does.
#[derive(Debug, Drop)]
pub(crate) enum Received {
    /// The code goes on behind so many instructions.
    Goes(usize),
    Fails(ErrorName, u32),
    /// The answer doesn't fit.
    Halts,
}

/// A value has lost its place; what follows is behind so many instructions.
pub(crate) fn lost(value: &Val, over: usize) -> Stepped
    ensures { result ≡ lost value.now over }
{
    match value {
        Val::Data(_) => Stepped::Goes(over),
        Val::Ref { number, .. } => Stepped::Shows(Sight::Less(*number), over),
    }
}

/// The same of a value that a variable may have had.
pub(crate) fn lost_some(value: &Option<Val>) -> Stepped
    ensures { result ≡ lost_some value.now }
{
    match value {
        None => Stepped::Goes(0),
        Some(value) => lost(value, 0),
    }
}

/// A copy of a value has got a place.
pub(crate) fn held(value: &Val) -> Stepped
    ensures { result ≡ held value.now }
{
    match value {
        Val::Data(_) => Stepped::Goes(0),
        Val::Ref { number, .. } => Stepped::Shows(Sight::More(*number), 0),
    }
}
