ghost use Rattle.std.specs.Prelude.{◌≢◌, IfOk};
ghost use Rattle.obj_kinds.specs.declared.op.Op.TheVariants.{End};

use itoa::Buffer;
use obj_kinds::{Keep, Mode, NoMemory, Node, Op, Owner, Reply, Sub, Text, Value};
use sqlite_items::Items;
use std::alloc::Global;

/// How many places there are.
pub const PLACES: u8 = 7;

/// The global's letter and the subscript of a place, in node order; 0 is no subscript.
pub fn way(place: u8) -> (u8, i64) {
    match place {
        0 => (b'a', 0),
        1 => (b'a', 1),
        2 => (b'a', 2),
        3 => (b'b', 0),
        4 => (b'b', 7),
        5 => (b'c', 0),
        _ => (b'x', 0),
    }
}

/// An operation at places; values are numbers.
#[derive(Clone, Copy, Debug, PartialEq, Eq)]
pub enum Ask {
    Get(u8),
    Defined(u8),
    /// After a subscript; 0 is none.
    Order(u8, i64),
    Set(u8, i64),
    Kill(u8),
    Incr(u8, i64),
    Lock(u8, Mode, Owner, Keep),
    Unlock(u8, Mode, Owner),
    UnlockAll(Owner),
    Begin,
    Commit,
    RollbackOne,
    RollbackAll,
}

/// What is wanted as its reply.
#[derive(Clone, Copy, Debug, PartialEq, Eq)]
pub enum Want {
    Done,
    Found(i64),
    Absent,
    Next(i64),
    NoNext,
    State(u8),
    Number(i64),
    Granted,
    Held(u32, u8, Mode),
    NotHeld,
    NoTran,
}

fn node(alloc: Global, letter: u8, sub: i64) -> Result<Node, NoMemory> {
    let mut subs = Items::new(alloc);
    if sub != 0 {
        subs.push(Sub::Num(sub))?;
    }
    let global = Text::from_slice(alloc, [letter].as_slice())?;
    Ok(Node { global, subs })
}

fn at(alloc: Global, place: u8) -> Result<Node, NoMemory> {
    let (letter, sub) = way(place);
    node(alloc, letter, sub)
}

fn number(alloc: Global, number: i64) -> Result<Value, NoMemory> {
    let mut buffer = Buffer::new();
    let text = Text::from_slice(alloc, buffer.format(number).as_bytes())?;
    Ok(Value::Str(text))
}

fn after(sub: i64) -> Option<Sub> {
    if sub == 0 { None } else { Some(Sub::Num(sub)) }
}

impl Ask {
    /// The operation that asks it.
    pub fn op(self, alloc: Global) -> Result<Op, NoMemory>
        ensures { IfOk result (λ op. op ≢ End) }
    {
        match self {
            Ask::Get(place) => Ok(Op::Get(at(alloc, place)?)),
            Ask::Defined(place) => Ok(Op::Defined(at(alloc, place)?)),
            Ask::Order(place, sub) => Ok(Op::Order(at(alloc, place)?, after(sub))),
            Ask::Set(place, to) => Ok(Op::Set(at(alloc, place)?, number(alloc, to)?)),
            Ask::Kill(place) => Ok(Op::Kill(at(alloc, place)?)),
            Ask::Incr(place, step) => Ok(Op::Incr(at(alloc, place)?, step)),
            Ask::Lock(place, mode, owner, keep) => {
                Ok(Op::Lock(at(alloc, place)?, mode, owner, keep))
            }
            Ask::Unlock(place, mode, owner) => Ok(Op::Unlock(at(alloc, place)?, mode, owner)),
            Ask::UnlockAll(owner) => Ok(Op::UnlockAll(owner)),
            Ask::Begin => Ok(Op::Begin),
            Ask::Commit => Ok(Op::Commit),
            Ask::RollbackOne => Ok(Op::RollbackOne),
            Ask::RollbackAll => Ok(Op::RollbackAll),
        }
    }

    /// Whether the operation asks it.
    pub fn is(self, op: &Op) -> bool {
        match (op, self) {
            (Op::Get(node), Ask::Get(place)) => is_at(node, place),
            (Op::Defined(node), Ask::Defined(place)) => is_at(node, place),
            (Op::Order(node, sub), Ask::Order(place, to)) => is_at(node, place)
                && is_after(sub, to),
            (Op::Set(node, value), Ask::Set(place, to)) => {
                is_at(node, place) && is_number(value, to)
            }
            (Op::Kill(node), Ask::Kill(place)) => is_at(node, place),
            (Op::Incr(node, by), Ask::Incr(place, step)) => is_at(node, place) && *by == step,
            (Op::Lock(node, as_mode, by, long), Ask::Lock(place, mode, owner, keep)) => {
                is_at(node, place) && *as_mode == mode && *by == owner && *long == keep
            }
            (Op::Unlock(node, as_mode, by), Ask::Unlock(place, mode, owner)) => {
                is_at(node, place) && *as_mode == mode && *by == owner
            }
            (Op::UnlockAll(by), Ask::UnlockAll(owner)) => *by == owner,
            (Op::Begin, Ask::Begin) => true,
            (Op::Commit, Ask::Commit) => true,
            (Op::RollbackOne, Ask::RollbackOne) => true,
            (Op::RollbackAll, Ask::RollbackAll) => true,
            _ => false,
        }
    }
}

fn is_number(value: &Value, number: i64) -> bool {
    let mut buffer = Buffer::new();
    match value {
        Value::Str(text) => text.as_slice() == buffer.format(number).as_bytes(),
        Value::List(_) => false,
    }
}

fn is_sub(sub: &Sub, number: i64) -> bool {
    match sub {
        Sub::Num(is) => *is == number,
        Sub::Str(_) => false,
    }
}

fn is_at(node: &Node, place: u8) -> bool {
    let (letter, sub) = way(place);
    let here = match node.subs.as_slice() {
        [] => sub == 0,
        [one] => is_sub(one, sub),
        _ => false,
    };
    here && node.global.as_slice() == [letter].as_slice()
}

/// 0 is no subscript.
fn is_after(sub: &Option<Sub>, number: i64) -> bool {
    match sub {
        None => number == 0,
        Some(sub) => number != 0 && is_sub(sub, number),
    }
}

impl Want {
    /// Whether the reply is as wanted.
    pub fn is(self, reply: &Reply) -> bool {
        match (reply, self) {
            (Reply::Done, Want::Done) => true,
            (Reply::Found(value), Want::Found(to)) => is_number(value, to),
            (Reply::Absent, Want::Absent) => true,
            (Reply::Next(sub), Want::Next(to)) => is_sub(sub, to),
            (Reply::NoNext, Want::NoNext) => true,
            (Reply::State(is), Want::State(to)) => *is == to,
            (Reply::Number(is), Want::Number(to)) => *is == to,
            (Reply::Granted, Want::Granted) => true,
            (Reply::Held { pid, node, mode }, Want::Held(by, place, how)) => {
                pid.0 == by && *mode == how && is_at(node, place)
            }
            (Reply::NotHeld, Want::NotHeld) => true,
            (Reply::NoTran, Want::NoTran) => true,
            _ => false,
        }
    }
}
