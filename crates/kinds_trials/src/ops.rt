use crate::nodes::node_of;
use crate::words::{legal_text, number_in, signed_in, split_blank};
use obj_kinds::{
    Keep, Mode, NoMemory, Node, Op, Owner, Pid, Reply, Sub, Text, Value, number_value,
};
use std::alloc::Global;

fn node(alloc: Global, count: u64) -> Result<Node, NoMemory> {
    let global = Text::from_slice(alloc, b"A")?;
    node_of(alloc, global, count, &Text::from_slice(alloc, b"x")?)
}

fn op(kind: &[u8], node: Node, value: Value) -> Op {
    match kind {
        b"get" => Op::Get(node),
        b"defined" => Op::Defined(node),
        b"order" => Op::Order(node, None),
        b"set" => Op::Set(node, value),
        b"kill" => Op::Kill(node),
        b"incr" => Op::Incr(node, i64::MAX),
        b"lock" => Op::Lock(node, Mode::Shared, Owner::Script, Keep::Counted),
        b"unlock" => Op::Unlock(node, Mode::Exclusive, Owner::Object),
        b"after" => Op::Order(node, Some(Sub::Num(1_000_000_000_000_000_000))),
        b"unlock_all" => Op::UnlockAll(Owner::Script),
        _ => Op::End,
    }
}

/// Whether an operation on a node with so many subscripts is within the limits.
pub fn answer_op(alloc: Global, rest: &[u8]) -> Result<Text, NoMemory> {
    let (kind, count) = split_blank(rest);
    let op = op(
        kind,
        node(alloc, number_in(count))?,
        number_value(alloc, 1)?,
    );
    legal_text(alloc, op.copy(alloc)?.is_legal())
}

fn reply(alloc: Global, kind: &[u8], number: i64) -> Result<Reply, NoMemory> {
    Ok(match kind {
        b"found" => Reply::Found(number_value(alloc, number)?),
        b"next" => Reply::Next(Sub::Num(number)),
        b"number" => Reply::Number(number),
        b"held" => Reply::Held {
            pid: Pid(1),
            node: node(alloc, number.unsigned_abs())?,
            mode: Mode::Shared,
        },
        _ => Reply::Done,
    })
}

/// Whether a reply with this number is within the limits.
pub fn answer_reply(alloc: Global, rest: &[u8]) -> Result<Text, NoMemory> {
    let (kind, number) = split_blank(rest);
    let reply = reply(alloc, kind, signed_in(number))?;
    legal_text(alloc, reply.copy(alloc)?.is_legal())
}
