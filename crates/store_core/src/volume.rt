ghost use Rattle.std.specs.Prelude.{◌≡◌, ◌+◌, ◌<◌, IfSome, IfNone, map};
ghost use Rattle.store_core.specs.Volume.{total, sub_volume as of_sub, node_volume as of_node, value_volume as of_value, after_volume as of_after, op_volume as of_op, reply_volume as of_reply};

use obj_kinds::{Node, Op, Reply, Sub, Value};

/// What is left of the room without so much; none where it isn't enough.
fn without(room: u64, size: usize) -> Option<u64>
    ensures some { IfSome result (λ left. left + size ≡ room) }
    ensures none { IfNone result (room < size) }
{
    room.checked_sub(size as u64)
}

/// A number counts 8, a text its bytes.
fn without_sub(room: u64, sub: &Sub) -> Option<u64>
    ensures some { IfSome result (λ left. left + of_sub sub.now ≡ room) }
    ensures none { IfNone result (room < of_sub sub.now) }
{
    match sub {
        Sub::Num(_) => without(room, 8),
        Sub::Str(text) => without(room, text.len()),
    }
}

fn without_subs(room: u64, subs: &[Sub]) -> Option<u64>
    ensures some { IfSome result (λ left. left + total (map of_sub subs.now) ≡ room) }
    ensures none { IfNone result (room < total (map of_sub subs.now)) }
{
    let mut left = room;
    for sub in subs {
        left = without_sub(left, sub)?;
    }
    Some(left)
}

fn without_node(room: u64, node: &Node) -> Option<u64>
    ensures some { IfSome result (λ left. left + of_node node.now ≡ room) }
    ensures none { IfNone result (room < of_node node.now) }
{
    let left = without(room, node.global.len())?;
    without_subs(left, node.subs.as_slice())
}

/// All bytes of its texts.
#[cycle(value)]
fn without_value(room: u64, value: &Value) -> Option<u64>
    ensures some { IfSome result (λ left. left + of_value value.now ≡ room) }
    ensures none { IfNone result (room < of_value value.now) }
{
    match value {
        Value::Str(text) => without(room, text.len()),
        Value::List(values) => without_values(room, values.as_slice()),
    }
}

#[cycle(value)]
fn without_values(room: u64, values: &[Value]) -> Option<u64>
    ensures some { IfSome result (λ left. left + total (map of_value values.now) ≡ room) }
    ensures none { IfNone result (room < total (map of_value values.now)) }
{
    let mut left = room;
    for value in values {
        left = without_value(left, value)?;
    }
    Some(left)
}

fn without_after(room: u64, after: &Option<Sub>) -> Option<u64>
    ensures some { IfSome result (λ left. left + of_after after.now ≡ room) }
    ensures none { IfNone result (room < of_after after.now) }
{
    match after {
        None => Some(room),
        Some(sub) => without_sub(room, sub),
    }
}

/// What is left of the room without the texts and numbers of an operation.
#[tactic(auto, unfolding(crate::specs::Volume::op_volume))]
pub fn without_op(room: u64, op: &Op) -> Option<u64>
    ensures some { IfSome result (λ left. left + of_op op.now ≡ room) }
    ensures none { IfNone result (room < of_op op.now) }
{
    match op {
        Op::Get(node) => without_node(room, node),
        Op::Defined(node) => without_node(room, node),
        Op::Order(node, after) => without_after(without_node(room, node)?, after),
        Op::Set(node, value) => without_value(without_node(room, node)?, value),
        Op::Kill(node) => without_node(room, node),
        Op::Incr(node, _) => without(without_node(room, node)?, 8),
        Op::Lock(node, _, _, _) => without_node(room, node),
        Op::Unlock(node, _, _) => without_node(room, node),
        _ => Some(room),
    }
}

/// What is left of the room without the texts and numbers of a reply.
#[tactic(auto, unfolding(crate::specs::Volume::reply_volume))]
pub fn without_reply(room: u64, reply: &Reply) -> Option<u64>
    ensures some { IfSome result (λ left. left + of_reply reply.now ≡ room) }
    ensures none { IfNone result (room < of_reply reply.now) }
{
    match reply {
        Reply::Found(value) => without_value(room, value),
        Reply::Next(sub) => without_sub(room, sub),
        Reply::Number(_) => without(room, 8),
        Reply::Held { node, .. } => without_node(room, node),
        _ => Some(room),
    }
}
