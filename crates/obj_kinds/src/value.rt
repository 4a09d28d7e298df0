ghost use Rattle.std.specs.Prelude.{◌≡◌, ◌+◌, ◌<◌, IfOk, IfSome, IfNone, IsTrue, ◌↔◌, nat_le, map};
ghost use Rattle.obj_kinds.specs.Values.{items_weight, weight, all_nested, nested, all_true, all_texts, same_value, each_same, as_value as number_stored};
ghost use Rattle.obj_kinds.specs.Limits.{is_legal_text, is_legal_value};

use crate::memory::NoMemory;
use crate::node::Node;
use crate::text::Text;
use itoa::Buffer;
use sqlite_items::Items;
use std::alloc::Global;

/// A stored value: a text, or a list of values.
#[derive(Debug, Drop)]
pub enum Value {
    Str(Text),
    List(Items<Value>),
}

/// The values of a list, in order.
pub type Values = Items<Value>;

/// Nodes with their values, in rising node order, each node once.
pub type Nodes = Items<(Node, Value)>;

/// Whether at most so many lists stand in one another: a text has none, a list one more than its
/// items. It calls itself at most so often.
#[cycle(nesting)]
fn is_nested(value: &Value, most: u32) -> bool
    ensures { result ≡ nested value.now most }
{
    match value {
        Value::Str(_) => true,
        Value::List(values) => match most.checked_sub(1) {
            Some(most) => are_nested(values.as_slice(), most),
            None => false,
        },
    }
}

#[cycle(nesting)]
fn are_nested(values: &[Value], most: u32) -> bool
    ensures { result ≡ all_nested most (map nested values.now) }
{
    for value in values {
        if !is_nested(value, most) {
            return false;
        }
    }
    true
}

/// Whether each text in the value is within the limits of a text; called where it isn't nested too
/// deep.
#[cycle(texts)]
fn has_legal_texts(value: &Value) -> bool
    ensures { result ≡ all_texts is_legal_text value.now }
{
    match value {
        Value::Str(text) => text.is_legal(),
        Value::List(values) => have_legal_texts(values.as_slice()),
    }
}

#[cycle(texts)]
fn have_legal_texts(values: &[Value]) -> bool
    ensures { result ≡ all_true (map (all_texts is_legal_text) values.now) }
{
    for value in values {
        if !has_legal_texts(value) {
            return false;
        }
    }
    true
}

fn without(room: usize, weight: usize) -> Option<usize>
    ensures some { IfSome result (λ left. left + weight ≡ room) }
    ensures none { IfNone result (room < weight) }
{
    room.checked_sub(weight)
}

#[cycle(weight)]
fn without_values(room: usize, values: &[Value]) -> Option<usize>
    ensures some { IfSome result (λ left. left + items_weight (map weight values.now) ≡ room) }
    ensures none { IfNone result (room < items_weight (map weight values.now)) }
{
    let mut left = room;
    for value in values {
        left = value.without_weight(without(left, 2)?)?;
    }
    Some(left)
}

#[cycle(same)]
fn same_values(left: &[Value], right: &[Value]) -> bool
    ensures { result ≡ each_same (map same_value left.now) right.now }
{
    if left.len() != right.len() {
        return false;
    }
    for (at, value) in left.iter().enumerate() {
        if !same_values_at(value, &right[at]) {
            return false;
        }
    }
    true
}

/// Whether both values are the same.
#[cycle(same)]
fn same_values_at(left: &Value, right: &Value) -> bool
    ensures { result ≡ same_value left.now right.now }
{
    match (left, right) {
        (Value::Str(left), Value::Str(right)) => left.is_same(right),
        (Value::List(left), Value::List(right)) => same_values(left.as_slice(), right.as_slice()),
        _ => false,
    }
}

/// The number as it is stored: its digits, behind `-` where it is below 0.
pub fn number_value(alloc: Global, number: i64) -> Result<Value, NoMemory>
    ensures { IfOk result (λ v. v ≡ number_stored number) }
{
    let mut buffer = Buffer::new();
    let text = Text::from_slice(alloc, buffer.format(number).as_bytes())?;
    Ok(Value::Str(text))
}

impl Value {
    /// The most that a value may weigh.
    pub const MAX_WEIGHT: usize = 32_767;

    /// How many lists of a value may stand in one another.
    pub const MAX_DEPTH: u32 = 16;

    /// Whether it is within the limits of a value: its lists are nested at most
    /// [`Value::MAX_DEPTH`] deep, it weighs at most [`Value::MAX_WEIGHT`], and each text in it is
    /// within the limits of a text. A text weighs its length, a list 2 plus for each item 2 and its
    /// weight.
    #[tactic(auto, unfolding(crate::specs::Limits::is_legal_value))]
    pub fn is_legal(&self) -> bool
        ensures { result ≡ is_legal_value self.now }
    {
        is_nested(self, Self::MAX_DEPTH) && self.is_light() && has_legal_texts(self)
    }

    fn is_light(&self) -> bool
        ensures { result ≡ nat_le (weight self.now) 32767 }
    {
        self.without_weight(Self::MAX_WEIGHT).is_some()
    }

    /// What is left of the room without the weight of the value; none where it isn't enough.
    #[cycle(weight)]
    pub fn without_weight(&self, room: usize) -> Option<usize>
        ensures some { IfSome result (λ left. left + weight self.now ≡ room) }
        ensures none { IfNone result (room < weight self.now) }
    {
        match self {
            Value::Str(text) => without(room, text.len()),
            Value::List(values) => without_values(without(room, 2)?, values.as_slice()),
        }
    }

    /// Whether both are the same.
    #[tactic(auto, using(crate::proofs::ValueLaws::value_is_same))]
    pub fn is_same(&self, other: &Value) -> bool
        ensures { IsTrue result ↔ (self.now ≡ other.now) }
    {
        same_values_at(self, other)
    }

    /// The same value again; it fails only for want of memory.
    #[cycle(value_copy)]
    pub fn copy(&self, alloc: Global) -> Result<Value, NoMemory>
        ensures { IfOk result (λ v. v ≡ self.now) }
    {
        match self {
            Value::Str(text) => Ok(Value::Str(text.copy(alloc)?)),
            Value::List(values) => Ok(Value::List(copy_values(alloc, values.as_slice())?)),
        }
    }
}

/// The same values again; it fails only for want of memory.
#[cycle(value_copy)]
pub fn copy_values(alloc: Global, values: &[Value]) -> Result<Values, NoMemory>
    ensures { IfOk result (λ copy. copy ≡ values.now) }
{
    let mut copy = Items::new(alloc);
    for value in values {
        copy.push(value.copy(alloc)?)?;
    }
    Ok(copy)
}

/// The same nodes and values again; it fails only for want of memory.
pub fn copy_nodes(alloc: Global, pairs: &[(Node, Value)]) -> Result<Nodes, NoMemory>
    ensures { IfOk result (λ copy. copy ≡ pairs.now) }
{
    let mut copy = Items::new(alloc);
    for pair in pairs {
        let node = pair.0.copy(alloc)?;
        let value = pair.1.copy(alloc)?;
        copy.push((node, value))?;
    }
    Ok(copy)
}
