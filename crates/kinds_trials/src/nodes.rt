use crate::words::{legal_text, number_in, split_blank, text_in};
use obj_kinds::{
    ClassName, NoMemory, Node, Nodes, Pairs, Sub, SubError, Subs, Text, Value, Values, are_rising,
    copy_nodes, is_global_name, node_text, number_value,
};
use std::alloc::Global;

/// Whether a text is a global's name.
pub fn answer_name(alloc: Global, rest: &[u8]) -> Result<Text, NoMemory> {
    let name = text_in(alloc, rest)?;
    legal_text(alloc, is_global_name(name.as_slice()))
}

fn sub_in(alloc: Global, text: &Text) -> Result<Sub, NoMemory> {
    match Sub::from_text(alloc, text.as_slice()) {
        Ok(sub) => Ok(sub),
        Err(SubError::NoMemory) => Err(NoMemory),
        Err(_) => Ok(Sub::Str(text.copy(alloc)?)),
    }
}

/// The node of a global with so many subscripts, all the same.
pub fn node_of(alloc: Global, global: Text, count: u64, sub: &Text) -> Result<Node, NoMemory> {
    let mut subs = Subs::new(alloc);
    for _ in 0..count {
        subs.push(sub_in(alloc, sub)?)?;
    }
    Ok(Node { global, subs })
}

/// Whether a node of a global with so many subscripts is within the limits.
pub fn answer_node(alloc: Global, rest: &[u8]) -> Result<Text, NoMemory> {
    let (global, rest) = split_blank(rest);
    let (count, sub) = split_blank(rest);
    let sub = text_in(alloc, sub)?;
    let node = node_of(alloc, text_in(alloc, global)?, number_in(count), &sub)?;
    legal_text(alloc, node.is_legal())
}

fn one_sub(alloc: Global, sub: &[u8]) -> Result<Node, NoMemory> {
    let global = Text::from_slice(alloc, b"A")?;
    node_of(alloc, global, 1, &Text::from_slice(alloc, sub)?)
}

fn found(alloc: Global, nodes: Nodes, node: &Node) -> Result<Text, NoMemory> {
    if !are_rising(nodes.as_slice()) {
        return Text::from_slice(alloc, b"not rising");
    }
    let pairs = Pairs::from_rising(nodes).copy(alloc)?;
    match pairs.get(node) {
        Some(value) if value.is_same(&number_value(alloc, 2)?) => {
            Text::from_slice(alloc, b"rising, and the second is found")
        }
        _ => Text::from_slice(alloc, b"rising"),
    }
}

/// Whether the nodes of two subscripts stand in rising order, and what stands at the second.
pub fn answer_rise(alloc: Global, rest: &[u8]) -> Result<Text, NoMemory> {
    let (first, second) = split_blank(rest);
    let mut nodes = Nodes::new(alloc);
    nodes.push((one_sub(alloc, first)?, number_value(alloc, 1)?))?;
    nodes.push((one_sub(alloc, second)?, number_value(alloc, 2)?))?;
    let node = one_sub(alloc, second)?;
    found(alloc, nodes, &node)
}

/// The text of the node of a global and its subscripts.
pub fn answer_print(alloc: Global, rest: &[u8]) -> Result<Text, NoMemory> {
    let (global, subs) = split_blank(rest);
    let global = text_in(alloc, global)?;
    let mut list = Subs::new(alloc);
    for sub in subs.split(|byte| *byte == b' ') {
        if !sub.is_empty() {
            list.push(sub_in(alloc, &text_in(alloc, sub)?)?)?;
        }
    }
    node_text(alloc, &Node { global, subs: list })
}

fn list_of(alloc: Global, text: &Text) -> Result<Value, NoMemory> {
    let mut items = Values::new(alloc);
    items.push(Value::Str(text.copy(alloc)?))?;
    Ok(Value::List(items))
}

fn is_copied(alloc: Global, text: &Text) -> Result<bool, NoMemory> {
    let value = list_of(alloc, text)?;
    let mut nodes = Nodes::new(alloc);
    nodes.push((one_sub(alloc, b"x")?, value.copy(alloc)?))?;
    let copied = copy_nodes(alloc, nodes.as_slice())?;
    match copied.as_slice() {
        [(node, stored)] => Ok(stored.is_same(&value) && *node == one_sub(alloc, b"x")?),
        _ => Ok(false),
    }
}

/// Whether copies of a list of one text, of a node and of a name of a class are what they are copied from.
pub fn answer_copy(alloc: Global, rest: &[u8]) -> Result<Text, NoMemory> {
    let text = text_in(alloc, rest)?;
    let name = ClassName(text.copy(alloc)?);
    let is_same = name.copy(alloc)? == name && is_copied(alloc, &text)?;
    let answer: &[u8] = if is_same { b"the same" } else { b"another" };
    Text::from_slice(alloc, answer)
}
