ghost use Rattle.std.specs.Prelude.{◌≡◌, ◌++◌, OnOk, IfOk};
ghost use Rattle.global_dump.specs.Lines.{line_text as text_of_line, line_of, dump_of};

use crate::value::push_value;
use obj_kinds::{NoMemory, Node, Text, Value, push_node};
use std::alloc::Global;

/// Writes the line of a node and its value, with its line feed. It fails only for want of memory.
#[tactic(auto, unfolding(crate::specs::Lines::line_of))]
pub fn push_line(out: &mut Text, node: &Node, value: &Value) -> Result<(), NoMemory>
    ensures { OnOk result (out.new ≡ out.old ++ line_of node.now value.now) }
{
    push_node(out, node)?;
    out.push(b'=')?;
    push_value(out, value)?;
    out.push(b'\n')
}

/// The line of a node and its value, without its line feed. It fails only for want of memory.
pub fn line_text(alloc: Global, node: &Node, value: &Value) -> Result<Text, NoMemory>
    ensures { IfOk result (λ text. text ≡ text_of_line node.now value.now) }
{
    let mut out = Text::new(alloc);
    push_node(&mut out, node)?;
    out.push(b'=')?;
    push_value(&mut out, value)?;
    Ok(out)
}

/// The dump of nodes: one line each, in their order. It fails only for want of memory.
pub fn dump(alloc: Global, nodes: &[(Node, Value)]) -> Result<Text, NoMemory>
    ensures { IfOk result (λ text. text ≡ dump_of nodes.now) }
{
    let mut out = Text::new(alloc);
    for (node, value) in nodes {
        push_line(&mut out, node, value)?;
    }
    Ok(out)
}
