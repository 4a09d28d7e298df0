ghost use Rattle.std.specs.Prelude.{◌≡◌, ◌++◌, IfOk, OnOk};
ghost use Rattle.obj_kinds.specs.NodeText.{sub_text, subs_text, node_text as text_of_node};

use crate::memory::NoMemory;
use crate::node::Node;
use crate::quote::push_quoted;
use crate::sub::Sub;
use crate::text::Text;
use itoa::Buffer;
use std::alloc::Global;

fn push_sub(out: &mut Text, sub: &Sub) -> Result<(), NoMemory>
    ensures { OnOk result (out.new ≡ out.old ++ sub_text sub.now) }
{
    match sub {
        Sub::Num(number) => {
            let mut buffer = Buffer::new();
            out.push_slice(buffer.format(*number).as_bytes())
        }
        Sub::Str(text) => push_quoted(out, text.as_slice()),
    }
}

fn push_subs(out: &mut Text, subs: &[Sub]) -> Result<(), NoMemory>
    ensures { OnOk result (out.new ≡ out.old ++ subs_text subs.now) }
{
    let Some((first, others)) = subs.split_first() else {
        return Ok(());
    };
    out.push(b'(')?;
    push_sub(out, first)?;
    for sub in others {
        out.push(b',')?;
        push_sub(out, sub)?;
    }
    out.push(b')')
}

/// Writes a node as a dump has it: `^name`, and its subscripts in parentheses, numbers bare and
/// other texts in quotes. It fails only for want of memory.
#[tactic(auto, unfolding(crate::specs::NodeText::node_text))]
pub fn push_node(out: &mut Text, node: &Node) -> Result<(), NoMemory>
    ensures { OnOk result (out.new ≡ out.old ++ text_of_node node.now) }
{
    out.push(b'^')?;
    out.push_slice(node.global.as_slice())?;
    push_subs(out, node.subs.as_slice())
}

/// The node as a dump has it; it fails only for want of memory.
pub fn node_text(alloc: Global, node: &Node) -> Result<Text, NoMemory>
    ensures { IfOk result (λ text. text ≡ text_of_node node.now) }
{
    let mut out = Text::new(alloc);
    push_node(&mut out, node)?;
    Ok(out)
}
