ghost use Rattle.std.specs.Prelude.{◌≡◌, ◌++◌, IfOk, OnOk};
ghost use Rattle.std.specs.Fmt.{decimal};
ghost use Rattle.obj_kinds.specs.Ids.{id_text};
ghost use Rattle.obj_kinds.specs.Causes.{why_text, prop_text, cause_text as text_of_cause};

use crate::id::Id;
use crate::memory::NoMemory;
use crate::name::ClassName;
use crate::node::Node;
use crate::node_print::push_node;
use crate::op::Pid;
use crate::text::Text;
use itoa::Buffer;
use std::alloc::Global;

/// Which rule a property breaks.
#[derive(Clone, Copy, Debug, PartialEq, Eq)]
pub enum Why {
    Required,
    NotWhole,
    NotTruth,
    TooLong,
    TooSmall,
    TooLarge,
    KeyTooLong,
    RowTooLong,
}

/// Why an object call failed.
#[derive(Debug, Drop)]
pub enum Cause {
    /// A property of an object of the save breaks a rule; its name is empty where the row does.
    Invalid {
        class: ClassName,
        prop: Text,
        why: Why,
    },
    /// Each try of a lock was refused, the last by this process and node.
    Busy {
        pid: Pid,
        node: Node,
    },
    /// The object is no longer stored.
    Gone(Id),
    /// Another object has the key of a unique index.
    NotUnique {
        index: Text,
        other: Id,
    },
    /// A one side names no object of its declared class.
    NoTarget {
        class: ClassName,
        id: Id,
    },
    /// The object still has members; this is the first.
    HasMembers(Id),
    /// The member doesn't name the holder.
    NotMember(Id),
    /// No object is stored under the id.
    NotFound,
    /// The stored object has this class, which isn't the one called or below it.
    OtherClass(ClassName),
    /// The counter of ids can't rise.
    IdLimit,
    /// The id that was drawn is taken.
    IdTaken(Id),
    /// A node is missing or has the wrong form.
    Damaged(Node),
    /// 255 levels of transaction are open.
    TooDeep,
}

impl Why {
    /// The word of the rule.
    pub fn text(self) -> &'static [u8]
        ensures { result.now ≡ why_text self }
    {
        match self {
            Why::Required => b"Required",
            Why::NotWhole => b"NotWhole",
            Why::NotTruth => b"NotTruth",
            Why::TooLong => b"TooLong",
            Why::TooSmall => b"TooSmall",
            Why::TooLarge => b"TooLarge",
            Why::KeyTooLong => b"KeyTooLong",
            Why::RowTooLong => b"RowTooLong",
        }
    }
}

fn push_prop(out: &mut Text, prop: &Text) -> Result<(), NoMemory>
    ensures { OnOk result (out.new ≡ out.old ++ prop_text prop.now) }
{
    if prop.is_empty() {
        return out.push(b'%');
    }
    out.push_slice(prop.as_slice())
}

fn push_id(alloc: Global, out: &mut Text, id: &Id) -> Result<(), NoMemory>
    ensures { OnOk result (out.new ≡ out.old ++ id_text id.now) }
{
    let text = id.text(alloc)?;
    out.push_slice(text.as_slice())
}

fn push_pid(out: &mut Text, pid: Pid) -> Result<(), NoMemory>
    ensures { OnOk result (out.new ≡ out.old ++ decimal pid.0) }
{
    let mut buffer = Buffer::new();
    out.push_slice(buffer.format(pid.0).as_bytes())
}

/// The text of a cause, as a status has it behind `0 `: its word, and what it names, each after one
/// blank. It fails only for want of memory.
pub fn cause_text(alloc: Global, cause: &Cause) -> Result<Text, NoMemory>
    ensures { IfOk result (λ text. text ≡ text_of_cause cause.now) }
{
    let mut out = Text::new(alloc);
    match cause {
        Cause::Invalid { class, prop, why } => {
            out.push_slice(b"Invalid ")?;
            out.push_slice(class.0.as_slice())?;
            out.push(b' ')?;
            push_prop(&mut out, prop)?;
            out.push(b' ')?;
            out.push_slice(why.text())?;
        }
        Cause::Busy { pid, node } => {
            out.push_slice(b"Busy ")?;
            push_pid(&mut out, *pid)?;
            out.push(b' ')?;
            push_node(&mut out, node)?;
        }
        Cause::Gone(id) => {
            out.push_slice(b"Gone ")?;
            push_id(alloc, &mut out, id)?;
        }
        Cause::NotUnique { index, other } => {
            out.push_slice(b"NotUnique ")?;
            out.push_slice(index.as_slice())?;
            out.push(b' ')?;
            push_id(alloc, &mut out, other)?;
        }
        Cause::NoTarget { class, id } => {
            out.push_slice(b"NoTarget ")?;
            out.push_slice(class.0.as_slice())?;
            out.push(b' ')?;
            push_id(alloc, &mut out, id)?;
        }
        Cause::HasMembers(id) => {
            out.push_slice(b"HasMembers ")?;
            push_id(alloc, &mut out, id)?;
        }
        Cause::NotMember(id) => {
            out.push_slice(b"NotMember ")?;
            push_id(alloc, &mut out, id)?;
        }
        Cause::NotFound => out.push_slice(b"NotFound")?,
        Cause::OtherClass(class) => {
            out.push_slice(b"OtherClass ")?;
            out.push_slice(class.0.as_slice())?;
        }
        Cause::IdLimit => out.push_slice(b"IdLimit")?,
        Cause::IdTaken(id) => {
            out.push_slice(b"IdTaken ")?;
            push_id(alloc, &mut out, id)?;
        }
        Cause::Damaged(node) => {
            out.push_slice(b"Damaged ")?;
            push_node(&mut out, node)?;
        }
        Cause::TooDeep => out.push_slice(b"TooDeep")?,
    }
    Ok(out)
}
