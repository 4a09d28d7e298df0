ghost use Rattle.std.specs.Prelude.{◌≡◌, IfOk};
ghost use Rattle.asking_plan.specs.Asked.{asked_of};

use obj_kinds::{ClassName, Id, Keep, Mode, NoMemory, Node, Op, Owner, Text, Value};
use std::alloc::Global;

/// The new key of a unique index, below whose node no entry may stand.
#[derive(Drop)]
pub struct KeyBelow {
    /// The extent of the index.
    pub extent: ClassName,
    /// The name of the index.
    pub index: Text,
    /// The node of the key.
    pub node: Node,
}

/// The members of an object, of which there may be none.
#[derive(Drop)]
pub struct MemberBelow {
    /// The extent of the members.
    pub extent: ClassName,
    /// The node below which their entries stand.
    pub node: Node,
}

/// The target of a one side, which must be there.
#[derive(Drop)]
pub struct TargetRow {
    /// The class that the side is declared with.
    pub class: ClassName,
    /// The id of the target.
    pub id: Id,
    /// The row of the target.
    pub row: Node,
}

/// What is asked, within a save or delete, where the reply tells no more than that it is done or why it isn't.
#[derive(Drop)]
pub enum Asking {
    /// A lock to the end of the outermost transaction. It may be asked again where another process holds it.
    Lock(Mode, Node),
    Kill(Node),
    Set(Node, Value),
    /// Whether a key of a unique index is free: `NotUnique` names who has it, `Damaged` the node below which something else stands.
    NoKey(KeyBelow),
    /// Whether there is no member: `HasMembers` names the first, `Damaged` the node below which something else stands.
    NoMember(MemberBelow),
    /// Whether a target is there, or `NoTarget`.
    Target(TargetRow),
}

/// The operation that is asked. It fails only for want of memory.
pub fn operation(alloc: Global, asking: &Asking) -> Result<Op, NoMemory>
    ensures { IfOk result (λ op. op ≡ asked_of asking.now) }
{
    match asking {
        Asking::Lock(mode, node) => {
            let node = node.copy(alloc)?;
            Ok(Op::Lock(node, *mode, Owner::Object, Keep::ToEnd))
        }
        Asking::Kill(node) => Ok(Op::Kill(node.copy(alloc)?)),
        Asking::Set(node, value) => Ok(Op::Set(node.copy(alloc)?, value.copy(alloc)?)),
        Asking::NoKey(test) => Ok(Op::Order(test.node.copy(alloc)?, None)),
        Asking::NoMember(test) => Ok(Op::Order(test.node.copy(alloc)?, None)),
        Asking::Target(target) => Ok(Op::Defined(target.row.copy(alloc)?)),
    }
}
