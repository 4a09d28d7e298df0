ghost use Rattle.std.specs.Prelude.{◌≡◌, IfOk, option_map};
ghost use Rattle.obj_kinds.specs.Ids.{id_text};
ghost use Rattle.obj_kinds.specs.Subscript.{sub_of};
ghost use Rattle.member_plan.specs.Nexts.{node_of, asked_in};

use crate::call::MemberCall;
use crate::phase::MemberPhase;
use crate::side::{ManySide, id_sub, members_node};
use obj_kinds::{Id, Keep, Mode, NoMemory, Node, Op, Owner, Sub};
use schema_kinds::Schema;
use std::alloc::Global;

/// The node below which the entries of the members stand. It fails only for want of memory.
pub fn node_in(alloc: Global, schema: &Schema, call: &MemberCall) -> Result<Node, NoMemory>
    ensures { IfOk result (λ node. node ≡ node_of schema.now call.now) }
{
    let side = ManySide {
        class: &call.class,
        side: &call.side,
    };
    members_node(alloc, schema, &side, &call.holder)
}

// The member behind which the next one is looked for, as a subscript.
fn behind_sub(alloc: Global, behind: Option<Id>) -> Result<Option<Sub>, NoMemory>
    ensures { IfOk result (λ sub. sub ≡ option_map (λ id. sub_of (id_text id)) behind) }
{
    match behind {
        None => Ok(None),
        Some(id) => Ok(Some(id_sub(alloc, &id)?)),
    }
}

/// What the phase of a look asks; nothing where it waits for no reply. It fails only for want of memory.
pub fn operation(
    alloc: Global,
    schema: &Schema,
    call: &MemberCall,
    phase: &MemberPhase,
) -> Result<Option<Op>, NoMemory>
    ensures { IfOk result (λ op. op ≡ asked_in schema.now call.now phase.now) }
{
    match phase {
        MemberPhase::Locking(_) => {
            let node = node_in(alloc, schema, call)?;
            let op = Op::Lock(node, Mode::Shared, Owner::Object, Keep::Counted);
            Ok(Some(op))
        }
        MemberPhase::AtKey(_) => {
            let node = node_in(alloc, schema, call)?;
            let behind = behind_sub(alloc, call.behind)?;
            Ok(Some(Op::Order(node, behind)))
        }
        MemberPhase::Unlocking(_) => {
            let node = node_in(alloc, schema, call)?;
            Ok(Some(Op::Unlock(node, Mode::Shared, Owner::Object)))
        }
        MemberPhase::Over(_) => Ok(None),
        MemberPhase::Told => Ok(None),
    }
}
