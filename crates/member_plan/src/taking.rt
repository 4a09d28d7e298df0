ghost use Rattle.std.specs.Prelude.{◌≡◌, ◌≤◌, true, false, List, IfOk, OnOk, OnErr};
ghost use Rattle.obj_kinds.specs.declared.op.Reply.{Reply as Answered};
ghost use Rattle.obj_kinds.specs.declared.op.Mode.TheVariants.{Shared};
ghost use Rattle.obj_kinds.specs.Limits.{is_legal_reply, is_legal_sub};
ghost use Rattle.schema_kinds.specs.declared.class.Class.{Class};
ghost use Rattle.store_calls.specs.Calls.{Plain, bind, run, try_from};
ghost use Rattle.object_calls.specs.Asking.{lock_counted};
ghost use Rattle.object_calls.specs.Extents.{extent_at as extent_of_class, id_below as id_of_member};
ghost use Rattle.object_calls.specs.Members.{next_locked, member_or, on_next_member};
ghost use Rattle.read_plan.specs.Reads.{tried_of};
ghost use Rattle.member_plan.specs.Nexts.{meant, node_of, key_ends, to_come_now, IsBegun, IsTaken, is_asking, is_told, is_unlocking, behind_unlock};
ghost use Rattle.member_plan.specs.declared.call.MemberCall.{MemberCall as Called};
ghost use Rattle.member_plan.specs.declared.phase.MemberPhase.TheVariants.{Locking};

use crate::asking::node_in;
use crate::call::{Member, MemberCall};
use crate::phase::MemberPhase;
use crate::side::{extent_at, id_below};
use obj_kinds::{Cause, NoMemory, Reply, Sub};
use schema_kinds::Schema;
use std::alloc::Global;
use std::mem;

/// The phase in which a look begins, for a holder of the level, with so many tries of a lock.
pub fn first_phase(level: u8, tries: u32) -> MemberPhase
    requires { 1 ≤ tries }
    ensures begun { (classes : List Class) (c : Called) → c.level ≡ level → c.tries ≡ tries → IsBegun classes c result }
    ensures told { is_told result ≡ false }
{
    if level > 0 {
        MemberPhase::Locking(tries - 1)
    } else {
        MemberPhase::AtKey(false)
    }
}

// A try of the lock was refused, and so many are left.
#[tactic(auto, unfolding(crate::specs::Nexts::to_come_now))]
fn refused(left: u32, cause: Cause) -> MemberPhase
    ensures left { (classes : List Class) (c : Called) (rs : List Answered) → run (to_come_now classes c result) rs ≡ run (bind (try_from cause Plain left (lock_counted Shared (node_of classes c))) (next_locked classes 0 (meant c) c.holder c.behind)) rs }
    ensures told { is_told result ≡ false }
{
    if left == 0 {
        MemberPhase::Over(Err(cause))
    } else {
        MemberPhase::Locking(left - 1)
    }
}

#[tactic(auto, unfolding(crate::specs::Nexts::to_come_now))]
fn lock_taken(left: u32, reply: Reply) -> MemberPhase
    ensures taken { (classes : List Class) (c : Called) → IsTaken classes c reply (Locking left) result }
    ensures told { is_told result ≡ false }
{
    match reply {
        Reply::Granted => MemberPhase::AtKey(true),
        Reply::Held { pid, node, .. } => refused(left, Cause::Busy { pid, node }),
        _ => refused(left, Cause::NotFound),
    }
}

// What a subscript below the members' node tells.
fn member_at(
    alloc: Global,
    schema: &Schema,
    call: &MemberCall,
    sub: &Sub,
) -> Result<Member, NoMemory>
    ensures { IfOk result (λ member. is_legal_sub sub.now ≡ true → tried_of member ≡ member_or (node_of schema.now call.now) (id_of_member schema.now (extent_of_class schema.now call.now.class) sub.now)) }
{
    match id_below(extent_at(schema, &call.class), sub) {
        Some(id) => Ok(Ok(Some(id))),
        None => Ok(Err(Cause::Damaged(node_in(alloc, schema, call)?))),
    }
}

// What the reply to the look for a key tells.
#[tactic(auto, unfolding(obj_kinds::specs::Limits::is_legal_reply))]
fn member_told(
    alloc: Global,
    schema: &Schema,
    call: &MemberCall,
    reply: &Reply,
) -> Result<Member, NoMemory>
    ensures { IfOk result (λ member. is_legal_reply reply.now ≡ true → tried_of member ≡ on_next_member schema.now (extent_of_class schema.now call.now.class) (node_of schema.now call.now) reply.now) }
{
    match reply {
        Reply::Next(sub) => member_at(alloc, schema, call, sub),
        _ => Ok(Ok(None)),
    }
}

// The member was told: a lock is given back first.
#[tactic(auto, unfolding(crate::specs::Nexts::to_come_now))]
fn told_at_key(is_locked: bool, member: Member) -> MemberPhase
    ensures left { (classes : List Class) (c : Called) (rs : List Answered) → run (to_come_now classes c result) rs ≡ run (key_ends classes c is_locked (tried_of member)) rs }
    ensures told { is_told result ≡ false }
{
    if is_locked {
        MemberPhase::Unlocking(member)
    } else {
        MemberPhase::Over(member)
    }
}

// The lock was given back.
fn unlocked(phase: &mut MemberPhase)
    requires { is_unlocking phase.old ≡ true }
    ensures { phase.new ≡ behind_unlock phase.old }
{
    match mem::replace(phase, MemberPhase::Told) {
        MemberPhase::Unlocking(member) => *phase = MemberPhase::Over(member),
        _ => unreachable!(),
    }
}

/// Takes the reply to what the phase asks. For want of memory the phase stays as it was.
pub fn taken(
    alloc: Global,
    schema: &Schema,
    call: &MemberCall,
    phase: &mut MemberPhase,
    reply: Reply,
) -> Result<(), NoMemory>
    requires { is_asking phase.old ≡ true }
    ensures ok { OnOk result (IsTaken schema.now call.now reply phase.old phase.new) }
    ensures told { is_told phase.new ≡ false }
    ensures err { OnErr result (phase.new ≡ phase.old) }
{
    match phase {
        MemberPhase::Locking(left) => {
            *phase = lock_taken(*left, reply);
            Ok(())
        }
        MemberPhase::AtKey(is_locked) => {
            let is_locked = *is_locked;
            let member = member_told(alloc, schema, call, &reply)?;
            *phase = told_at_key(is_locked, member);
            Ok(())
        }
        MemberPhase::Unlocking(_) => {
            unlocked(phase);
            Ok(())
        }
        MemberPhase::Over(_) | MemberPhase::Told => unreachable!(),
    }
}
