ghost use Rattle.std.specs.Prelude.{◌≡◌, true, IfOk, List};
ghost use Rattle.obj_kinds.specs.Limits.{is_legal_reply};
ghost use Rattle.schema_kinds.specs.declared.class.Class.{Class};
ghost use Rattle.object_calls.specs.Deletes.{on_member};
ghost use Rattle.object_calls.specs.Saves.{on_key_below, on_target};
ghost use Rattle.asking_plan.specs.Asked.{lacks_value, lock_refused, lock_tells, tested, tried_with, IsVerdict};

use crate::asking::{Asking, KeyBelow, MemberBelow, TargetRow};
use crate::ids::id_below;
use obj_kinds::{Cause, NoMemory, Reply};
use std::alloc::Global;

/// What a reply tells of what was asked.
#[derive(Drop)]
pub enum Verdict {
    /// It is done.
    Done,
    /// It is asked again.
    Again,
    /// It isn't done, and this is why.
    Refused(Cause),
}

// Another object may have the key.
#[tactic(auto, unfolding(obj_kinds::specs::Limits::is_legal_reply))]
fn key_refusal(alloc: Global, test: &KeyBelow, reply: &Reply) -> Result<Option<Cause>, NoMemory>
    requires { is_legal_reply reply.now ≡ true }
    ensures { IfOk result (λ cause. (classes : List Class) → tried_with cause ≡ on_key_below classes test.now.extent test.now.node test.now.index reply.now) }
{
    match reply {
        Reply::Next(sub) => match id_below(sub) {
            None => Ok(Some(Cause::Damaged(test.node.copy(alloc)?))),
            Some(other) => {
                let index = test.index.copy(alloc)?;
                Ok(Some(Cause::NotUnique { index, other }))
            }
        },
        _ => Ok(None),
    }
}

// There may be a member.
#[tactic(auto, unfolding(obj_kinds::specs::Limits::is_legal_reply))]
fn member_refusal(
    alloc: Global,
    test: &MemberBelow,
    reply: &Reply,
) -> Result<Option<Cause>, NoMemory>
    requires { is_legal_reply reply.now ≡ true }
    ensures { IfOk result (λ cause. (classes : List Class) → tried_with cause ≡ on_member classes test.now.extent test.now.node reply.now) }
{
    match reply {
        Reply::Next(sub) => match id_below(sub) {
            None => Ok(Some(Cause::Damaged(test.node.copy(alloc)?))),
            Some(member) => Ok(Some(Cause::HasMembers(member))),
        },
        _ => Ok(None),
    }
}

// A row without value is no target, whether anything stands below it or not.
fn has_no_value(reply: &Reply) -> bool
    ensures { result ≡ lacks_value reply.now }
{
    match reply {
        Reply::State(state) => *state == 0 || *state == 10,
        _ => false,
    }
}

fn target_refusal(
    alloc: Global,
    target: &TargetRow,
    reply: &Reply,
) -> Result<Option<Cause>, NoMemory>
    ensures { IfOk result (λ cause. tried_with cause ≡ on_target target.now.class target.now.id reply.now) }
{
    if !has_no_value(reply) {
        return Ok(None);
    }
    let class = target.class.copy(alloc)?;
    Ok(Some(Cause::NoTarget {
        class,
        id: target.id,
    }))
}

fn by_test(refusal: Option<Cause>) -> Verdict
    ensures { result ≡ tested refusal }
{
    match refusal {
        None => Verdict::Done,
        Some(cause) => Verdict::Refused(cause),
    }
}

// A lock that was refused is asked again, as long as it may be.
fn refused_lock(more: u32, cause: Cause) -> Verdict
    ensures { result ≡ lock_refused more cause }
{
    if more == 0 {
        Verdict::Refused(cause)
    } else {
        Verdict::Again
    }
}

fn lock_verdict(more: u32, reply: Reply) -> Verdict
    ensures { result ≡ lock_tells more reply }
{
    match reply {
        Reply::Granted => Verdict::Done,
        Reply::Held { pid, node, .. } => refused_lock(more, Cause::Busy { pid, node }),
        _ => refused_lock(more, Cause::NotFound),
    }
}

/// What the reply tells, where a lock may be asked so many times more. It fails only for want of memory.
#[tactic(auto, using(crate::proofs::AskedLaws::lock_told, crate::proofs::AskedLaws::kill_told, crate::proofs::AskedLaws::set_told, crate::proofs::AskedLaws::key_told, crate::proofs::AskedLaws::member_told, crate::proofs::AskedLaws::target_told))]
pub fn verdict_on(
    alloc: Global,
    asking: &Asking,
    more: u32,
    reply: Reply,
) -> Result<Verdict, NoMemory>
    requires { is_legal_reply reply ≡ true }
    ensures { IfOk result (IsVerdict more asking.now reply) }
{
    match asking {
        Asking::Lock(_, _) => Ok(lock_verdict(more, reply)),
        Asking::Kill(_) => Ok(Verdict::Done),
        Asking::Set(_, _) => Ok(Verdict::Done),
        Asking::NoKey(test) => {
            let refusal = key_refusal(alloc, test, &reply)?;
            Ok(by_test(refusal))
        }
        Asking::NoMember(test) => {
            let refusal = member_refusal(alloc, test, &reply)?;
            Ok(by_test(refusal))
        }
        Asking::Target(target) => {
            let refusal = target_refusal(alloc, target, &reply)?;
            Ok(by_test(refusal))
        }
    }
}
