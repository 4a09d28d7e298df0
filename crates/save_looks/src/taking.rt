ghost use Rattle.std.specs.Prelude.{◌≡◌, ℕ, true, false, None, IfOk, OnOk, OnErr, List};
ghost use Rattle.std.specs.Option.{option_copied};
ghost use Rattle.obj_kinds.specs.Texts.{same_text};
ghost use Rattle.schema_kinds.specs.declared.class.Class.{Class};
ghost use Rattle.store_calls.specs.Calls.{Give};
ghost use Rattle.object_calls.specs.Saves.{on_new};
ghost use Rattle.read_plan.specs.Reads.{tried_of};
ghost use Rattle.save_looks.specs.declared.phase.Phase.TheVariants.{Told};
ghost use Rattle.save_looks.specs.Looks.{item_of, is_asking, is_told, is_over, is_other, judged as judged_of, looked, reads_other, to_come, IsTaken};

use crate::call::{LookCall, Looked, SaveItem};
use crate::phase::Phase;
use obj_kinds::{Cause, ClassName, NoMemory, Reply};
use read_plan::{Outcome, ReadCall};
use schema_kinds::Record;
use std::alloc::Global;
use std::mem;
use storage_map::data_node;

/// The read of an old object: each class of the extent will do.
pub fn read_call<'s, 'k>(call: LookCall<'s, 'k>) -> ReadCall<'s, 'k>
    ensures schema { result.schema.now ≡ call.entry.schema.now }
    ensures key { result.key.now ≡ call.entry.item.now.key }
    ensures wanted { option_copied result.wanted ≡ None }
{
    ReadCall {
        schema: call.schema,
        key: &call.item.key,
        wanted: None,
    }
}

// What the reply tells of the row of a new object.
fn row_judged(item: &SaveItem, reply: &Reply) -> Looked
    ensures { looked (item_of item.now) (tried_of result) ≡ on_new (item_of item.now) reply.now }
{
    match reply {
        Reply::Found(_) => Err(Cause::IdTaken(item.key.id)),
        _ => Ok(None),
    }
}

/// Takes the reply to what the phase asks. For want of memory the phase stays as it was.
pub fn taken<'s>(
    call: LookCall<'s, '_>,
    phase: &mut Phase<'s>,
    reply: Reply,
) -> Result<(), NoMemory>
    requires { is_asking phase.old ≡ true }
    ensures ok { OnOk result (IsTaken call.entry.schema.now (item_of call.entry.item.now) reply phase.old phase.new) }
    ensures told { is_told phase.new ≡ false }
    ensures err { OnErr result (phase.new ≡ phase.old) }
{
    match phase {
        Phase::AtRow => {
            *phase = Phase::Over(row_judged(call.item, &reply));
            Ok(())
        }
        Phase::Reading(read) => read.take(read_call(call), reply),
        _ => unreachable!(),
    }
}

fn is_of_class(stored: &Record, class: &ClassName) -> bool
    ensures { result ≡ same_text stored.now.class.0 class.now.0 }
{
    stored.class == *class
}

// Whether a record was read that is of another class than the object.
fn is_of_other_class(item: &SaveItem, phase: &Phase<'_>) -> bool
    ensures { result ≡ reads_other (item_of item.now) phase.now }
{
    match phase {
        Phase::Read(Ok(Some(record))) => !is_of_class(record, &item.after.class),
        _ => false,
    }
}

// What is told of an old object that is of its own class, or wasn't read.
#[tactic(auto, using(crate::proofs::LookLaws::own_told))]
fn judged(item: &SaveItem, outcome: Outcome) -> Looked
    requires { is_other (item_of item.now) (tried_of outcome) ≡ false }
    ensures { judged_of (item_of item.now) (tried_of outcome) ≡ Give (looked (item_of item.now) (tried_of result)) }
{
    match outcome {
        Ok(None) => Err(Cause::Gone(item.key.id)),
        Ok(Some(record)) => Ok(Some(record)),
        Err(cause) => Err(cause),
    }
}

/// Hands out what stands under the key. It fails only for want of memory, and then nothing has changed.
#[tactic(auto, using(crate::proofs::LookLaws::other_told), unfolding(crate::specs::Looks::to_come_within))]
pub fn hand_out(
    alloc: Global,
    call: LookCall<'_, '_>,
    phase: &mut Phase<'_>,
) -> Result<Looked, NoMemory>
    requires { is_over phase.old ≡ true }
    ensures says { IfOk result (λ a. (classes : List Class) (most : ℕ) → to_come classes (item_of call.entry.item.now) phase.old most ≡ Give (looked (item_of call.entry.item.now) (tried_of a))) }
    ensures told { OnOk result (phase.new ≡ Told) }
    ensures err { OnErr result (phase.new ≡ phase.old) }
{
    if is_of_other_class(call.item, phase) {
        let row = data_node(alloc, &call.item.key)?;
        *phase = Phase::Told;
        return Ok(Err(Cause::Damaged(row)));
    }
    match mem::replace(phase, Phase::Told) {
        Phase::Read(outcome) => Ok(judged(call.item, outcome)),
        Phase::Over(looked) => Ok(looked),
        _ => unreachable!(),
    }
}
