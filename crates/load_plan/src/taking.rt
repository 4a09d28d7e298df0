ghost use Rattle.std.specs.Prelude.{◌≡◌, ◌≤◌, ℕ, true, false, IfOk, OnOk, OnErr, Some, List};
ghost use Rattle.std.specs.Option.{option_copied};
ghost use Rattle.schema_kinds.specs.declared.class.Class.{Class};
ghost use Rattle.record_layout.specs.Rows.{data_node};
ghost use Rattle.store_calls.specs.Calls.{Plain, bind, try_from};
ghost use Rattle.store_calls.specs.Plans.{IsAfter};
ghost use Rattle.object_calls.specs.Asking.{lock_counted};
ghost use Rattle.object_calls.specs.Loads.{LoadCall as Meant, keeps_lock as keeps};
ghost use Rattle.read_plan.specs.Reads.{tried_of, is_told as is_read_told, StaysAt};
ghost use Rattle.load_plan.specs.Loads.{load_of, answer_of, read_ends as behind_read, locked, reading as reading_of, to_come, IsBegun, IsTaken, ReadSays, is_reading, is_told, is_asking, is_unlocking, behind_unlock};
ghost use Rattle.load_plan.specs.declared.phase.Phase.TheVariants.{Locking};

use crate::call::{LoadCall, Loaded};
use crate::mode::load_mode;
use crate::phase::{Phase, Reading};
use obj_kinds::{Cause, Mode, NoMemory, Reply};
use read_plan::{Outcome, ReadCall, ReadPlan, ReadStep};
use schema_kinds::Schema;
use std::alloc::Global;
use std::mem;

/// The read of a load.
pub fn read_call<'s, 'k>(schema: &'s Schema, call: &'k LoadCall) -> ReadCall<'s, 'k>
    ensures schema { result.schema.now ≡ schema.now }
    ensures key { result.key.now ≡ call.now.key }
    ensures wanted { option_copied result.wanted ≡ Some call.now.class }
{
    ReadCall {
        schema,
        key: &call.key,
        wanted: Some(&call.class),
    }
}

/// The read of a load begins, under a lock where there is one.
#[tactic(auto, unfolding(crate::specs::Loads::to_come_within))]
pub fn begin<'s>(alloc: Global, lock: Option<Mode>) -> Phase<'s>
    ensures left { (classes : List Class) (l : Meant) (most : ℕ) → to_come classes l result most ≡ reading_of classes l 0 most lock }
    ensures asks { is_asking result ≡ true }
    ensures told { is_told result ≡ false }
{
    let read = ReadPlan::new(alloc);
    Phase::Reading(Reading { read, lock })
}

/// The phase in which a load begins. It fails only for want of memory.
pub fn first_phase<'s>(
    alloc: Global,
    schema: &'s Schema,
    call: &LoadCall,
) -> Result<Phase<'s>, NoMemory>
    requires { 1 ≤ call.now.tries }
    ensures asks { IfOk result (λ phase. is_asking phase ≡ true) }
    ensures told { IfOk result (λ phase. is_told phase ≡ false) }
    ensures begun { IfOk result (IsBegun schema.now (load_of call.now) call.now.tries) }
{
    match load_mode(alloc, schema, call)? {
        None => Ok(begin(alloc, None)),
        Some(mode) => Ok(Phase::Locking(mode, call.tries - 1)),
    }
}

// What the load answers, where this was read.
fn answer(call: &LoadCall, outcome: Outcome) -> Loaded
    ensures { (classes : List Class) (tries most : ℕ) → tried_of result ≡ answer_of classes (load_of call.now) tries most (tried_of outcome) }
{
    match outcome {
        Ok(Some(record)) => Ok(record),
        Ok(None) => {
            if call.touch {
                Err(Cause::Gone(call.key.id))
            } else {
                Err(Cause::NotFound)
            }
        }
        Err(cause) => Err(cause),
    }
}

// Whether the lock stays: where an object of level 3 or 4 is made.
fn keeps_lock(call: &LoadCall, outcome: &Outcome) -> bool
    ensures { (classes : List Class) (tries most : ℕ) → result ≡ keeps classes tries most (load_of call.now) (tried_of outcome.now) }
{
    match outcome {
        Ok(Some(_)) => call.level > 2,
        Ok(None) => false,
        Err(_) => false,
    }
}

/// Behind the read of a load, under a lock where there is one.
#[tactic(auto, unfolding(crate::specs::Loads::to_come_within))]
pub fn read_ends<'s>(call: &LoadCall, lock: Option<Mode>, outcome: Outcome) -> Phase<'s>
    ensures left { (classes : List Class) (most : ℕ) → to_come classes (load_of call.now) result most ≡ behind_read classes (load_of call.now) 0 most lock (tried_of outcome) }
    ensures ended { is_reading result ≡ false }
    ensures told { is_told result ≡ false }
{
    let is_kept = keeps_lock(call, &outcome);
    let answer = answer(call, outcome);
    match lock {
        None => Phase::Over(answer),
        Some(mode) => {
            if is_kept {
                Phase::Over(answer)
            } else {
                Phase::Unlocking(mode, answer)
            }
        }
    }
}

// A try of the lock was refused, and so many are left.
#[tactic(auto, unfolding(crate::specs::Loads::to_come_within))]
fn refused<'s>(mode: Mode, left: u32, cause: Cause) -> Phase<'s>
    ensures left { (classes : List Class) (l : Meant) (most : ℕ) → to_come classes l result most ≡ bind (try_from cause Plain left (lock_counted mode (data_node l.key))) (locked classes l 0 most mode) }
    ensures told { is_told result ≡ false }
{
    if left == 0 {
        Phase::Over(Err(cause))
    } else {
        Phase::Locking(mode, left - 1)
    }
}

#[tactic(auto, unfolding(crate::specs::Loads::to_come_within))]
fn lock_taken<'s>(alloc: Global, mode: Mode, left: u32, reply: Reply) -> Phase<'s>
    ensures taken { (classes : List Class) (l : Meant) → IsAfter reply (to_come classes l (Locking mode left)) (to_come classes l result) }
    ensures told { is_told result ≡ false }
{
    match reply {
        Reply::Granted => begin(alloc, Some(mode)),
        Reply::Held { pid, node, .. } => refused(mode, left, Cause::Busy { pid, node }),
        _ => refused(mode, left, Cause::NotFound),
    }
}

// The lock was given back.
fn unlocked(phase: &mut Phase<'_>)
    requires { is_unlocking phase.old ≡ true }
    ensures { phase.new ≡ behind_unlock phase.old }
{
    match mem::replace(phase, Phase::Told) {
        Phase::Unlocking(_, answer) => *phase = Phase::Over(answer),
        _ => unreachable!(),
    }
}

/// Takes the reply to what the phase asks. For want of memory the phase stays as it was.
pub fn taken<'s>(
    alloc: Global,
    schema: &'s Schema,
    call: &LoadCall,
    phase: &mut Phase<'s>,
    reply: Reply,
) -> Result<(), NoMemory>
    requires { is_asking phase.old ≡ true }
    ensures ok { OnOk result (IsTaken schema.now (load_of call.now) reply phase.old phase.new) }
    ensures told { is_told phase.new ≡ false }
    ensures err { OnErr result (phase.new ≡ phase.old) }
{
    match phase {
        Phase::Reading(reading) => reading.read.take(read_call(schema, call), reply),
        Phase::Locking(mode, left) => {
            *phase = lock_taken(alloc, *mode, *left, reply);
            Ok(())
        }
        Phase::Unlocking(_, _) => {
            unlocked(phase);
            Ok(())
        }
        Phase::Over(_) | Phase::Told => unreachable!(),
    }
}

/// What the read of a load does next; for want of memory nothing has changed.
pub fn read_step<'s>(
    schema: &'s Schema,
    call: &LoadCall,
    reading: &mut Reading<'s>,
) -> Result<ReadStep, NoMemory>
    requires { is_read_told reading.old.read.phase ≡ false }
    ensures says { IfOk result (λ step. ReadSays schema.now (load_of call.now) step reading.old) }
    ensures stays { IfOk result (λ step. StaysAt step reading.old.read.phase reading.new.read.phase) }
    ensures lock { reading.new.lock ≡ reading.old.lock }
    ensures err { OnErr result (reading.new ≡ reading.old) }
{
    reading.read.next(read_call(schema, call))
}
