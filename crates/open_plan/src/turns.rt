ghost use Rattle.std.specs.Prelude.{◌≡◌, true, false, None, Ok, IfOk, OnErr};
ghost use Rattle.open_plan.specs.declared.phase.Phase.TheVariants.{Opened, Refused};
ghost use Rattle.open_plan.specs.Opens.{TurnsOn, Stays, load_ended, raise_ended, object_made, is_opened, is_loading, is_raising, is_found, is_refused};

use crate::phase::{Found, Phase, Raised, Raising};
use load_plan::{LoadPlan, LoadStep, Loaded, RaiseStep};
use obj_kinds::{Cause, NoMemory, Op};
use schema_kinds::Record;
use std::mem;

fn found_by<'s>(plan: LoadPlan<'s>, read: Record) -> Found<'s>
    ensures schema { result.schema ≡ plan.entry.schema }
    ensures key { result.key ≡ plan.entry.call.key }
    ensures level { result.level ≡ plan.entry.call.level }
    ensures read { result.read ≡ read }
{
    let call = plan.call;
    Found {
        schema: plan.schema,
        level: call.level,
        key: call.key,
        read,
    }
}

fn raised_by(raising: Raising) -> Raised
    ensures oref { result.oref ≡ raising.oref }
    ensures key { result.key ≡ raising.plan.call.key }
    ensures from { result.from ≡ raising.plan.call.from }
    ensures to { result.to ≡ raising.plan.call.to }
{
    let oref = raising.oref;
    let call = raising.plan.call;
    Raised {
        oref,
        from: call.from,
        to: call.to,
        key: call.key,
    }
}

// An object is to be made of the record that was read.
fn found(phase: &mut Phase<'_>, read: Record)
    requires { is_loading phase.old ≡ true }
    ensures { phase.new ≡ load_ended (Ok read) phase.old }
{
    match mem::replace(phase, Phase::Opened(None)) {
        Phase::Loading(plan) => *phase = Phase::Found(found_by(plan, read)),
        _ => unreachable!(),
    }
}

// The load has ended: an object is to be made, or there is none.
fn load_ends(phase: &mut Phase<'_>, loaded: Loaded)
    requires { is_loading phase.old ≡ true }
    ensures { phase.new ≡ load_ended loaded phase.old }
{
    match loaded {
        Ok(read) => found(phase, read),
        Err(cause) => *phase = Phase::Refused(cause),
    }
}

// The object may have its level.
fn raised(phase: &mut Phase<'_>)
    requires { is_raising phase.old ≡ true }
    ensures { phase.new ≡ raise_ended (Ok tt) phase.old }
{
    match mem::replace(phase, Phase::Opened(None)) {
        Phase::Raising(raising) => *phase = Phase::Raised(raised_by(raising)),
        _ => unreachable!(),
    }
}

// The raise has ended: the object may have its level, or not.
fn raise_ends(phase: &mut Phase<'_>, outcome: load_plan::Raised)
    requires { is_raising phase.old ≡ true }
    ensures { phase.new ≡ raise_ended outcome phase.old }
{
    match outcome {
        Ok(()) => raised(phase),
        Err(cause) => *phase = Phase::Refused(cause),
    }
}

/// What the load or the raise asks; nothing where it is over. For want of memory there is the same to do.
pub fn turn(phase: &mut Phase<'_>) -> Result<Option<Op>, NoMemory>
    requires { is_opened phase.old ≡ false }
    ensures on { IfOk result (λ op. TurnsOn op phase.old phase.new) }
    ensures err { OnErr result (Stays phase.old phase.new) }
{
    match phase {
        Phase::Loading(plan) => match plan.next()? {
            LoadStep::Ask(op) => Ok(Some(op)),
            LoadStep::Load(loaded) => {
                load_ends(phase, loaded);
                Ok(None)
            }
        },
        Phase::Raising(raising) => match raising.plan.next()? {
            RaiseStep::Ask(op) => Ok(Some(op)),
            RaiseStep::Raise(outcome) => {
                raise_ends(phase, outcome);
                Ok(None)
            }
        },
        _ => Ok(None),
    }
}

/// The object was made: the record of which it was made stays.
pub fn made(phase: &mut Phase<'_>)
    requires { is_found phase.old ≡ true }
    ensures { phase.new ≡ object_made phase.old }
{
    match mem::replace(phase, Phase::Opened(None)) {
        Phase::Found(found) => *phase = Phase::Opened(Some(found.read)),
        _ => unreachable!(),
    }
}

/// Hands out why there is no object.
pub fn refusal(phase: &mut Phase<'_>) -> Cause
    requires { is_refused phase.old ≡ true }
    ensures was { phase.old ≡ Refused result }
    ensures is { phase.new ≡ Opened None }
{
    match mem::replace(phase, Phase::Opened(None)) {
        Phase::Refused(cause) => cause,
        _ => unreachable!(),
    }
}
