ghost use Rattle.std.specs.Prelude.{◌≡◌, ◌+ℤ◌, [], IfOk, IfErr, Ok, Err, Result};
ghost use Rattle.std.specs.Option.{option_copied};
ghost use Rattle.obj_kinds.specs.declared.error_name.ErrorName.{ErrorName};
ghost use Rattle.obj_kinds.specs.declared.value.Value.{Value};
ghost use Rattle.os_value.specs.Answers.{Answers};
ghost use Rattle.os_value.specs.Readings.{text_in, number_in, whole, truth_in};
ghost use Rattle.obj_kinds.specs.LeadingNumber.{leading_number};
ghost use Rattle.os_meaning.specs.Values.{plain, text_of, number_of, number_value, bit, truth, text_value};
ghost use Rattle.os_meaning.specs.Frames.{current};
ghost use Rattle.os_meaning.specs.Commands.{tries_of};

use crate::plain::Plain;
use obj_kinds::{
    ErrorName, NoMemory, NumberLimit, Text, Value, is_whole, number_of as leading, number_value,
};
use os_kinds::{Val, Vals};
use os_value::ValueError;
use sqlite_items::Items;
use std::alloc::Global;

/// Something, or the error of a script.
pub(crate) type Checked<T> = Result<T, ErrorName>;

/// What a call of the values' operators answered, with want of memory apart.
pub(crate) fn settled(answer: Result<Value, ValueError>) -> Result<Checked<Value>, NoMemory>
    ensures { IfOk result (λ r. (meant : Result Value ErrorName) → Answers answer meant → meant ≡ r) }
{
    match answer {
        Ok(value) => Ok(Ok(value)),
        Err(ValueError::Script(name)) => Ok(Err(name)),
        Err(ValueError::NoMemory) => Err(NoMemory),
    }
}

/// The same value again; it fails only for want of memory.
pub(crate) fn copy_val(alloc: Global, value: &Val) -> Result<Val, NoMemory>
    ensures { IfOk result (λ v. v ≡ value.now) }
{
    match value {
        Val::Data(value) => Ok(Val::Data(value.copy(alloc)?)),
        Val::Ref { number, class } => Ok(Val::Ref {
            number: *number,
            class: class.copy(alloc)?,
        }),
    }
}

/// The same values again; it fails only for want of memory.
pub(crate) fn copy_vals(alloc: Global, values: &[Val]) -> Result<Vals, NoMemory>
    ensures { IfOk result (λ copy. copy ≡ values.now) }
{
    let mut copy = Items::new(alloc);
    for value in values {
        copy.push(copy_val(alloc, value)?)?;
    }
    Ok(copy)
}

/// A value as a global's node keeps it.
pub(crate) fn plain_copy(alloc: Global, value: &Val) -> Result<Value, NoMemory>
    ensures { IfOk result (λ v. v ≡ plain value.now) }
{
    match Plain::of(alloc, value)? {
        Plain::Kept(value) => Ok(value.copy(alloc)?),
        Plain::Made(value) => Ok(value),
    }
}

/// The empty text. It takes no memory.
pub(crate) fn empty_val(alloc: Global) -> Val
    ensures { result ≡ text_value [] }
{
    Val::Data(Value::Str(Text::new(alloc)))
}

pub(crate) fn number_val(alloc: Global, number: i64) -> Result<Val, NoMemory>
    ensures { IfOk result (λ v. v ≡ number_value number) }
{
    Ok(Val::Data(number_value(alloc, number)?))
}

pub(crate) fn truth_val(alloc: Global, holds: bool) -> Result<Val, NoMemory>
    ensures { IfOk result (λ v. v ≡ bit holds) }
{
    if holds {
        number_val(alloc, 1)
    } else {
        number_val(alloc, 0)
    }
}

/// The text that data are; a list is none.
pub(crate) fn text_in(value: &Value) -> Checked<&Text>
    ensures ok { IfOk result (λ text. text_in value.now ≡ Ok text.now) }
    ensures err { IfErr result (λ name. text_in value.now ≡ Err name) }
{
    match value {
        Value::Str(text) => Ok(text),
        Value::List(_) => Err(ErrorName::List),
    }
}

fn number_in_text(text: &Text) -> Checked<i64>
    ensures { result ≡ whole (leading_number text.now) }
{
    match leading(text.as_slice()) {
        Ok(number) => Ok(number),
        Err(NumberLimit) => Err(ErrorName::MaxNumber),
    }
}

fn number_in(value: &Value) -> Checked<i64>
    ensures { result ≡ number_in value.now }
{
    let text = text_in(value)?;
    number_in_text(text)
}

/// A number, where it has 18 digits at most.
fn whole(number: i64) -> Checked<i64>
    ensures { result ≡ whole number }
{
    if is_whole(number) {
        Ok(number)
    } else {
        Err(ErrorName::MaxNumber)
    }
}

/// The sum.
pub(crate) fn sum(a: i64, b: i64) -> Checked<i64>
    ensures { result ≡ whole (a +ℤ b) }
{
    match a.checked_add(b) {
        Some(number) => whole(number),
        None => Err(ErrorName::MaxNumber),
    }
}

/// A value as a text.
pub(crate) fn text_of(alloc: Global, value: &Val) -> Result<Checked<Text>, NoMemory>
    ensures { IfOk result (λ r. r ≡ text_of value.now) }
{
    let plain = Plain::of(alloc, value)?;
    match text_in(plain.value()) {
        Ok(text) => Ok(Ok(text.copy(alloc)?)),
        Err(name) => Ok(Err(name)),
    }
}

/// A value as a number.
pub(crate) fn number_of(alloc: Global, value: &Val) -> Result<Checked<i64>, NoMemory>
    ensures { IfOk result (λ r. r ≡ number_of value.now) }
{
    let plain = Plain::of(alloc, value)?;
    Ok(number_in(plain.value()))
}

/// The number that an increment begins with.
pub(crate) fn current(alloc: Global, value: Option<&Val>) -> Result<Checked<i64>, NoMemory>
    ensures { IfOk result (λ r. r ≡ current (option_copied value.entry)) }
{
    match value {
        None => Ok(Ok(0)),
        Some(value) => number_of(alloc, value),
    }
}

fn truth_in(value: &Value) -> Checked<bool>
    ensures { result ≡ truth_in value.now }
{
    let number = number_in(value)?;
    Ok(number != 0)
}

/// Whether a value holds.
pub(crate) fn truth(alloc: Global, value: &Val) -> Result<Checked<bool>, NoMemory>
    ensures { IfOk result (λ r. r ≡ truth value.now) }
{
    let plain = Plain::of(alloc, value)?;
    Ok(truth_in(plain.value()))
}

/// How often a lock is tried whose timeout is this number of seconds.
pub(crate) fn tries_of(seconds: i64) -> u64
    ensures { result ≡ tries_of seconds }
{
    if seconds < 1 { 1 } else { seconds as u64 }
}
