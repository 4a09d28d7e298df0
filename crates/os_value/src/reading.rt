ghost use Rattle.std.specs.Prelude.{◌≡◌, Ok, Err, IfOk, IfErr};
ghost use Rattle.obj_kinds.specs.Subscript.{IsWhole};
ghost use Rattle.obj_kinds.specs.LeadingNumber.{leading_number};
ghost use Rattle.os_value.specs.Answers.{Answers, stored};
ghost use Rattle.os_value.specs.Readings.{text_in, number_in, numbers_in, whole, truth_in};

use crate::error::ValueError;
use obj_kinds::{ErrorName, Text, Value, is_whole, number_of, number_value};
use std::alloc::Global;

/// The text that a value is; a list is none.
pub fn text_of(value: &Value) -> Result<&Text, ErrorName>
    ensures ok { IfOk result (λ text. text_in value.now ≡ Ok text.now) }
    ensures err { IfErr result (λ name. text_in value.now ≡ Err name) }
{
    match value {
        Value::Str(text) => Ok(text),
        Value::List(_) => Err(ErrorName::List),
    }
}

/// The number, where it has 18 digits at most.
pub fn in_limits(number: i64) -> Result<i64, ErrorName>
    ensures { result ≡ whole number }
{
    if is_whole(number) {
        Ok(number)
    } else {
        Err(ErrorName::MaxNumber)
    }
}

fn number_in_text(text: &Text) -> Result<i64, ErrorName>
    ensures number { result ≡ whole (leading_number text.now) }
    ensures small { IfOk result (λ z. IsWhole z) }
{
    match number_of(text.as_slice()) {
        Ok(number) => Ok(number),
        Err(_) => Err(ErrorName::MaxNumber),
    }
}

/// The number that a value is read as: the leading number of a text.
pub fn number_of_value(value: &Value) -> Result<i64, ErrorName>
    ensures number { result ≡ number_in value.now }
    ensures small { IfOk result (λ z. IsWhole z) }
{
    let text = text_of(value)?;
    number_in_text(text)
}

/// Both values as numbers, the left one first.
pub fn operands(left: &Value, right: &Value) -> Result<(i64, i64), ErrorName>
    ensures numbers { result ≡ numbers_in left.now right.now }
    ensures small { IfOk result (λ both. IsWhole both.0 × IsWhole both.1) }
{
    let left = number_of_value(left)?;
    let right = number_of_value(right)?;
    Ok((left, right))
}

/// Whether the number isn't 0.
pub fn truth_of(value: &Value) -> Result<bool, ErrorName>
    ensures { result ≡ truth_in value.now }
{
    let number = number_of_value(value)?;
    Ok(number != 0)
}

/// Whether the value as a number isn't 0: what a condition asks. It takes no memory.
pub fn truth(value: &Value) -> Result<bool, ValueError>
    ensures { Answers result (truth_in value.now) }
{
    let holds = truth_of(value)?;
    Ok(holds)
}

/// The answer of a call that answers a number.
pub fn number_answer(alloc: Global, number: Result<i64, ErrorName>) -> Result<Value, ValueError>
    ensures { Answers result (stored number) }
{
    let value = number_value(alloc, number?)?;
    Ok(value)
}
