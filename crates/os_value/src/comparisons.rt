ghost use Rattle.std.specs.Prelude.{◌≡◌, ◌+◌, ◌≤◌, length, IfSome, Ok};
ghost use Rattle.obj_kinds.specs.Values.{same_value};
ghost use Rattle.os_value.specs.Answers.{Answers};
ghost use Rattle.os_value.specs.Comparisons.{as_number, told, is_list, equal, less, greater, at_most, at_least, contains, follows, conjunction, disjunction, negation, place_of, is_behind};

use crate::error::ValueError;
use crate::reading::{number_answer, operands, text_of, truth_of};
use memchr::memmem;
use obj_kinds::{ErrorName, Text, Value};
use std::alloc::Global;
use std::cmp::Ordering;

fn as_number(holds: bool) -> i64
    ensures { result ≡ as_number holds }
{
    if holds { 1 } else { 0 }
}

/// The answer of a call that answers whether something holds: 1 or 0.
fn truth_answer(alloc: Global, holds: bool) -> Result<Value, ValueError>
    ensures { Answers result (told (Ok holds)) }
{
    number_answer(alloc, Ok(as_number(holds)))
}

fn is_list(value: &Value) -> bool
    ensures { result ≡ is_list value.now }
{
    match value {
        Value::Str(_) => false,
        Value::List(_) => true,
    }
}

#[tactic(auto, using(crate::proofs::EqualLaws::decided))]
fn are_same(a: &Value, b: &Value) -> bool
    ensures { result ≡ same_value a.now b.now }
{
    a.is_same(b)
}

fn are_equal(a: &Value, b: &Value) -> Result<bool, ErrorName>
    ensures { result ≡ equal a.now b.now }
{
    match (is_list(a), is_list(b)) {
        (true, true) => Ok(are_same(a, b)),
        (false, false) => Ok(are_same(a, b)),
        _ => Err(ErrorName::List),
    }
}

/// `a = b`: whether texts have the same bytes, or lists the same items.
pub fn op_equal(alloc: Global, a: &Value, b: &Value) -> Result<Value, ValueError>
    ensures { Answers result (told (equal a.now b.now)) }
{
    let holds = are_equal(a, b)?;
    truth_answer(alloc, holds)
}

/// `a < b`: whether the number is below the other.
pub fn op_less(alloc: Global, a: &Value, b: &Value) -> Result<Value, ValueError>
    ensures { Answers result (told (less a.now b.now)) }
{
    let (a, b) = operands(a, b)?;
    truth_answer(alloc, a < b)
}

/// `a > b`: whether the number is above the other.
pub fn op_greater(alloc: Global, a: &Value, b: &Value) -> Result<Value, ValueError>
    ensures { Answers result (told (greater a.now b.now)) }
{
    let (a, b) = operands(a, b)?;
    truth_answer(alloc, b < a)
}

/// `a <= b`: whether the number is at most the other.
pub fn op_at_most(alloc: Global, a: &Value, b: &Value) -> Result<Value, ValueError>
    ensures { Answers result (told (at_most a.now b.now)) }
{
    let (a, b) = operands(a, b)?;
    truth_answer(alloc, a <= b)
}

/// `a >= b`: whether the number is at least the other.
pub fn op_at_least(alloc: Global, a: &Value, b: &Value) -> Result<Value, ValueError>
    ensures { Answers result (told (at_least a.now b.now)) }
{
    let (a, b) = operands(a, b)?;
    truth_answer(alloc, b <= a)
}

/// The least place at which a text occurs in another, counted from 0.
pub fn place_of(text: &[u8], sought: &[u8]) -> Option<usize>
    ensures place { result ≡ place_of text.now sought.now }
    ensures within { IfSome result (λ at. at + length sought.now ≤ length text.now) }
{
    memmem::find(text, sought)
}

/// `a [ b`: whether the right text occurs in the left one. Each text has the empty one in it.
pub fn op_contains(alloc: Global, a: &Value, b: &Value) -> Result<Value, ValueError>
    ensures { Answers result (told (contains a.now b.now)) }
{
    let text = text_of(a)?;
    let sought = text_of(b)?;
    let place = place_of(text.as_slice(), sought.as_slice());
    truth_answer(alloc, place.is_some())
}

fn is_behind(text: &Text, other: &Text) -> bool
    ensures { result ≡ is_behind text.now other.now }
{
    matches!(text.compare(other), Ordering::Greater)
}

/// `a ] b`: whether the left text stands behind the right one in the order of their bytes.
pub fn op_follows(alloc: Global, a: &Value, b: &Value) -> Result<Value, ValueError>
    ensures { Answers result (told (follows a.now b.now)) }
{
    let text = text_of(a)?;
    let other = text_of(b)?;
    truth_answer(alloc, is_behind(text, other))
}

/// `a & b`: whether both are true. Both are read.
pub fn op_and(alloc: Global, a: &Value, b: &Value) -> Result<Value, ValueError>
    ensures { Answers result (told (conjunction a.now b.now)) }
{
    let left = truth_of(a)?;
    let right = truth_of(b)?;
    truth_answer(alloc, left && right)
}

/// `a ! b`: whether one of them is true. Both are read.
pub fn op_or(alloc: Global, a: &Value, b: &Value) -> Result<Value, ValueError>
    ensures { Answers result (told (disjunction a.now b.now)) }
{
    let left = truth_of(a)?;
    let right = truth_of(b)?;
    truth_answer(alloc, left || right)
}

/// `'a`: whether it isn't true.
pub fn op_not(alloc: Global, a: &Value) -> Result<Value, ValueError>
    ensures { Answers result (told (negation a.now)) }
{
    let holds = truth_of(a)?;
    truth_answer(alloc, !holds)
}
