ghost use Rattle.std.specs.Prelude.{◌≡◌, ◌+◌, ◌^◌, ◌<◌, ◌+ℤ◌, ◌++◌, pos, IfOk, length, drop, take, nat_le, option_copied};
ghost use Rattle.obj_kinds.specs.Subscript.{IsWhole};
ghost use Rattle.obj_kinds.specs.declared.value.Value.TheVariants.{Str};
ghost use Rattle.os_value.specs.Answers.{and_then, Answers};
ghost use Rattle.std.specs.Option.{option_map};
ghost use Rattle.os_value.specs.Readings.{number_in, whole};
ghost use Rattle.os_value.specs.Comparisons.{place_of};
ghost use Rattle.os_value.specs.Places.{place_or, before, up_to, part};
ghost use Rattle.os_value.specs.Texts.{joined_of, length_of, extracted, code_of, ascii_of, byte_of, chars, char_of, found, found_of, piece_count};

use crate::comparisons::place_of;
use crate::error::ValueError;
use crate::reading::{in_limits, number_answer, number_of_value, text_of};
use memchr::memmem;
use obj_kinds::{ErrorName, NoMemory, Text, Value, Values};
use std::alloc::Global;

/// A value that is these bytes.
pub fn text_value(alloc: Global, bytes: &[u8]) -> Result<Value, NoMemory>
    ensures { IfOk result (λ value. value ≡ Str bytes.now) }
{
    let text = Text::from_slice(alloc, bytes)?;
    Ok(Value::Str(text))
}

fn both_texts(alloc: Global, left: &Text, right: &Text) -> Result<Text, NoMemory>
    ensures { IfOk result (λ text. text ≡ left.now ++ right.now) }
{
    let mut text = left.copy(alloc)?;
    text.push_slice(right.as_slice())?;
    Ok(text)
}

fn fits_together(left: &Text, right: &Text) -> bool
    ensures { result ≡ nat_le (length left.now + length right.now) 32767 }
{
    left.len() <= Text::MAX_LEN && right.len() <= Text::MAX_LEN - left.len()
}

/// `a _ b`: both texts, one behind the other. It is `<MAXSTRING>` where they have more than 32,767
/// bytes together.
pub fn op_join(alloc: Global, a: &Value, b: &Value) -> Result<Value, ValueError>
    ensures { Answers result (joined_of a.now b.now) }
{
    let left = text_of(a)?;
    let right = text_of(b)?;
    if !fits_together(left, right) {
        return Err(ValueError::Script(ErrorName::MaxString));
    }
    let text = both_texts(alloc, left, right)?;
    Ok(Value::Str(text))
}

/// The place that an argument names, or another one where it is missing.
pub fn place_or(value: Option<&Value>, other: i64) -> Result<i64, ErrorName>
    requires { IsWhole other }
    ensures place { result ≡ place_or (option_copied value.entry) other }
    ensures small { IfOk result (λ z. IsWhole z) }
{
    match value {
        Some(value) => number_of_value(value),
        None => Ok(other),
    }
}

/// How many bytes or items stand before a place, counted from 1; none before a place below 1.
pub fn before(place: i64) -> usize
    requires { IsWhole place }
    ensures count { result ≡ before place }
    ensures small { result < 10 ^ 18 }
{
    if place < 1 { 0 } else { (place - 1) as usize }
}

/// How many bytes or items stand at places up to one, counted from 1.
pub fn up_to(place: i64) -> usize
    requires { IsWhole place }
    ensures { result ≡ up_to place }
{
    if place < 0 { 0 } else { place as usize }
}

/// A text without its first bytes.
pub fn without_first(text: &[u8], count: usize) -> &[u8]
    ensures { result.now ≡ drop count text.now }
{
    if count < text.len() {
        &text[count..]
    } else {
        b""
    }
}

/// The first bytes of a text.
pub fn first_of(text: &[u8], count: usize) -> &[u8]
    ensures { result.now ≡ take count text.now }
{
    if count < text.len() {
        &text[..count]
    } else {
        text
    }
}

/// The bytes at places from the first to the last.
fn part_of(text: &[u8], first: i64, last: i64) -> &[u8]
    requires first { IsWhole first }
    requires last { IsWhole last }
    ensures { result.now ≡ part first last text.now }
{
    let front = first_of(text, up_to(last));
    without_first(front, before(first))
}

/// `$EXTRACT(t,i,j)`: the bytes at places i to j, as far as the text has them. A missing i is 1, a
/// missing j is i.
pub fn fn_extract(
    alloc: Global,
    t: &Value,
    i: Option<&Value>,
    j: Option<&Value>,
) -> Result<Value, ValueError>
    ensures { Answers result (extracted t.now (option_copied i.entry) (option_copied j.entry)) }
{
    let text = text_of(t)?;
    let first = place_or(i, 1)?;
    let last = place_or(j, first)?;
    let value = text_value(alloc, part_of(text.as_slice(), first, last))?;
    Ok(value)
}

fn code_of(bytes: &[u8]) -> i64
    ensures { result ≡ code_of bytes.now }
{
    match bytes.split_first() {
        Some((byte, _)) => i64::from(*byte),
        None => -1,
    }
}

/// `$ASCII(t,i)`: the code of the byte at place i, or -1 where there is none. A missing i is 1.
pub fn fn_ascii(alloc: Global, t: &Value, i: Option<&Value>) -> Result<Value, ValueError>
    ensures { Answers result (ascii_of t.now (option_copied i.entry)) }
{
    let text = text_of(t)?;
    let place = place_or(i, 1)?;
    number_answer(alloc, Ok(code_of(part_of(text.as_slice(), place, place))))
}

fn byte_of(code: i64) -> Result<u8, ErrorName>
    ensures { result ≡ byte_of code }
{
    if 0 <= code && code < 128 {
        Ok(code as u8)
    } else {
        Err(ErrorName::Function)
    }
}

fn byte_of_value(value: &Value) -> Result<u8, ErrorName>
    ensures { result ≡ and_then (number_in value.now) byte_of }
{
    let code = number_of_value(value)?;
    byte_of(code)
}

#[tactic(auto, using(crate::proofs::CharLaws::prefixed_none, crate::proofs::CharLaws::prefixed_twice))]
fn text_of_codes(alloc: Global, codes: &[Value]) -> Result<Text, ValueError>
    ensures { Answers result (chars codes.now) }
{
    let mut text = Text::new(alloc);
    for code in codes {
        let byte = byte_of_value(code)?;
        text.push(byte)?;
    }
    Ok(text)
}

/// `$CHAR(n,m)`: the text of these codes. It is `<FUNCTION>` at a code outside 0 to 127.
pub fn fn_char(alloc: Global, codes: &Values) -> Result<Value, ValueError>
    ensures { Answers result (char_of codes.now) }
{
    let text = text_of_codes(alloc, codes.as_slice())?;
    Ok(Value::Str(text))
}

fn next_place(before: usize) -> i64
    requires { before < 10 ^ 18 }
    ensures { result ≡ pos (before + 1) }
{
    before as i64 + 1
}

fn later(place: i64, count: i64) -> Result<i64, ErrorName>
    ensures { result ≡ whole (place +ℤ count) }
{
    match place.checked_add(count) {
        Some(place) => in_limits(place),
        None => Err(ErrorName::MaxNumber),
    }
}

/// How many bytes stand up to the end of the first place at which a text occurs.
fn end_of(text: &[u8], sought: &[u8]) -> Option<i64>
    ensures { result ≡ option_map (λ at. pos (at + length sought.now)) (place_of text.now sought.now) }
{
    match place_of(text, sought) {
        Some(at) => Some((at + sought.len()) as i64),
        None => None,
    }
}

fn found(text: &[u8], sought: &[u8], place: i64) -> Result<i64, ErrorName>
    requires { IsWhole place }
    ensures { result ≡ whole (found place sought.now text.now) }
{
    let before = before(place);
    let next = next_place(before);
    if sought.is_empty() {
        return in_limits(next);
    }
    match end_of(without_first(text, before), sought) {
        Some(end) => later(next, end),
        None => Ok(0),
    }
}

/// `$FIND(t,u,i)`: the place just behind the first u that begins at place i or later, or 0 where
/// there is none. An i below 1 is 1, and so is a missing one; for an empty u it is i.
pub fn fn_find(alloc: Global, t: &Value, u: &Value, i: Option<&Value>) -> Result<Value, ValueError>
    ensures { Answers result (found_of t.now u.now (option_copied i.entry)) }
{
    let text = text_of(t)?;
    let sought = text_of(u)?;
    let place = place_or(i, 1)?;
    number_answer(alloc, found(text.as_slice(), sought.as_slice(), place))
}

/// How many pieces a text has between the delimiters: none where the delimiter is empty.
fn count_pieces(alloc: Global, text: &[u8], delimiter: &[u8]) -> Result<i64, NoMemory>
    ensures { IfOk result (λ z. z ≡ pos (piece_count delimiter.now text.now)) }
{
    if delimiter.is_empty() {
        return Ok(0);
    }
    let places: Vec<usize> = memmem::find_iter(text, delimiter).collect(alloc)?;
    Ok(places.len() as i64 + 1)
}

fn byte_count(bytes: &[u8]) -> i64
    ensures { result ≡ pos (length bytes.now) }
{
    bytes.len() as i64
}

/// `$LENGTH(t)`: how many bytes a text has. `$LENGTH(t,d)`: how many pieces between the d in it, so
/// 1 for the empty text, and 0 where d is empty.
pub fn fn_length(alloc: Global, t: &Value, d: Option<&Value>) -> Result<Value, ValueError>
    ensures { Answers result (length_of t.now (option_copied d.entry)) }
{
    let text = text_of(t)?;
    let Some(d) = d else {
        return number_answer(alloc, Ok(byte_count(text.as_slice())));
    };
    let delimiter = text_of(d)?;
    let count = count_pieces(alloc, text.as_slice(), delimiter.as_slice())?;
    number_answer(alloc, Ok(count))
}
