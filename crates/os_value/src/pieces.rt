ghost use Rattle.std.specs.Prelude.{◌≡◌, ◌<◌, ◌^◌, IfOk, length, drop, take, get_or, slice_get, option_copied};
ghost use Rattle.memchr.specs.Find.{matches};
ghost use Rattle.os_value.specs.Answers.{Answers};
ghost use Rattle.os_value.specs.Pieces.{pieces, joined_by, pieced};

use crate::error::ValueError;
use crate::reading::text_of;
use crate::texts::{before, first_of, place_or, text_value, up_to, without_first};
use memchr::memmem;
use obj_kinds::{NoMemory, Value};
use std::alloc::Global;

/// Where a delimiter stands, if there is one of this number, counted from 0.
fn delimiter_at(places: &[usize], number: usize) -> Option<usize>
    ensures { result ≡ slice_get places.now number }
{
    match places.get(number) {
        Some(at) => Some(*at),
        None => None,
    }
}

/// Where a piece ends: at the delimiter behind it, or with the text.
fn end_of_piece(places: &[usize], len: usize, piece: usize) -> usize
    ensures { result ≡ get_or places.now piece len }
{
    match places.get(piece) {
        Some(at) => *at,
        None => len,
    }
}

/// The first so many pieces without those before them, with the delimiters between them; `places` are where the
/// delimiters stand.
#[tactic(auto, using(crate::proofs::PieceLaws::none_joined, crate::proofs::PieceLaws::first_joined, crate::proofs::PieceLaws::later_joined, crate::proofs::PieceLaws::past_joined))]
fn stretch<'t>(
    text: &'t [u8],
    delimiter: &[u8],
    places: &[usize],
    behind: usize,
    count: usize,
) -> &'t [u8]
    requires some { 0 < length delimiter.now }
    requires places { places.now ≡ matches text.now delimiter.now 0 }
    ensures { result.now ≡ joined_by delimiter.now (drop behind (take count (pieces delimiter.now text.now))) }
{
    if count <= behind {
        return b"";
    }
    let front = first_of(text, end_of_piece(places, text.len(), count - 1));
    if behind == 0 {
        return front;
    }
    match delimiter_at(places, behind - 1) {
        Some(at) => without_first(without_first(front, at), delimiter.len()),
        None => b"",
    }
}

/// The first so many pieces without those before them, with the delimiters between them; none where the delimiter is
/// empty.
#[tactic(auto, using(crate::proofs::PieceLaws::none_of_empty))]
fn some_pieces<'t>(
    alloc: Global,
    text: &'t [u8],
    delimiter: &[u8],
    behind: usize,
    count: usize,
) -> Result<&'t [u8], NoMemory>
    ensures { IfOk result (λ piece. piece.now ≡ joined_by delimiter.now (drop behind (take count (pieces delimiter.now text.now)))) }
{
    if delimiter.is_empty() {
        return Ok(b"");
    }
    let places: Vec<usize> = memmem::find_iter(text, delimiter).collect(alloc)?;
    Ok(stretch(text, delimiter, places.as_slice(), behind, count))
}

/// `$PIECE(t,d,i,j)`: the pieces at places i to j between the d in t, with d between them, as far as there are any;
/// the empty text where d is empty. A missing i is 1, a missing j is i.
pub fn fn_piece(
    alloc: Global,
    t: &Value,
    d: &Value,
    i: Option<&Value>,
    j: Option<&Value>,
) -> Result<Value, ValueError>
    ensures { Answers result (pieced t.now d.now (option_copied i.entry) (option_copied j.entry)) }
{
    let text = text_of(t)?;
    let delimiter = text_of(d)?;
    let first = place_or(i, 1)?;
    let last = place_or(j, first)?;
    let piece = some_pieces(
        alloc,
        text.as_slice(),
        delimiter.as_slice(),
        before(first),
        up_to(last),
    )?;
    let value = text_value(alloc, piece)?;
    Ok(value)
}
