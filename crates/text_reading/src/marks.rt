//! The places of many bytes of one text.

ghost use Rattle.std.specs.Prelude.{◌≡◌, ◌+◌, ◌<◌, ◌≤◌, ◌^◌, take, length};
ghost use Rattle.text_reading.specs.Places.{place_in, place_from, whole_text};

use crate::places::{Place, behind};
use std::marker::Model;

/// Answers places in a text that begins at a place; contracts see the two. It keeps the last place, so that places
/// asked for in rising order take one walk over the text.
#[derive(Drop)]
pub struct Marks<'a> {
    text: &'a [u8],
    start: Place,
    at: usize,
    place: Place,
}

impl<'a> Model for Marks<'a> {
    ghost use Rattle.text_reading.specs.Places.{Placed};

    ghost Value = { Placed };

    ghost use Rattle.text_reading.specs.Marking.{text_of, IsMarked};

    ghost view = { text_of };

    ghost invariant = { IsMarked };
}

/// The place behind the first `end` bytes, where `place` is the one behind the first `at`.
fn onward(text: &[u8], from: Place, at: usize, place: Place, end: usize) -> Place
    requires lines { from.line + length text.now < 2 ^ 32 }
    requires columns { from.column + length text.now < 2 ^ 32 }
    requires within { (at ≤ length text.now) × (end ≤ length text.now) }
    requires place { place ≡ place_from from (take at text.now) }
    requires bounds { (place.line ≤ from.line + at) × (place.column ≤ from.column + at) }
    ensures value { result ≡ place_from from (take end text.now) }
    ensures bounds { (result.line ≤ from.line + end) × (result.column ≤ from.column + end) }
{
    if end < at {
        return behind(from, &text[..end]);
    }
    behind(place, &text[at..end])
}

impl<'a> Marks<'a> {
    /// The places of this text.
    pub fn new(text: &'a [u8]) -> Marks<'a>
        requires { length text.now + 1 < 2 ^ 32 }
        ensures { result ≡ whole_text text.now }
    {
        Marks::starting_at(Place::start(), text)
    }

    /// The places of this text, which begins at `from`.
    pub fn starting_at(from: Place, text: &'a [u8]) -> Marks<'a>
        requires lines { from.line + length text.now < 2 ^ 32 }
        requires columns { from.column + length text.now < 2 ^ 32 }
        ensures { result ≡ record { start = from; text = text.now } }
    {
        Marks {
            text,
            start: from,
            at: 0,
            place: from,
        }
    }

    /// The place from which on `left` bytes of the text stand, or its first place where it has fewer.
    pub fn place(&mut self, left: usize) -> Place
        ensures place { result ≡ place_in self.old left }
        ensures text { self.new ≡ self.old }
    {
        let end = self.text.len().saturating_sub(left);
        self.place = onward(self.text, self.start, self.at, self.place, end);
        self.at = end;
        self.place
    }
}
