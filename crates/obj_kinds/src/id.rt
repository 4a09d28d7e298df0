ghost use Rattle.std.specs.Prelude.{◌≡◌, ◌≢◌, ◌≤◌, ◌<◌, ◌++◌, ◌∷◌, [], ℕ, List, length, slice_get, cond, Some, None, IfOk, OnOk, IfSome, IfNone, IsTrue, ◌↔◌};
ghost use Rattle.std.specs.Ordering.{nat_cmp};
ghost use Rattle.std.specs.Cmp.Lexicographic.{slice_cmp};
ghost use Rattle.obj_kinds.specs.Limits.{is_part, is_legal_id};
ghost use Rattle.std.specs.Fmt.{decimal};
ghost use Rattle.std.specs.Option.{option_copied, option_map};
ghost use Rattle.obj_kinds.specs.Ids.{IsPart, IsId, id_text, listed};
ghost use Rattle.obj_kinds.specs.IdReading.{before_bar, part_in, after_bars as after_two_bars, second as second_in, third as third_in, id_in};

use crate::memory::NoMemory;
use crate::text::Text;
use crate::whole::{TOO_LARGE, whole_number};
use itoa::Buffer;
use std::alloc::Global;
use std::cmp::Ordering;
use std::marker::Model;

/// The numbers of an id.
#[derive(Clone, Copy, Debug)]
pub enum Parts {
    One(u64),
    Two(u64, u64),
    Three(u64, u64, u64),
}

/// An id of an object: one to three whole numbers from 1, each of at most 18 digits, seen as the list
/// of them. Its text joins them by `||`.
#[derive(Clone, Copy, Debug)]
pub struct Id {
    parts: Parts,
}

impl Model for Id {
    ghost use Rattle.std.specs.Prelude.{List, ℕ};

    ghost Value = { List ℕ };

    ghost use Rattle.obj_kinds.specs.Ids.{listed, unlisted, IsId};
    ghost use Rattle.obj_kinds.specs.IdLaws.{unlisted-listed};

    ghost view = { λ i. listed i.parts };

    ghost invariant = { λ i. IsId (listed i.parts) };

    ghost inverse = { λ n. record { parts = unlisted n } };

    ghost inverse_ok = { λ a h j. record { parts = unlisted-listed a.parts j } };
}

// The number up to the first bar, and what follows it.
#[derive(Clone, Copy)]
struct Part<'a> {
    number: u64,
    rest: &'a [u8],
}

fn bar_place(text: &[u8]) -> usize
    ensures place { result ≡ before_bar text.now }
    ensures within { result ≤ length text.now }
{
    for (at, byte) in text.iter().enumerate() {
        if *byte == b'|' {
            return at;
        }
    }
    text.len()
}

#[tactic(auto, unfolding(crate::specs::IdReading::part_in))]
fn part_at(text: &[u8]) -> Option<Part<'_>>
    ensures value { option_map (λ p. (p.number, p.rest.now)) result ≡ part_in text.now }
    ensures part { IfSome result (λ p. IsPart p.number) }
{
    let (digits, rest) = text.split_at(bar_place(text));
    let number = whole_number(digits)?;
    if number < 1 {
        return None;
    }
    Some(Part {
        number: number.unsigned_abs(),
        rest,
    })
}

fn after_bars(text: &[u8]) -> Option<&[u8]>
    ensures { option_copied result ≡ after_two_bars text.now }
{
    let (first, rest) = text.split_first()?;
    let (second, rest) = rest.split_first()?;
    if *first == b'|' && *second == b'|' {
        Some(rest)
    } else {
        None
    }
}

// The parts that follow the first one.
fn second(first: u64, text: &[u8]) -> Option<Parts>
    requires { IsPart first }
    ensures value { option_map listed result ≡ second_in first text.now }
    ensures parts { IfSome result (λ p. IsId (listed p)) }
{
    let rest = after_bars(text)?;
    let part = part_at(rest)?;
    if part.rest.is_empty() {
        return Some(Parts::Two(first, part.number));
    }
    third(first, part.number, part.rest)
}

fn third(first: u64, second: u64, text: &[u8]) -> Option<Parts>
    requires first { IsPart first }
    requires second { IsPart second }
    ensures value { option_map listed result ≡ third_in first second text.now }
    ensures parts { IfSome result (λ p. IsId (listed p)) }
{
    let rest = after_bars(text)?;
    let part = part_at(rest)?;
    if !part.rest.is_empty() {
        return None;
    }
    Some(Parts::Three(first, second, part.number))
}

#[tactic(auto, unfolding(crate::specs::IdReading::id_in))]
fn parts_of(text: &[u8]) -> Option<Parts>
    ensures value { option_map listed result ≡ id_in text.now }
    ensures parts { IfSome result (λ p. IsId (listed p)) }
{
    let part = part_at(text)?;
    if part.rest.is_empty() {
        return Some(Parts::One(part.number));
    }
    second(part.number, part.rest)
}

fn push_number(out: &mut Text, number: u64) -> Result<(), NoMemory>
    ensures { OnOk result (out.new ≡ out.old ++ decimal number) }
{
    let mut buffer = Buffer::new();
    out.push_slice(buffer.format(number).as_bytes())
}

fn is_part(number: u64) -> bool
    ensures { result ≡ is_part number }
{
    1 <= number && number < TOO_LARGE
}

impl Id {
    /// The id of one number, which is from 1 and has at most 18 digits.
    pub fn new(number: u64) -> Id
        requires { IsPart number }
        ensures { result ≡ number ∷ [] }
    {
        Id {
            parts: Parts::One(number),
        }
    }

    /// The id of these numbers. There is none exactly where they aren't one to three numbers from 1,
    /// each of at most 18 digits.
    #[tactic(auto, unfolding(crate::specs::Limits::is_legal_id))]
    pub fn from_numbers(numbers: &[u64]) -> Option<Id>
        ensures { result ≡ cond (is_legal_id numbers.now) (Some numbers.now) None }
    {
        match *numbers {
            [a] if is_part(a) => Some(Id {
                parts: Parts::One(a),
            }),
            [a, b] if is_part(a) && is_part(b) => Some(Id {
                parts: Parts::Two(a, b),
            }),
            [a, b, c] if is_part(a) && is_part(b) && is_part(c) => Some(Id {
                parts: Parts::Three(a, b, c),
            }),
            _ => None,
        }
    }

    /// How many numbers it has: one to three.
    pub fn len(&self) -> usize
        ensures len { result ≡ length self.now }
        ensures id { IsId self.now }
    {
        match self.parts {
            Parts::One(_) => 1,
            Parts::Two(_, _) => 2,
            Parts::Three(_, _, _) => 3,
        }
    }

    /// Its number at a place counted from 0, where there is one.
    pub fn part(&self, at: usize) -> Option<u64>
        ensures value { result ≡ slice_get self.now at }
        ensures part { IfSome result IsPart }
    {
        match (self.parts, at) {
            (Parts::One(a), 0) | (Parts::Two(a, _), 0) | (Parts::Three(a, _, _), 0) => Some(a),
            (Parts::Two(_, b), 1) | (Parts::Three(_, b, _), 1) => Some(b),
            (Parts::Three(_, _, c), 2) => Some(c),
            _ => None,
        }
    }

    /// The id with one number more, which is from 1 and has at most 18 digits; the id has one or two.
    pub fn followed_by(&self, number: u64) -> Id
        requires few { length self.now < 3 }
        requires part { IsPart number }
        ensures { result ≡ self.now ++ number ∷ [] }
    {
        match self.parts {
            Parts::One(a) => Id {
                parts: Parts::Two(a, number),
            },
            Parts::Two(a, b) => Id {
                parts: Parts::Three(a, b, number),
            },
            Parts::Three(_, _, _) => unreachable!(),
        }
    }

    /// The order by numbers, one after the other; of two ids the one that ends first comes first.
    pub fn compare(&self, other: &Id) -> Ordering
        ensures { result ≡ slice_cmp nat_cmp self.now other.now }
    {
        match (self.parts, other.parts) {
            (Parts::One(a), Parts::One(x)) => a.cmp(&x),
            (Parts::One(a), Parts::Two(x, _)) => a.cmp(&x).then(Ordering::Less),
            (Parts::One(a), Parts::Three(x, _, _)) => a.cmp(&x).then(Ordering::Less),
            (Parts::Two(a, _), Parts::One(x)) => a.cmp(&x).then(Ordering::Greater),
            (Parts::Two(a, b), Parts::Two(x, y)) => a.cmp(&x).then(b.cmp(&y)),
            (Parts::Two(a, b), Parts::Three(x, y, _)) => {
                a.cmp(&x).then(b.cmp(&y).then(Ordering::Less))
            }
            (Parts::Three(a, _, _), Parts::One(x)) => a.cmp(&x).then(Ordering::Greater),
            (Parts::Three(a, b, _), Parts::Two(x, y)) => {
                a.cmp(&x).then(b.cmp(&y).then(Ordering::Greater))
            }
            (Parts::Three(a, b, c), Parts::Three(x, y, z)) => {
                a.cmp(&x).then(b.cmp(&y).then(c.cmp(&z)))
            }
        }
    }

    /// Whether both have the same numbers.
    #[tactic(auto, using(crate::proofs::SameLaws::numbers_are_same))]
    pub fn is_same(&self, other: &Id) -> bool
        ensures { IsTrue result ↔ (self.now ≡ other.now) }
    {
        matches!(self.compare(other), Ordering::Equal)
    }

    /// The id that the text is. There is none exactly where the text is no id's text.
    pub fn from_text(text: &[u8]) -> Option<Id>
        ensures found { IfSome result (λ id. IsId id × (text.now ≡ id_text id)) }
        ensures none { IfNone result ((id : List ℕ) → IsId id → text.now ≢ id_text id) }
    {
        match parts_of(text) {
            None => None,
            Some(parts) => Some(Id { parts }),
        }
    }

    /// Its numbers joined by `||`; it fails only for want of memory.
    pub fn text(&self, alloc: Global) -> Result<Text, NoMemory>
        ensures { IfOk result (λ text. text ≡ id_text self.now) }
    {
        let mut out = Text::new(alloc);
        match self.parts {
            Parts::One(a) => push_number(&mut out, a)?,
            Parts::Two(a, b) => {
                push_number(&mut out, a)?;
                out.push_slice(b"||")?;
                push_number(&mut out, b)?;
            }
            Parts::Three(a, b, c) => {
                push_number(&mut out, a)?;
                out.push_slice(b"||")?;
                push_number(&mut out, b)?;
                out.push_slice(b"||")?;
                push_number(&mut out, c)?;
            }
        }
        Ok(out)
    }
}

impl PartialEq for Id {
    ghost use Rattle.std.specs.Ordering.{nat_cmp, eq_by_cmp};
    ghost use Rattle.std.specs.Cmp.{eq_by_cmp_equiv, partial_equiv_from_equiv};
    ghost use Rattle.std.specs.Cmp.Lexicographic.{slice_cmp, nat_list_cmp_total};

    ghost eq = { eq_by_cmp (slice_cmp nat_cmp) };

    ghost laws = { partial_equiv_from_equiv (eq_by_cmp_equiv nat_list_cmp_total) };

    fn eq(&self, other: &Id) -> bool {
        matches!(self.compare(other), Ordering::Equal)
    }
}

impl Eq for Id {
    ghost use Rattle.std.specs.Cmp.{eq_by_cmp_equiv};
    ghost use Rattle.std.specs.Cmp.Lexicographic.{nat_list_cmp_total};

    ghost laws = { eq_by_cmp_equiv nat_list_cmp_total };
}

impl PartialOrd for Id {
    ghost use Rattle.std.specs.Prelude.{Some, refl};
    ghost use Rattle.std.specs.Ordering.{nat_cmp};
    ghost use Rattle.std.specs.Cmp.{po};
    ghost use Rattle.std.specs.Cmp.Lexicographic.{slice_cmp, nat_list_cmp_total};

    ghost partial_cmp = { λ a b. Some (slice_cmp nat_cmp a b) };

    ghost laws = { po nat_list_cmp_total (λ a b. refl) };

    fn partial_cmp(&self, other: &Id) -> Option<Ordering> {
        Some(self.cmp(other))
    }
}

impl Ord for Id {
    ghost use Rattle.std.specs.Prelude.{refl};
    ghost use Rattle.std.specs.Ordering.{nat_cmp};
    ghost use Rattle.std.specs.Cmp.Lexicographic.{slice_cmp, nat_list_cmp_total};

    ghost cmp = { slice_cmp nat_cmp };

    ghost total = { nat_list_cmp_total };

    ghost matches_partial_cmp = { λ a b. refl };

    ghost matches_eq = { λ a b. refl };

    fn cmp(&self, other: &Id) -> Ordering {
        self.compare(other)
    }
}
