//! Strings, comments, numbers, and names of several words.

ghost use Rattle.std.specs.Prelude.{◌≡◌, ◌<◌, ◌≤◌, ◌+◌, ◌^◌, length, true, false};
ghost use Rattle.script_tokens.specs.ScriptPieces as spec;

use crate::chars::{Set, byte, is_ascii, past};
use crate::token::Kind;

/// A kind, and a length in bytes.
pub type Cut = (Kind, usize);

/// How many digits a number may have behind its leading zeros.
const MAX_DIGITS: usize = 18;

/// What stands in quotes, from behind the first one.
fn quoted(mut z: &[u8]) -> Cut
    requires { length z.now < 2 ^ 62 }
    ensures value { result ≡ spec.quoted_from false 1 z.entry.now }
    ensures within { (1 ≤ result.1) × (result.1 ≤ length z.entry.now + 1) }
{
    let mut may_close = false;
    let mut at = 1;
    while let [b, rest @ ..] = z {
        if may_close && *b != b'"' {
            return (Kind::Text, at);
        }
        if !is_ascii(*b) {
            return (Kind::BadText, at);
        }
        may_close = !may_close && *b == b'"';
        at += 1;
        z = rest;
    }
    (
        if may_close {
            Kind::Text
        } else {
            Kind::OpenText
        },
        at,
    )
}

#[tactic(auto, unfolding(crate::specs::ScriptPieces::is_shared))]
fn is_shared(z: &[u8]) -> bool
    ensures value { result ≡ spec.is_shared z.now }
    ensures within { result ≡ true → 3 ≤ length z.now }
{
    byte(z, 1) == b'S' && byte(z, 2) == b'"' && byte(z, 3) != b'"'
}

/// A string, with its quotes.
pub fn string(z: &[u8]) -> Cut
    requires some { 0 < length z.now }
    requires short { length z.now < 2 ^ 62 }
    ensures value { result ≡ spec.string z.now }
    ensures within { (1 ≤ result.1) × (result.1 ≤ length z.now) }
{
    if is_shared(z) {
        return (Kind::Shared, 3);
    }
    quoted(&z[1..])
}

/// A comment of this kind, from behind its first two bytes. It ends at a byte that may not stand anywhere.
fn comment_from(gap: Kind, mut z: &[u8]) -> Cut
    requires { length z.now < 2 ^ 62 }
    ensures value { result ≡ spec.comment_from gap 2 z.entry.now }
    ensures within { (1 ≤ result.1) × (result.1 ≤ length z.entry.now + 2) }
{
    let mut at = 2;
    while let [b, rest @ ..] = z {
        if !is_ascii(*b) {
            return (gap, at);
        }
        if *b == b'*' && byte(rest, 0) == b'/' {
            return (gap, at + 2);
        }
        at += 1;
        z = rest;
    }
    (Kind::OpenComment, at)
}

fn line_comment(z: &[u8]) -> bool
    ensures { result ≡ spec.line_comment z.now }
{
    let first = byte(z, 0);
    let second = byte(z, 1);
    first == b';' || (first == b'/' && second == b'/') || (first == b'#' && second == b';')
}

fn long_comment(z: &[u8]) -> bool
    ensures value { result ≡ spec.long_comment z.now }
    ensures within { result ≡ true → 2 ≤ length z.now }
{
    byte(z, 0) == b'/' && byte(z, 1) == b'*'
}

/// Whether a comment stands at the front.
#[tactic(auto, unfolding(crate::specs::ScriptPieces::begins_comment))]
pub fn begins_comment(z: &[u8]) -> bool
    ensures { result ≡ spec.begins_comment z.now }
{
    line_comment(z) || long_comment(z)
}

/// The comment at the front, as this kind.
pub fn comment(gap: Kind, z: &[u8]) -> Cut
    requires some { 0 < length z.now }
    requires short { length z.now < 2 ^ 62 }
    ensures value { result ≡ spec.comment gap z.now }
    ensures within { (1 ≤ result.1) × (result.1 ≤ length z.now) }
{
    if long_comment(z) {
        return comment_from(gap, &z[2..]);
    }
    (gap, past(Set::Line, z, 1))
}

fn digits_kind(z: &[u8], end: usize) -> Kind
    ensures { result ≡ spec.digits_kind z.now end }
{
    let zeros = past(Set::Zeros, z, 0);
    if end > MAX_DIGITS && end.saturating_sub(zeros) > MAX_DIGITS {
        Kind::LongDigits
    } else if end == 1 && byte(z, 0) == b'1' {
        Kind::One
    } else {
        Kind::Digits
    }
}

/// The digits at the front.
pub fn digits(z: &[u8]) -> Cut
    requires { 0 < length z.now }
    ensures value { result ≡ spec.digits z.now }
    ensures within { (1 ≤ result.1) × (result.1 ≤ length z.now) }
{
    let end = past(Set::Digits, z, 1);
    (digits_kind(z, end), end)
}

/// Whether a name, or one behind `%`, stands at the front.
#[tactic(auto, unfolding(crate::specs::ScriptPieces::begins_word))]
pub fn begins_word(z: &[u8]) -> bool
    ensures { result ≡ spec.begins_word z.now }
{
    let b = byte(z, 0);
    b.is_ascii_alphabetic() || (b == b'%' && byte(z, 1).is_ascii_alphabetic())
}

/// The end of a global's name, from behind its first byte.
pub fn global_end(mut z: &[u8]) -> usize
    requires { length z.now < 2 ^ 62 }
    ensures value { result ≡ spec.global_end 1 1 z.entry.now }
    ensures within { (1 ≤ result) × (result ≤ length z.entry.now + 1) }
{
    let mut good = 1;
    let mut at = 1;
    while let [b, rest @ ..] = z {
        if b.is_ascii_alphanumeric() {
            good = at + 1;
        } else if *b != b'.' {
            return good;
        }
        at += 1;
        z = rest;
    }
    good
}

/// The end of a class's name, from behind its first byte.
pub fn class_end(mut z: &[u8]) -> usize
    requires { length z.now < 2 ^ 62 }
    ensures value { result ≡ spec.class_end false 1 z.entry.now }
    ensures within { (1 ≤ result) × (result ≤ length z.entry.now + 1) }
{
    let mut dotted = false;
    let mut at = 1;
    while let [b, rest @ ..] = z {
        if b.is_ascii_alphanumeric() || (dotted && *b == b'%') {
            dotted = false;
        } else if *b == b'.' && begins_word(rest) {
            dotted = true;
        } else {
            return at;
        }
        at += 1;
        z = rest;
    }
    at
}

/// Whether `##class(` stands at the front.
#[tactic(auto, unfolding(crate::specs::ScriptPieces::begins_class))]
pub fn begins_class(z: &[u8]) -> bool
    ensures value { result ≡ spec.begins_class z.now }
    ensures within { result ≡ true → 8 ≤ length z.now }
{
    z.len() >= 8 && &z[..8] == b"##class(".as_slice()
}
