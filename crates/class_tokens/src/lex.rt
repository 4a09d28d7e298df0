//! Cuts the token at the front of a text.

ghost use Rattle.std.specs.Prelude.{◌≡◌, ◌≢◌, ◌<◌, ◌≤◌, ◌+◌, ◌-◌, ◌^◌, length, slice_index, drop, false, IfOk};
ghost use Rattle.class_tokens.specs.ClassLex as spec;
ghost use Rattle.class_tokens.specs.ClassTokens.{AreTokens};

use crate::blocks::{Cut, balanced, body, comment, quoted, storage};
use crate::chars::{Set, byte, is_ascii, past};
use crate::mode::{At, Joint, Mode};
use crate::token::Kind;
use obj_kinds::NoMemory;
use std::alloc::Global;

/// How many digits a number may have behind its leading zeros.
const MAX_DIGITS: usize = 18;

fn digits(z: &[u8]) -> Cut
    requires { 0 < length z.now }
    ensures value { result ≡ spec.digits z.now }
    ensures within { (1 ≤ result.1) × (result.1 ≤ length z.now) }
{
    let zeros = past(Set::Zeros, z, 0);
    let end = past(Set::Digits, z, 1);
    let kind = if end > MAX_DIGITS && end.saturating_sub(zeros) > MAX_DIGITS {
        Kind::LongDigits
    } else {
        Kind::Digits
    };
    (kind, end)
}

/// Whether both have the same letters, in any case.
fn same_letters(word: &[u8], quoted: &[u8]) -> bool
    ensures { result ≡ spec.same_letters word.now quoted.now }
{
    word.eq_ignore_ascii_case(quoted)
}

#[tactic(auto, unfolding(crate::specs::ClassLex::head_word))]
fn head_word(word: &[u8]) -> Option<Kind>
    ensures { result ≡ spec.head_word word.now }
{
    if same_letters(word, b"class".as_slice()) {
        Some(Kind::Class)
    } else if same_letters(word, b"extends".as_slice()) {
        Some(Kind::Extends)
    } else if same_letters(word, b"not".as_slice()) {
        Some(Kind::Not)
    } else if same_letters(word, b"on".as_slice()) {
        Some(Kind::On)
    } else {
        None
    }
}

#[tactic(auto, unfolding(crate::specs::ClassLex::type_word))]
fn type_word(word: &[u8]) -> Option<Kind>
    ensures { result ≡ spec.type_word word.now }
{
    if same_letters(word, b"as".as_slice()) {
        Some(Kind::As)
    } else if same_letters(word, b"list".as_slice()) {
        Some(Kind::List)
    } else if same_letters(word, b"array".as_slice()) {
        Some(Kind::Array)
    } else if same_letters(word, b"of".as_slice()) {
        Some(Kind::Of)
    } else {
        None
    }
}

#[tactic(auto, unfolding(crate::specs::ClassLex::member_word))]
fn member_word(word: &[u8]) -> Option<Kind>
    ensures { result ≡ spec.member_word word.now }
{
    if same_letters(word, b"property".as_slice()) {
        Some(Kind::Property)
    } else if same_letters(word, b"relationship".as_slice()) {
        Some(Kind::Relationship)
    } else if same_letters(word, b"index".as_slice()) {
        Some(Kind::Index)
    } else if same_letters(word, b"parameter".as_slice()) {
        Some(Kind::Parameter)
    } else if same_letters(word, b"method".as_slice()) {
        Some(Kind::Method)
    } else if same_letters(word, b"classmethod".as_slice()) {
        Some(Kind::ClassMethod)
    } else if same_letters(word, b"storage".as_slice()) {
        Some(Kind::Storage)
    } else {
        None
    }
}

#[tactic(auto, unfolding(crate::specs::ClassLex::left_out_word))]
fn left_out_word(word: &[u8]) -> bool
    ensures { result ≡ spec.left_out_word word.now }
{
    same_letters(word, b"query".as_slice())
        || same_letters(word, b"trigger".as_slice())
        || same_letters(word, b"foreignkey".as_slice())
        || same_letters(word, b"projection".as_slice())
        || same_letters(word, b"xdata".as_slice())
}

#[tactic(auto, unfolding(crate::specs::ClassLex::word_kind))]
fn word_kind(word: &[u8]) -> Kind
    ensures { result ≡ spec.word_kind word.now }
{
    if let Some(kind) = head_word(word) {
        return kind;
    }
    if let Some(kind) = type_word(word) {
        return kind;
    }
    if let Some(kind) = member_word(word) {
        return kind;
    }
    if left_out_word(word) {
        Kind::LeftOut
    } else {
        Kind::Name
    }
}

fn is_at_own_name(at: At) -> bool
    ensures { result ≡ spec.is_at_own_name at }
{
    matches!(at, At::OwnName)
}

/// The kind of a word where no dot follows it.
#[tactic(auto, unfolding(crate::specs::ClassLex::single_word))]
fn single_word(mode: Mode, percent: bool, word: &[u8]) -> Kind
    ensures { result ≡ spec.single_word mode percent word.now }
{
    if is_at_own_name(mode.at) {
        Kind::Bare
    } else if mode.equals {
        Kind::Lone
    } else if percent {
        Kind::Percent
    } else {
        word_kind(word)
    }
}

/// The kind of a word that no dot stands before.
#[tactic(auto, unfolding(crate::specs::ClassLex::first_word))]
fn first_word(mode: Mode, percent: bool, word: &[u8], next: u8) -> Kind
    ensures { result ≡ spec.first_word mode percent word.now next }
{
    if next != b'.' {
        single_word(mode, percent, word)
    } else if percent {
        Kind::Percent
    } else {
        word_kind(word)
    }
}

/// The kind of a word that stands at the front: `percent` says that it begins with `%`, and `next` is the byte behind it.
fn kind_of_word(mode: Mode, percent: bool, word: &[u8], next: u8) -> Kind
    ensures { result ≡ spec.kind_of_word mode percent word.now next }
{
    match mode.joint {
        Joint::Torn => Kind::Other,
        Joint::Dotted => if percent { Kind::Percent } else { Kind::Name },
        _ => first_word(mode, percent, word, next),
    }
}

fn word(mode: Mode, z: &[u8]) -> Cut
    requires { 0 < length z.now }
    ensures value { result ≡ spec.word mode z.now }
    ensures within { (1 ≤ result.1) × (result.1 ≤ length z.now) }
{
    let end = past(Set::Word, z, 1);
    let kind = kind_of_word(mode, z[0] == b'%', &z[..end], byte(z, end));
    (kind, end)
}

fn slash(z: &[u8]) -> Cut
    requires some { 0 < length z.now }
    requires short { length z.now < 2 ^ 62 }
    ensures value { result ≡ spec.slash z.now }
    ensures within { (1 ≤ result.1) × (result.1 ≤ length z.now) }
{
    match byte(z, 1) {
        b'/' => (Kind::Blank, past(Set::Line, z, 2)),
        b'*' => comment(&z[2..]),
        _ => (Kind::Other, 1),
    }
}

/// A brace at the front; the text from behind it.
fn brace(alloc: Global, mode: Mode, z: &[u8]) -> Result<Cut, NoMemory>
    requires { length z.now < 2 ^ 62 }
    ensures value { IfOk result (λ cut. cut ≡ spec.brace mode z.now) }
    ensures within { IfOk result (λ cut. (1 ≤ cut.1) × (cut.1 ≤ length z.now + 1)) }
{
    if mode.equals {
        return balanced(alloc, z, b'}');
    }
    match mode.at {
        At::Outside | At::OwnName => Ok((Kind::LBrace, 1)),
        At::Member | At::Inside => Ok(body(z)),
        At::InStorage => Ok(storage(z)),
    }
}

/// A parenthesis at the front; the text from behind it.
fn parenthesis(alloc: Global, mode: Mode, z: &[u8]) -> Result<Cut, NoMemory>
    requires { length z.now < 2 ^ 62 }
    ensures value { IfOk result (λ cut. cut ≡ spec.parenthesis mode z.now) }
    ensures within { IfOk result (λ cut. (1 ≤ cut.1) × (cut.1 ≤ length z.now + 1)) }
{
    if mode.equals {
        return balanced(alloc, z, b')');
    }
    Ok((Kind::LParen, 1))
}

fn is_joined(joint: Joint) -> bool
    ensures { result ≡ spec.is_joined joint }
{
    matches!(joint, Joint::Joined)
}

#[tactic(auto, unfolding(crate::specs::ClassLex::single))]
fn single(mode: Mode, b: u8) -> Kind
    ensures { result ≡ spec.single mode b }
{
    match b {
        9 | 10 | 13 | 32 => Kind::Blank,
        b',' => Kind::Comma,
        b';' => Kind::Semicolon,
        b'=' => Kind::Equals,
        b'-' => Kind::Minus,
        b')' => Kind::RParen,
        b'[' => Kind::LBracket,
        b']' => Kind::RBracket,
        b'}' => Kind::RBrace,
        b'.' => if is_joined(mode.joint) {
            Kind::Dot
        } else {
            Kind::Other
        },
        _ => if is_ascii(b) {
            Kind::Other
        } else {
            Kind::NotAscii
        },
    }
}

#[tactic(auto, unfolding(crate::specs::ClassLex::begins_word))]
fn begins_word(z: &[u8]) -> bool
    ensures { result ≡ spec.begins_word z.now }
{
    let b = byte(z, 0);
    b.is_ascii_alphabetic() || (b == b'%' && byte(z, 1).is_ascii_alphabetic())
}

/// The token at the front; it fails only for want of memory.
#[tactic(auto, unfolding(crate::specs::ClassLex::token))]
pub fn token(alloc: Global, mode: Mode, z: &[u8]) -> Result<Cut, NoMemory>
    requires { length z.now < 2 ^ 62 }
    ensures value { IfOk result (λ cut. cut ≡ spec.token mode z.now) }
    ensures within { IfOk result (λ cut. cut.1 ≤ length z.now) }
    ensures moves { IfOk result (λ cut. 0 < length z.now → 1 ≤ cut.1) }
{
    let Some(b) = z.first().copied() else {
        return Ok((Kind::End, 0));
    };
    if begins_word(z) {
        Ok(word(mode, z))
    } else if b.is_ascii_digit() {
        Ok(digits(z))
    } else if b == b'"' {
        Ok(quoted(&z[1..]))
    } else if b == b'/' {
        Ok(slash(z))
    } else if b == b'{' {
        brace(alloc, mode, &z[1..])
    } else if b == b'(' {
        parenthesis(alloc, mode, &z[1..])
    } else {
        Ok((single(mode, b), 1))
    }
}

pub fn is_blank(kind: Kind) -> bool
    ensures { result ≡ spec.is_blank kind }
{
    matches!(kind, Kind::Blank)
}

/// The law above the lexer: the tokens of a class file and what stands between them are the whole text, what stands
/// between them is blanks and comments, and each token is as long as it can be.
#[tactic(auto, using(crate::proofs::TokenLaws::text_cut))]
pub fn tokens_are_the_text(_text: &[u8])
    ensures { AreTokens _text.now (spec.file_tokens _text.now) }
{}
