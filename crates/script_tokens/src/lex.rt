//! Cuts the token at the front of a script.

ghost use Rattle.std.specs.Prelude.{◌≡◌, ◌<◌, ◌≤◌, ◌^◌, length, true, IfOk};
ghost use Rattle.script_tokens.specs.ScriptLex as spec;

use crate::chars::{Set, byte, is_ascii, past};
use crate::mode::{At, Mode, begins_argument, is_possible};
use crate::pieces::{
    Cut, begins_class, begins_comment, begins_word, class_end, comment, digits, global_end, string,
};
use crate::token::Kind;
use crate::words::{command_word, dollar_word};

fn is_space(b: u8) -> bool
    ensures { result ≡ spec.is_space b }
{
    b == 9 || b == 13 || b == 32
}

/// Whether a command's line or block ends here, or a comment begins.
#[tactic(auto, unfolding(crate::specs::ScriptLex::ends_command))]
fn ends_command(z: &[u8]) -> bool
    ensures { result ≡ spec.ends_command z.now }
{
    let Some((b, rest)) = z.split_first() else {
        return true;
    };
    *b == b'\n'
        || *b == b'{'
        || *b == b'}'
        || (*b == 13 && byte(rest, 0) == b'\n')
        || begins_comment(z)
}

/// What stands behind the first byte.
fn tail(z: &[u8]) -> &[u8]
    ensures { result.now ≡ spec.tail z.now }
{
    match z.split_first() {
        Some((_, rest)) => rest,
        None => z,
    }
}

/// Whether a command that may lack its argument lacks it here.
#[tactic(auto, unfolding(crate::specs::ScriptLex::is_alone))]
fn is_alone(z: &[u8]) -> bool
    ensures { result ≡ spec.is_alone z.now }
{
    ends_command(z) || (is_space(byte(z, 0)) && (ends_command(tail(z)) || is_space(byte(z, 1))))
}

/// The kind of the blank or comment at the front.
#[tactic(auto, unfolding(crate::specs::ScriptLex::gap))]
fn gap(mode: Mode, z: &[u8]) -> Kind
    ensures { result ≡ spec.gap mode z.now }
{
    if begins_argument(mode) && is_possible(mode.takes) && is_alone(z) {
        Kind::Lacking
    } else {
        Kind::Blank
    }
}

fn other(b: u8) -> Cut
    ensures { result ≡ spec.other b }
{
    (
        if is_ascii(b) {
            Kind::Other
        } else {
            Kind::NotAscii
        },
        1,
    )
}

/// One of these two kinds, by the byte that comes next.
fn doubled(z: &[u8], next: u8, two: Kind, one: Kind) -> Cut
    requires some { 0 < length z.now }
    requires byte { 0 < next }
    ensures value { result ≡ spec.doubled z.now next two one }
    ensures within { (1 ≤ result.1) × (result.1 ≤ length z.now) }
{
    if byte(z, 1) == next {
        (two, 2)
    } else {
        (one, 1)
    }
}

fn name(z: &[u8]) -> Cut
    requires { 0 < length z.now }
    ensures value { result ≡ spec.name z.now }
    ensures within { (1 ≤ result.1) × (result.1 ≤ length z.now) }
{
    (Kind::Name, past(Set::Word, z, 1))
}

fn dollar(z: &[u8]) -> Cut
    requires { 0 < length z.now }
    ensures value { result ≡ spec.dollar z.now }
    ensures within { (1 ≤ result.1) × (result.1 ≤ length z.now) }
{
    if byte(z, 1).is_ascii_alphabetic() {
        let end = past(Set::Word, z, 1);
        return (dollar_word(tail(&z[..end])), end);
    }
    (Kind::Other, 1)
}

fn percent(z: &[u8]) -> Cut
    requires { 0 < length z.now }
    ensures value { result ≡ spec.percent z.now }
    ensures within { (1 ≤ result.1) × (result.1 ≤ length z.now) }
{
    let end = past(Set::Word, z, 1);
    if &z[..end] == b"%objlasterror".as_slice() {
        return (Kind::LastError, end);
    }
    (Kind::Other, 1)
}

fn negates(b: u8) -> bool
    ensures { result ≡ spec.negates b }
{
    b == b'=' || b == b'<' || b == b'>' || b == b'[' || b == b']'
}

fn not_sign(z: &[u8]) -> Cut
    ensures { result ≡ spec.not_sign z.now }
{
    let kind = if negates(byte(z, 1)) {
        Kind::Other
    } else {
        Kind::Not
    };
    (kind, 1)
}

fn class_open(z: &[u8]) -> Cut
    requires { 0 < length z.now }
    ensures value { result ≡ spec.class_open z.now }
    ensures within { (1 ≤ result.1) × (result.1 ≤ length z.now) }
{
    if begins_class(z) {
        return (Kind::ClassOpen, 8);
    }
    (Kind::Other, 1)
}

#[tactic(auto, unfolding(crate::specs::ScriptLex::operand_mark))]
fn operand_mark(b: u8, z: &[u8]) -> Cut
    requires { 0 < length z.now }
    ensures value { result ≡ spec.operand_mark b z.now }
    ensures within { (1 ≤ result.1) × (result.1 ≤ length z.now) }
{
    match b {
        b'(' => (Kind::Open, 1),
        b')' => (Kind::Close, 1),
        b'+' => (Kind::Plus, 1),
        b'-' => (Kind::Minus, 1),
        b'\'' => not_sign(z),
        b'!' => (Kind::Line, 1),
        b'^' => (Kind::Caret, 1),
        b'.' => doubled(z, b'.', Kind::Own, Kind::Other),
        b'#' => class_open(z),
        _ => other(b),
    }
}

/// Where an operand may stand.
#[tactic(auto, unfolding(crate::specs::ScriptLex::operand))]
fn operand(b: u8, z: &[u8]) -> Cut
    requires some { 0 < length z.now }
    requires short { length z.now < 2 ^ 62 }
    ensures value { result ≡ spec.operand b z.now }
    ensures within { (1 ≤ result.1) × (result.1 ≤ length z.now) }
{
    if b.is_ascii_alphabetic() {
        name(z)
    } else if b.is_ascii_digit() {
        digits(z)
    } else if b == b'"' {
        string(z)
    } else if b == b'$' {
        dollar(z)
    } else if b == b'%' {
        percent(z)
    } else {
        operand_mark(b, z)
    }
}

/// The opposite of an operator.
#[tactic(auto, unfolding(crate::specs::ScriptLex::opposite))]
fn opposite(z: &[u8]) -> Cut
    requires { 0 < length z.now }
    ensures value { result ≡ spec.opposite z.now }
    ensures within { (1 ≤ result.1) × (result.1 ≤ length z.now) }
{
    match byte(z, 1) {
        b'=' => (Kind::NotEqual, 2),
        b'<' => (Kind::NotLess, 2),
        b'>' => (Kind::NotGreater, 2),
        b'[' => (Kind::NotContains, 2),
        b']' => (Kind::NotFollows, 2),
        _ => (Kind::Other, 1),
    }
}

fn rest_mark(z: &[u8]) -> Cut
    ensures { result ≡ spec.rest_mark z.now }
{
    let kind = if begins_class(z) {
        Kind::Other
    } else {
        Kind::Modulo
    };
    (kind, 1)
}

#[tactic(auto, unfolding(crate::specs::ScriptLex::sum_mark))]
fn sum_mark(b: u8) -> Option<Kind>
    ensures { result ≡ spec.sum_mark b }
{
    match b {
        b'+' => Some(Kind::Add),
        b'-' => Some(Kind::Subtract),
        b'*' => Some(Kind::Multiply),
        b'\\' => Some(Kind::Quotient),
        b'_' => Some(Kind::Join),
        b'=' => Some(Kind::Equals),
        b'[' => Some(Kind::Contains),
        b']' => Some(Kind::Follows),
        b'!' => Some(Kind::Or),
        _ => None,
    }
}

#[tactic(auto, unfolding(crate::specs::ScriptLex::list_mark))]
fn list_mark(b: u8) -> Option<Kind>
    ensures { result ≡ spec.list_mark b }
{
    match b {
        b')' => Some(Kind::Close),
        b'(' => Some(Kind::OpenArgs),
        b',' => Some(Kind::Comma),
        b':' => Some(Kind::Colon),
        _ => None,
    }
}

#[tactic(auto, unfolding(crate::specs::ScriptLex::wide_mark))]
fn wide_mark(b: u8, z: &[u8]) -> Cut
    requires { 0 < length z.now }
    ensures value { result ≡ spec.wide_mark b z.now }
    ensures within { (1 ≤ result.1) × (result.1 ≤ length z.now) }
{
    match b {
        b'<' => doubled(z, b'=', Kind::AtMost, Kind::Less),
        b'>' => doubled(z, b'=', Kind::AtLeast, Kind::Greater),
        b'&' => doubled(z, b'&', Kind::AndThen, Kind::And),
        b'|' => doubled(z, b'|', Kind::OrElse, Kind::Other),
        b'\'' => opposite(z),
        b'.' => doubled(z, b'.', Kind::Other, Kind::Dot),
        b'#' => rest_mark(z),
        _ => other(b),
    }
}

#[tactic(auto, unfolding(crate::specs::ScriptLex::behind_mark))]
fn behind_mark(b: u8, z: &[u8]) -> Cut
    requires { 0 < length z.now }
    ensures value { result ≡ spec.behind_mark b z.now }
    ensures within { (1 ≤ result.1) × (result.1 ≤ length z.now) }
{
    if let Some(kind) = sum_mark(b) {
        return (kind, 1);
    }
    if let Some(kind) = list_mark(b) {
        return (kind, 1);
    }
    wide_mark(b, z)
}

fn command_at(z: &[u8]) -> Cut
    requires { 0 < length z.now }
    ensures value { result ≡ spec.command_at z.now }
    ensures within { (1 ≤ result.1) × (result.1 ≤ length z.now) }
{
    let end = past(Set::Word, z, 1);
    (command_word(&z[..end]), end)
}

fn is_outside(post: Option<u8>) -> bool
    ensures { result ≡ spec.is_outside post }
{
    match post {
        Some(_) => false,
        None => true,
    }
}

/// Behind an operand.
#[tactic(auto, unfolding(crate::specs::ScriptLex::behind))]
fn behind(post: Option<u8>, b: u8, z: &[u8]) -> Cut
    requires { 0 < length z.now }
    ensures value { result ≡ spec.behind post b z.now }
    ensures within { (1 ≤ result.1) × (result.1 ≤ length z.now) }
{
    if !b.is_ascii_alphabetic() {
        return behind_mark(b, z);
    }
    if is_outside(post) {
        command_at(z)
    } else {
        (Kind::Other, 1)
    }
}

/// Where a command may stand, and no operand.
fn command(b: u8, z: &[u8]) -> Cut
    requires { 0 < length z.now }
    ensures value { result ≡ spec.command b z.now }
    ensures within { (1 ≤ result.1) × (result.1 ≤ length z.now) }
{
    if b.is_ascii_alphabetic() {
        command_at(z)
    } else {
        other(b)
    }
}

/// Directly behind a command's word.
fn post_mark(b: u8) -> Cut
    ensures { result ≡ spec.post_mark b }
{
    if b == b':' {
        (Kind::Colon, 1)
    } else {
        other(b)
    }
}

fn member(b: u8, z: &[u8]) -> Cut
    requires { 0 < length z.now }
    ensures value { result ≡ spec.member b z.now }
    ensures within { (1 ≤ result.1) × (result.1 ≤ length z.now) }
{
    if !begins_word(z) {
        return other(b);
    }
    let kind = if b == b'%' { Kind::Percent } else { Kind::Name };
    (kind, past(Set::Word, z, 1))
}

fn global(b: u8, z: &[u8]) -> Cut
    requires some { 0 < length z.now }
    requires short { length z.now < 2 ^ 62 }
    ensures value { result ≡ spec.global b z.now }
    ensures within { (1 ≤ result.1) × (result.1 ≤ length z.now) }
{
    if b.is_ascii_alphabetic() || b == b'%' {
        return (Kind::GlobalName, global_end(&z[1..]));
    }
    other(b)
}

fn class(b: u8, z: &[u8]) -> Cut
    requires some { 0 < length z.now }
    requires short { length z.now < 2 ^ 62 }
    ensures value { result ≡ spec.class b z.now }
    ensures within { (1 ≤ result.1) × (result.1 ≤ length z.now) }
{
    if begins_word(z) {
        return (Kind::ClassName, class_end(&z[1..]));
    }
    other(b)
}

/// Behind the name of a class.
fn class_close(b: u8, z: &[u8]) -> Cut
    requires { 0 < length z.now }
    ensures value { result ≡ spec.class_close b z.now }
    ensures within { (1 ≤ result.1) × (result.1 ≤ length z.now) }
{
    if b == b')' && byte(z, 1) == b'.' {
        return (Kind::ClassClose, 2);
    }
    other(b)
}

/// What no blank, newline, brace or comment begins.
fn by_place(at: At, post: Option<u8>, b: u8, z: &[u8]) -> Cut
    requires some { 0 < length z.now }
    requires short { length z.now < 2 ^ 62 }
    ensures value { result ≡ spec.by_place at post b z.now }
    ensures within { (1 ≤ result.1) × (result.1 ≤ length z.now) }
{
    match at {
        At::Command => command(b, z),
        At::Word => post_mark(b),
        At::Operand => operand(b, z),
        At::Behind => behind(post, b, z),
        At::Member => member(b, z),
        At::Global => global(b, z),
        At::Class => class(b, z),
        At::ClassEnd => class_close(b, z),
    }
}

/// The token at the front.
#[tactic(auto, unfolding(crate::specs::ScriptLex::token))]
pub fn token(mode: Mode, z: &[u8]) -> Cut
    requires { length z.now < 2 ^ 62 }
    ensures value { result ≡ spec.token mode z.now }
    ensures within { result.1 ≤ length z.now }
    ensures moves { 0 < length z.now → 1 ≤ result.1 }
{
    let Some(b) = z.first().copied() else {
        return (Kind::End, 0);
    };
    if is_space(b) {
        (gap(mode, z), 1)
    } else if b == b'\n' {
        (Kind::Newline, 1)
    } else if b == b'{' {
        (Kind::LBrace, 1)
    } else if b == b'}' {
        (Kind::RBrace, 1)
    } else if begins_comment(z) {
        comment(gap(mode, z), z)
    } else {
        by_place(mode.at, mode.post, b, z)
    }
}

pub fn is_blank(kind: Kind) -> bool
    ensures { result ≡ spec.is_blank kind }
{
    matches!(kind, Kind::Blank | Kind::Lacking)
}
