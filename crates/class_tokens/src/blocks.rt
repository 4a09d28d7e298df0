//! Strings, comments and blocks: what goes on to a closing mark.

ghost use Rattle.std.specs.Prelude.{◌≡◌, ◌<◌, ◌≤◌, ◌+◌, ◌^◌, length, true, false, [], ◌∷◌, IfOk};
ghost use Rattle.class_tokens.specs.ClassBlocks as spec;
ghost use Rattle.class_tokens.specs.ClassBytes as bytes;

use crate::chars::{byte, is_ascii};
use crate::token::Kind;
use obj_kinds::NoMemory;
use std::alloc::Global;

/// A kind, and a length in bytes.
pub type Cut = (Kind, usize);

/// What stands in quotes, from behind the first one.
pub fn quoted(mut z: &[u8]) -> Cut
    requires { length z.now < 2 ^ 62 }
    ensures value { result ≡ spec.quoted_from false 1 z.entry.now }
    ensures within { (1 ≤ result.1) × (result.1 ≤ length z.entry.now + 1) }
{
    let mut may_close = false;
    let mut at = 1;
    while let [b, rest @ ..] = z {
        if may_close && *b != b'"' {
            return (Kind::Text, at);
        }
        if !is_ascii(*b) {
            return (Kind::BadText, at);
        }
        may_close = !may_close && *b == b'"';
        at += 1;
        z = rest;
    }
    (
        if may_close {
            Kind::Text
        } else {
            Kind::OpenText
        },
        at,
    )
}

/// A comment, from behind its first two bytes. It ends at a byte that may not stand anywhere.
pub fn comment(mut z: &[u8]) -> Cut
    requires { length z.now < 2 ^ 62 }
    ensures value { result ≡ spec.comment_from 2 z.entry.now }
    ensures within { (1 ≤ result.1) × (result.1 ≤ length z.entry.now + 2) }
{
    let mut at = 2;
    while let [b, rest @ ..] = z {
        if !is_ascii(*b) {
            return (Kind::Blank, at);
        }
        if *b == b'*' && byte(rest, 0) == b'/' {
            return (Kind::Blank, at + 2);
        }
        at += 1;
        z = rest;
    }
    (Kind::OpenComment, at)
}

/// The text of a storage block, from behind its first brace. Braces alone count.
pub fn storage(mut z: &[u8]) -> Cut
    requires { length z.now < 2 ^ 62 }
    ensures value { result ≡ spec.storage_from 0 1 z.entry.now }
    ensures within { (1 ≤ result.1) × (result.1 ≤ length z.entry.now + 1) }
{
    let mut depth: usize = 0;
    let mut at: usize = 1;
    while let [b, rest @ ..] = z {
        if !is_ascii(*b) {
            return (Kind::BadBlock, at);
        }
        if *b == b'}' && depth == 0 {
            return (Kind::Block, at + 1);
        }
        if *b == b'{' {
            depth += 1;
        } else if *b == b'}' {
            depth -= 1;
        }
        at += 1;
        z = rest;
    }
    (Kind::OpenBlock, at)
}

/// What a part of a method's body is.
#[derive(Clone, Copy, Debug, PartialEq, Eq)]
pub enum Part {
    Code,
    Text,
    /// A comment up to the end of its line.
    Line,
    /// Between the two bytes that open a comment.
    Opening,
    Comment,
    /// Between the two bytes that close a comment.
    Closing,
}

fn part_after_code(b: u8, next: u8) -> Part
    ensures { result ≡ spec.part_after_code b next }
{
    match b {
        b'"' => Part::Text,
        b';' => Part::Line,
        b'/' => match next {
            b'/' => Part::Line,
            b'*' => Part::Opening,
            _ => Part::Code,
        },
        _ => Part::Code,
    }
}

fn part_after(part: Part, b: u8, next: u8) -> Part
    ensures { result ≡ spec.part_after part b next }
{
    match part {
        Part::Code => part_after_code(b, next),
        Part::Text => if b == b'"' { Part::Code } else { Part::Text },
        Part::Line => if b == b'\n' { Part::Code } else { Part::Line },
        Part::Opening => Part::Comment,
        Part::Comment => if b == b'*' && next == b'/' {
            Part::Closing
        } else {
            Part::Comment
        },
        Part::Closing => Part::Code,
    }
}

fn is_code(part: Part) -> bool
    ensures { result ≡ spec.is_code part }
{
    matches!(part, Part::Code)
}

/// The text of a method's body, from behind its first brace. Strings and comments don't count.
pub fn body(mut z: &[u8]) -> Cut
    requires { length z.now < 2 ^ 62 }
    ensures value { result ≡ spec.body_from 0 Part.Code 1 z.entry.now }
    ensures within { (1 ≤ result.1) × (result.1 ≤ length z.entry.now + 1) }
{
    let mut part = Part::Code;
    let mut depth: usize = 0;
    let mut at: usize = 1;
    while let [b, rest @ ..] = z {
        if !is_ascii(*b) {
            return (Kind::BadBlock, at);
        }
        let counts = is_code(part);
        if counts && *b == b'}' && depth == 0 {
            return (Kind::Block, at + 1);
        }
        if counts && *b == b'{' {
            depth += 1;
        } else if counts && *b == b'}' {
            depth -= 1;
        }
        part = part_after(part, *b, byte(rest, 0));
        at += 1;
        z = rest;
    }
    (Kind::OpenBlock, at)
}

fn is_closing(b: u8) -> bool
    ensures { result ≡ spec.is_closing b }
{
    b == b'}' || b == b')'
}

/// A value in brackets, from behind the first one, which `close` closes. Braces and parentheses pair, outside strings.
pub fn balanced(alloc: Global, mut z: &[u8], close: u8) -> Result<Cut, NoMemory>
    requires { length z.now < 2 ^ 62 }
    ensures value { IfOk result (λ cut. cut ≡ spec.balanced_from (close ∷ []) false 1 z.entry.now) }
    ensures within { IfOk result (λ cut. (1 ≤ cut.1) × (cut.1 ≤ length z.entry.now + 1)) }
{
    let mut due = Vec::new(alloc);
    due.push(close)?;
    let mut quoted = false;
    let mut at: usize = 1;
    while let [b, rest @ ..] = z {
        if !is_ascii(*b) {
            return Ok((Kind::BadBlock, at));
        }
        if !quoted && is_closing(*b) {
            if due[due.len() - 1] != *b {
                return Ok((Kind::TornBlock, at));
            }
            if due.len() == 1 {
                return Ok((Kind::Block, at + 1));
            }
            due.truncate(due.len() - 1);
        } else if !quoted && *b == b'{' {
            due.push(b'}')?;
        } else if !quoted && *b == b'(' {
            due.push(b')')?;
        } else if *b == b'"' {
            quoted = !quoted;
        }
        at += 1;
        z = rest;
    }
    Ok((Kind::OpenBlock, at))
}
