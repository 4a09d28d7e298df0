//! What the tokens before tell of the next one.

ghost use Rattle.std.specs.Prelude.{◌≡◌};
ghost use Rattle.script_tokens.specs.ScriptModes as spec;

use crate::groups::is_spelled;
use crate::token::Kind;

/// Where the next token stands.
#[derive(Clone, Copy, Debug, PartialEq, Eq)]
pub enum At {
    /// Where a command may stand, and no operand.
    Command,
    /// Directly behind a command's word.
    Word,
    /// Where an operand may stand.
    Operand,
    /// Behind an operand.
    Behind,
    /// Behind a dot.
    Member,
    /// Behind `^`.
    Global,
    /// Behind `##class(`.
    Class,
    /// Behind the name of a class.
    ClassEnd,
}

/// Whether the last command takes arguments.
#[derive(Clone, Copy, Debug, PartialEq, Eq)]
pub enum Takes {
    Needed,
    Possible,
    Nothing,
}

/// What the tokens before tell of the next one. In a postcondition `post` says how many parentheses are open there.
#[derive(Clone, Copy, Debug, PartialEq, Eq)]
pub struct Mode {
    pub at: At,
    pub takes: Takes,
    pub post: Option<u8>,
}

/// Whether a blank here ends a postcondition, where it is in one.
fn is_open(post: Option<u8>) -> bool
    ensures { result ≡ spec.is_open post }
{
    match post {
        Some(open) => open == 0,
        None => false,
    }
}

fn is_behind(at: At) -> bool
    ensures { result ≡ spec.is_behind at }
{
    matches!(at, At::Behind)
}

pub fn is_word(at: At) -> bool
    ensures { result ≡ spec.is_word at }
{
    matches!(at, At::Word)
}

pub fn is_possible(takes: Takes) -> bool
    ensures { result ≡ spec.is_possible takes }
{
    matches!(takes, Takes::Possible)
}

/// Whether an argument of the command begins behind a blank.
pub fn begins_argument(mode: Mode) -> bool
    ensures { result ≡ spec.begins_argument mode }
{
    is_word(mode.at) || (is_open(mode.post) && is_behind(mode.at))
}

fn at_argument(takes: Takes) -> At
    ensures { result ≡ spec.at_argument takes }
{
    match takes {
        Takes::Nothing => At::Command,
        _ => At::Operand,
    }
}

/// Where a command may stand, and no operand.
fn at_command(mode: Mode) -> Mode
    ensures { result ≡ spec.at_command mode }
{
    Mode {
        at: At::Command,
        takes: mode.takes,
        post: None,
    }
}

/// The mode behind a blank. In a postcondition that isn't whole nothing can follow one.
fn after_blank(mode: Mode) -> Mode
    ensures { result ≡ spec.after_blank mode }
{
    if begins_argument(mode) {
        return Mode {
            at: at_argument(mode.takes),
            takes: mode.takes,
            post: None,
        };
    }
    if is_open(mode.post) {
        return at_command(mode);
    }
    mode
}

fn ends_named(kind: Kind) -> bool
    ensures { result ≡ spec.ends_named kind }
{
    matches!(
        kind,
        Kind::Name | Kind::Percent | Kind::GlobalName | Kind::Close | Kind::Line | Kind::Order
    )
}

/// Whether an operand may end with it, or the name of a function.
fn ends_operand(kind: Kind) -> bool
    ensures { result ≡ spec.ends_operand kind }
{
    ends_named(kind) || is_spelled(kind)
}

/// Where the next token stands, behind one that ends no operand.
fn at_mark(kind: Kind) -> At
    ensures { result ≡ spec.at_mark kind }
{
    match kind {
        Kind::Set
        | Kind::Write
        | Kind::Do
        | Kind::Quit
        | Kind::Kill
        | Kind::Lock
        | Kind::TStart
        | Kind::TCommit
        | Kind::TRollback
        | Kind::Halt
        | Kind::If
        | Kind::ElseIf
        | Kind::Else
        | Kind::For
        | Kind::While => At::Word,
        Kind::Newline | Kind::LBrace | Kind::RBrace => At::Command,
        Kind::Dot | Kind::Own | Kind::ClassClose => At::Member,
        Kind::Caret => At::Global,
        Kind::ClassOpen => At::Class,
        Kind::ClassName => At::ClassEnd,
        _ => At::Operand,
    }
}

fn at_after(kind: Kind) -> At
    ensures { result ≡ spec.at_after kind }
{
    if ends_operand(kind) {
        At::Behind
    } else {
        at_mark(kind)
    }
}

fn takes_after(takes: Takes, kind: Kind) -> Takes
    ensures { result ≡ spec.takes_after takes kind }
{
    match kind {
        Kind::Set | Kind::Write | Kind::Do | Kind::If | Kind::ElseIf | Kind::While => Takes::Needed,
        Kind::Quit | Kind::Kill | Kind::Lock | Kind::TRollback | Kind::For => Takes::Possible,
        Kind::TStart | Kind::TCommit | Kind::Halt | Kind::Else => Takes::Nothing,
        _ => takes,
    }
}

/// One more parenthesis; more than 255 are never told apart, since 64 may be open.
fn opened(post: Option<u8>) -> Option<u8>
    ensures { result ≡ spec.opened post }
{
    match post {
        Some(open) => Some(if open < 255 { open + 1 } else { open }),
        None => None,
    }
}

fn closed(post: Option<u8>) -> Option<u8>
    ensures { result ≡ spec.closed post }
{
    match post {
        Some(open) => Some(if open > 0 { open - 1 } else { open }),
        None => None,
    }
}

fn post_after(post: Option<u8>, at: At, kind: Kind) -> Option<u8>
    ensures { result ≡ spec.post_after post at kind }
{
    match kind {
        Kind::Colon => if is_word(at) { Some(0) } else { post },
        Kind::Open | Kind::OpenArgs | Kind::ClassOpen => opened(post),
        Kind::Close | Kind::ClassClose => closed(post),
        Kind::Newline | Kind::LBrace | Kind::RBrace => None,
        _ => post,
    }
}

fn is_gap(kind: Kind) -> bool
    ensures { result ≡ spec.is_gap kind }
{
    matches!(kind, Kind::Blank)
}

fn is_lacking(kind: Kind) -> bool
    ensures { result ≡ spec.is_lacking kind }
{
    matches!(kind, Kind::Lacking)
}

fn after_token(mode: Mode, kind: Kind) -> Mode
    ensures { result ≡ spec.after_token mode kind }
{
    Mode {
        at: at_after(kind),
        takes: takes_after(mode.takes, kind),
        post: post_after(mode.post, mode.at, kind),
    }
}

/// The mode behind a token of this kind.
#[tactic(auto, unfolding(crate::specs::ScriptModes::after))]
pub fn after(mode: Mode, kind: Kind) -> Mode
    ensures { result ≡ spec.after mode kind }
{
    if is_gap(kind) {
        after_blank(mode)
    } else if is_lacking(kind) {
        at_command(mode)
    } else {
        after_token(mode, kind)
    }
}
