//! Groups of kinds.

ghost use Rattle.std.specs.Prelude.{◌≡◌};
ghost use Rattle.script_tokens.specs.ScriptKinds as spec;

use crate::token::Kind;

/// Whether it names a member, behind a dot.
pub fn is_member(kind: Kind) -> bool
    ensures { result ≡ spec.is_member kind }
{
    matches!(kind, Kind::Name | Kind::Percent)
}

/// Whether it is a number.
pub fn is_number(kind: Kind) -> bool
    ensures { result ≡ spec.is_number kind }
{
    matches!(kind, Kind::Digits | Kind::One | Kind::LongDigits)
}

/// Whether it is a string.
pub fn is_text(kind: Kind) -> bool
    ensures { result ≡ spec.is_text kind }
{
    matches!(
        kind,
        Kind::Text | Kind::Shared | Kind::OpenText | Kind::BadText
    )
}

/// Whether it is a sign.
pub fn is_sign(kind: Kind) -> bool
    ensures { result ≡ spec.is_sign kind }
{
    matches!(kind, Kind::Plus | Kind::Minus | Kind::Not)
}

/// Whether it is a binary operator.
pub fn is_operator(kind: Kind) -> bool
    ensures { result ≡ spec.is_operator kind }
{
    matches!(
        kind,
        Kind::Equals
            | Kind::Add
            | Kind::Subtract
            | Kind::Multiply
            | Kind::Quotient
            | Kind::Modulo
            | Kind::Join
            | Kind::Less
            | Kind::Greater
            | Kind::AtMost
            | Kind::AtLeast
            | Kind::Contains
            | Kind::Follows
            | Kind::And
            | Kind::Or
            | Kind::NotEqual
            | Kind::NotLess
            | Kind::NotGreater
            | Kind::NotContains
            | Kind::NotFollows
            | Kind::AndThen
            | Kind::OrElse
    )
}

/// Whether it is a special variable.
pub fn is_special(kind: Kind) -> bool
    ensures { result ≡ spec.is_special kind }
{
    matches!(
        kind,
        Kind::LastError | Kind::Test | Kind::Level | Kind::This
    )
}

/// Whether it is a function that looks at a variable or a global, and may have a second argument.
pub fn is_looking(kind: Kind) -> bool
    ensures { result ≡ spec.is_looking kind }
{
    matches!(kind, Kind::Get | Kind::Data | Kind::Increment)
}

/// Whether it is a function of values.
pub fn is_function(kind: Kind) -> bool
    ensures { result ≡ spec.is_function kind }
{
    matches!(
        kind,
        Kind::Length
            | Kind::Extract
            | Kind::Piece
            | Kind::Find
            | Kind::Ascii
            | Kind::Char
            | Kind::ListBuild
            | Kind::List
            | Kind::ListLength
            | Kind::UnknownFunction
    )
}

fn begins_named(kind: Kind) -> bool
    ensures { result ≡ spec.begins_named kind }
{
    matches!(
        kind,
        Kind::Open | Kind::Name | Kind::Caret | Kind::Order | Kind::ClassOpen | Kind::Own
    )
}

/// Whether it is a literal, a special variable or a function.
pub fn is_spelled(kind: Kind) -> bool
    ensures { result ≡ spec.is_spelled kind }
{
    is_number(kind) || is_text(kind) || is_special(kind) || is_looking(kind) || is_function(kind)
}

/// Whether an operand may begin with it.
pub fn begins_operand(kind: Kind) -> bool
    ensures { result ≡ spec.begins_operand kind }
{
    is_sign(kind) || begins_named(kind) || is_spelled(kind)
}

/// Whether it is a word where a command may stand.
pub fn is_command(kind: Kind) -> bool
    ensures { result ≡ spec.is_command kind }
{
    matches!(
        kind,
        Kind::Set
            | Kind::Write
            | Kind::Do
            | Kind::Quit
            | Kind::Kill
            | Kind::Lock
            | Kind::TStart
            | Kind::TCommit
            | Kind::TRollback
            | Kind::Halt
            | Kind::If
            | Kind::For
            | Kind::While
            | Kind::UnknownCommand
    )
}
