//! Numbers, strings, and the words of special variables, functions, signs and operators.

ghost use Rattle.std.specs.Prelude.{◌≡◌, IfOk};
ghost use Rattle.text_reading.specs.Parsing.{Reads};
ghost use Rattle.os_expressions.specs.Literals as said;
ghost use Rattle.os_expressions.specs.Trees as tree;
ghost use Rattle.os_expressions.specs.ScriptGrammar as spec;
ghost use Rattle.os_expressions.specs.ScriptGrammar.{read};

use crate::limits::{barred, string_limit};
use obj_kinds::{NoMemory, Text};
use os_kinds::{Expression, Function, Operator, Sign, Special};
use script_tokens::{
    Cursor, Kind, ScriptStop, Set, byte, is_function, is_looking, is_number, is_operator,
    is_special, is_text, past,
};
use std::alloc::Global;

/// The digits of a number without leading zeros.
fn significant(digits: &[u8]) -> &[u8]
    ensures { result.now ≡ said.significant digits.now }
{
    let zeros = past(Set::Zeros, digits, 0);
    if zeros < digits.len() {
        &digits[zeros..]
    } else {
        b"0".as_slice()
    }
}

/// What a string says.
#[tactic(auto, unfolding(crate::specs::Literals::content))]
fn content(alloc: Global, text: &[u8]) -> Result<Text, NoMemory>
    ensures { IfOk result (λ said_text. said_text ≡ said.content text.now) }
{
    let mut said = Text::new(alloc);
    if text.is_empty() {
        return Ok(said);
    }
    let mut second = false;
    let mut z = &text[1..];
    'bytes: while let [b, rest @ ..] = z {
        if second && *b != b'"' {
            return Ok(said);
        }
        if second {
            said.push(b'"')?;
            second = false;
        } else if *b == b'"' {
            second = true;
        } else if *b != 13 {
            said.push(*b)?;
        } else if byte(rest, 0) != b'\n' {
            said.push(b' ')?;
        }
        z = rest;
    }
    Ok(said)
}

/// A number.
#[tactic(auto, unfolding(crate::specs::ScriptGrammar::number, text_reading::specs::Phrases::parser, text_reading::specs::Phrases::limited, text_reading::specs::Parsing::pick, text_reading::specs::Parsing::either, text_reading::specs::Parsing::sees))]
pub fn number(alloc: Global, cursor: &mut Cursor<'_>, bars: bool) -> Result<Expression, ScriptStop>
    ensures { Reads (read spec.number bars cursor.old) result cursor.new }
{
    let can = is_number(cursor.peek());
    let digits = cursor.pick(alloc, can, barred(bars))?;
    Ok(Expression::Literal(Text::from_slice(alloc, significant(digits))?))
}

/// A string.
#[tactic(auto, unfolding(crate::specs::ScriptGrammar::string, text_reading::specs::Phrases::parser, text_reading::specs::Phrases::limited, text_reading::specs::Parsing::pick, text_reading::specs::Parsing::either, text_reading::specs::Parsing::sees))]
pub fn string(alloc: Global, cursor: &mut Cursor<'_>, bars: bool) -> Result<Expression, ScriptStop>
    ensures { Reads (read spec.string bars cursor.old) result cursor.new }
{
    let can = is_text(cursor.peek());
    let said = content(alloc, cursor.spelling())?;
    let limit = string_limit(bars, cursor.sees(Kind::Text), said.len());
    cursor.pick(alloc, can, limit)?;
    Ok(Expression::Literal(said))
}

fn special_of(kind: Kind) -> Expression
    ensures { result ≡ tree.special_of kind }
{
    match kind {
        Kind::Test => Expression::Special(Special::Test),
        Kind::Level => Expression::Special(Special::Level),
        Kind::LastError => Expression::Special(Special::LastError),
        _ => Expression::This,
    }
}

/// A special variable, or `$THIS`.
#[tactic(auto, unfolding(crate::specs::ScriptGrammar::special, text_reading::specs::Phrases::parser, text_reading::specs::Phrases::limited, text_reading::specs::Parsing::pick, text_reading::specs::Parsing::either, text_reading::specs::Parsing::sees))]
pub fn special(alloc: Global, cursor: &mut Cursor<'_>, bars: bool) -> Result<Expression, ScriptStop>
    ensures { Reads (read spec.special bars cursor.old) result cursor.new }
{
    let kind = cursor.peek();
    cursor.pick(alloc, is_special(kind), barred(bars))?;
    Ok(special_of(kind))
}

fn function_of(kind: Kind) -> Function
    ensures { result ≡ tree.function_of kind }
{
    match kind {
        Kind::Length => Function::Length,
        Kind::Extract => Function::Extract,
        Kind::Piece => Function::Piece,
        Kind::Find => Function::Find,
        Kind::Ascii => Function::Ascii,
        Kind::Char => Function::Char,
        Kind::ListBuild => Function::ListBuild,
        Kind::List => Function::List,
        _ => Function::ListLength,
    }
}

/// The word of a function of values.
#[tactic(auto, unfolding(crate::specs::ScriptGrammar::function_word, text_reading::specs::Phrases::parser, text_reading::specs::Phrases::limited, text_reading::specs::Parsing::pick, text_reading::specs::Parsing::either, text_reading::specs::Parsing::sees))]
pub fn function_word(
    alloc: Global,
    cursor: &mut Cursor<'_>,
    bars: bool,
) -> Result<Function, ScriptStop>
    ensures { Reads (read spec.function_word bars cursor.old) result cursor.new }
{
    let kind = cursor.peek();
    cursor.pick(alloc, is_function(kind), barred(bars))?;
    Ok(function_of(kind))
}

/// The word of a function that looks at a variable or a global.
#[tactic(auto, unfolding(crate::specs::ScriptGrammar::looking_word, text_reading::specs::Phrases::parser, text_reading::specs::Phrases::limited, text_reading::specs::Parsing::pick, text_reading::specs::Parsing::either, text_reading::specs::Parsing::sees))]
pub fn looking_word(alloc: Global, cursor: &mut Cursor<'_>, bars: bool) -> Result<Kind, ScriptStop>
    ensures { Reads (read spec.looking_word bars cursor.old) result cursor.new }
{
    let kind = cursor.peek();
    cursor.pick(alloc, is_looking(kind), barred(bars))?;
    Ok(kind)
}

pub fn sign_of(kind: Kind) -> Sign
    ensures { result ≡ tree.sign_of kind }
{
    match kind {
        Kind::Plus => Sign::Plus,
        Kind::Minus => Sign::Minus,
        _ => Sign::Not,
    }
}

fn operator_of(kind: Kind) -> Operator
    ensures { result ≡ tree.operator_of kind }
{
    match kind {
        Kind::Add => Operator::Add,
        Kind::Subtract => Operator::Subtract,
        Kind::Multiply => Operator::Multiply,
        Kind::Quotient => Operator::Quotient,
        Kind::Modulo => Operator::Modulo,
        Kind::Join => Operator::Join,
        Kind::Less => Operator::Less,
        Kind::Greater => Operator::Greater,
        Kind::AtMost => Operator::AtMost,
        Kind::AtLeast => Operator::AtLeast,
        Kind::Contains => Operator::Contains,
        Kind::Follows => Operator::Follows,
        Kind::And => Operator::And,
        Kind::Or => Operator::Or,
        Kind::NotEqual => Operator::NotEqual,
        Kind::NotLess => Operator::NotLess,
        Kind::NotGreater => Operator::NotGreater,
        Kind::NotContains => Operator::NotContains,
        Kind::NotFollows => Operator::NotFollows,
        Kind::AndThen => Operator::AndThen,
        Kind::OrElse => Operator::OrElse,
        _ => Operator::Equal,
    }
}

/// A binary operator.
#[tactic(auto, unfolding(crate::specs::ScriptGrammar::operator, text_reading::specs::Phrases::parser, text_reading::specs::Phrases::limited, text_reading::specs::Parsing::pick, text_reading::specs::Parsing::either, text_reading::specs::Parsing::sees))]
pub fn operator(alloc: Global, cursor: &mut Cursor<'_>) -> Result<Operator, ScriptStop>
    ensures { Reads (read spec.operator tt cursor.old) result cursor.new }
{
    let kind = cursor.peek();
    cursor.pick(alloc, is_operator(kind), None)?;
    Ok(operator_of(kind))
}
