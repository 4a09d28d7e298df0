//! Numbers, strings and values.

ghost use Rattle.std.specs.Prelude.{◌≡◌, ◌≤◌, false, true, length, IfOk, List, ℕ};
ghost use Rattle.text_reading.specs.Parsing.{Reads};
ghost use Rattle.class_reader.specs.ClassGrammar as spec;
ghost use Rattle.class_reader.specs.ClassGrammar.{read};
ghost use Rattle.class_reader.specs.ClassLiterals as said;

use crate::keys::{Rule, bars_block, bars_word, is_only};
use crate::limits::{MAX_CLASS_NAME, barred, full, where_holds};
use crate::names::name_rest;
use class_tokens::{
    ClassStop, ClassWhy, Cursor, Kind, Set, byte, is_block, is_number, is_text, is_word, past,
};
use obj_kinds::{NoMemory, Text};
use std::alloc::Global;

/// How many bytes a text may have.
const MAX_TEXT: usize = 32_767;

/// The digits of a number without leading zeros.
fn significant(digits: &[u8]) -> &[u8]
    ensures { result.now ≡ said.significant digits.now }
{
    let zeros = past(Set::Zeros, digits, 0);
    if zeros < digits.len() {
        &digits[zeros..]
    } else {
        b"0".as_slice()
    }
}

/// What a string says.
#[tactic(auto, unfolding(crate::specs::ClassLiterals::content))]
fn content(alloc: Global, text: &[u8]) -> Result<Text, NoMemory>
    ensures { IfOk result (λ said_text. said_text ≡ said.content text.now) }
{
    let mut said = Text::new(alloc);
    if text.is_empty() {
        return Ok(said);
    }
    let mut second = false;
    let mut z = &text[1..];
    'bytes: while let [b, rest @ ..] = z {
        if second && *b != b'"' {
            return Ok(said);
        }
        if second {
            said.push(b'"')?;
            second = false;
        } else if *b == b'"' {
            second = true;
        } else if *b != 13 {
            said.push(*b)?;
        } else if byte(rest, 0) != b'\n' {
            said.push(b' ')?;
        }
        z = rest;
    }
    Ok(said)
}

/// A number, as the digits that it has without leading zeros.
#[tactic(auto, unfolding(crate::specs::ClassGrammar::number, text_reading::specs::Phrases::parser, text_reading::specs::Phrases::limited, text_reading::specs::Parsing::pick, text_reading::specs::Parsing::either, text_reading::specs::Parsing::sees))]
fn number(alloc: Global, cursor: &mut Cursor<'_>, bars: bool) -> Result<Text, ClassStop>
    ensures { Reads (read spec.number bars cursor.old) result cursor.new }
{
    let can = is_number(cursor.peek());
    let digits = cursor.pick(alloc, can, barred(bars))?;
    Ok(Text::from_slice(alloc, significant(digits))?)
}

/// The limit of a string, where `whole` says that it isn't cut short.
fn string_limit(bars: bool, whole: bool, count: usize) -> Option<ClassWhy>
    ensures { (z : List ℕ) → length (said.content z) ≡ count → result ≡ spec.string_limit bars whole z }
{
    where_holds(bars, ClassWhy::LeftOut, full(whole && count > MAX_TEXT))
}

/// What a string says.
#[tactic(auto, unfolding(crate::specs::ClassGrammar::string, text_reading::specs::Phrases::parser, text_reading::specs::Phrases::limited, text_reading::specs::Parsing::pick, text_reading::specs::Parsing::either, text_reading::specs::Parsing::sees))]
fn string(alloc: Global, cursor: &mut Cursor<'_>, bars: bool) -> Result<Text, ClassStop>
    ensures { Reads (read spec.string bars cursor.old) result cursor.new }
{
    let can = is_text(cursor.peek());
    let said = content(alloc, cursor.spelling())?;
    let limit = string_limit(bars, cursor.sees(Kind::Text), said.len());
    cursor.pick(alloc, can, limit)?;
    Ok(said)
}

#[tactic(auto, unfolding(crate::specs::ClassGrammar::minus, text_reading::specs::Phrases::parser, text_reading::specs::Phrases::limited, text_reading::specs::Parsing::pick, text_reading::specs::Parsing::either, text_reading::specs::Parsing::sees))]
fn minus(alloc: Global, cursor: &mut Cursor<'_>, bars: bool) -> Result<(), ClassStop>
    ensures { Reads (read spec.minus bars cursor.old) result cursor.new }
{
    let can = cursor.sees(Kind::Minus);
    cursor.pick(alloc, can, barred(bars))?;
    Ok(())
}

fn negated(alloc: Global, digits: Text) -> Result<Text, NoMemory>
    ensures { IfOk result (λ text. text ≡ said.negated digits) }
{
    if digits.as_slice() == b"0".as_slice() {
        return Ok(digits);
    }
    let mut text = Text::new(alloc);
    text.push(b'-')?;
    text.push_slice(digits.as_slice())?;
    Ok(text)
}

/// A number behind `-`.
#[tactic(auto, unfolding(crate::specs::ClassGrammar::negative, text_reading::specs::Phrases::parser, text_reading::specs::Phrases::limited, text_reading::specs::Parsing::pick, text_reading::specs::Parsing::either, text_reading::specs::Parsing::sees))]
fn negative(alloc: Global, cursor: &mut Cursor<'_>, bars: bool) -> Result<Text, ClassStop>
    ensures { Reads (read spec.negative bars cursor.old) result cursor.new }
{
    minus(alloc, cursor, bars)?;
    let digits = number(alloc, cursor, false)?;
    Ok(negated(alloc, digits)?)
}

/// A number, with or without `-`, or what a string says. Where it is barred it is left out.
#[tactic(auto, unfolding(crate::specs::ClassGrammar::literal, text_reading::specs::Phrases::parser, text_reading::specs::Phrases::limited, text_reading::specs::Parsing::pick, text_reading::specs::Parsing::either, text_reading::specs::Parsing::sees))]
pub fn literal(alloc: Global, cursor: &mut Cursor<'_>, bars: bool) -> Result<Text, ClassStop>
    ensures { Reads (read spec.literal bars cursor.old) result cursor.new }
{
    let kind = cursor.peek();
    if is_number(kind) {
        number(alloc, cursor, bars)
    } else if is_text(kind) {
        string(alloc, cursor, bars)
    } else {
        negative(alloc, cursor, bars)
    }
}

/// A value in brackets, as written. Where it is barred it is left out.
#[tactic(auto, unfolding(crate::specs::ClassGrammar::block, text_reading::specs::Phrases::parser, text_reading::specs::Phrases::limited, text_reading::specs::Parsing::pick, text_reading::specs::Parsing::either, text_reading::specs::Parsing::sees))]
pub fn block(alloc: Global, cursor: &mut Cursor<'_>, bars: bool) -> Result<Text, ClassStop>
    ensures { Reads (read spec.block bars cursor.old) result cursor.new }
{
    let can = is_block(cursor.peek());
    let text = cursor.pick(alloc, can, barred(bars))?;
    Ok(Text::from_slice(alloc, text)?)
}

fn value_limit(rule: Rule, lone: bool, word: &[u8]) -> Option<ClassWhy>
    ensures { result ≡ spec.value_limit rule lone word.now }
{
    let bars = barred(bars_word(rule, lone, word));
    where_holds(word.len() > MAX_CLASS_NAME, ClassWhy::NameTooLong, bars)
}

#[tactic(auto, unfolding(crate::specs::ClassGrammar::value_word, text_reading::specs::Phrases::parser, text_reading::specs::Phrases::limited, text_reading::specs::Parsing::pick, text_reading::specs::Parsing::either, text_reading::specs::Parsing::sees))]
fn value_word(alloc: Global, cursor: &mut Cursor<'_>, rule: Rule) -> Result<Text, ClassStop>
    ensures { Reads (read spec.value_word rule cursor.old) result cursor.new }
{
    let can = is_word(cursor.peek());
    let limit = value_limit(rule, cursor.sees(Kind::Lone), cursor.spelling());
    let word = cursor.pick(alloc, can, limit)?;
    Ok(Text::from_slice(alloc, word)?)
}

#[tactic(auto, unfolding(crate::specs::ClassGrammar::named_rest, text_reading::specs::Phrases::parser, text_reading::specs::Phrases::limited, text_reading::specs::Parsing::pick, text_reading::specs::Parsing::either, text_reading::specs::Parsing::sees))]
fn named_rest(
    alloc: Global,
    cursor: &mut Cursor<'_>,
    rule: Rule,
    first: Text,
) -> Result<Text, ClassStop>
    ensures { Reads (read spec.named_rest (rule, first) cursor.old) result cursor.new }
{
    let bars = is_only(rule);
    name_rest(alloc, cursor, bars, first)
}

#[tactic(auto, unfolding(crate::specs::ClassGrammar::named_value, text_reading::specs::Phrases::parser, text_reading::specs::Phrases::limited, text_reading::specs::Parsing::pick, text_reading::specs::Parsing::either, text_reading::specs::Parsing::sees))]
fn named_value(alloc: Global, cursor: &mut Cursor<'_>, rule: Rule) -> Result<Text, ClassStop>
    ensures { Reads (read spec.named_value rule cursor.old) result cursor.new }
{
    let first = value_word(alloc, cursor, rule)?;
    named_rest(alloc, cursor, rule, first)
}

/// The value of a keyword, under its rule.
#[tactic(auto, unfolding(crate::specs::ClassGrammar::value, text_reading::specs::Phrases::parser, text_reading::specs::Phrases::limited, text_reading::specs::Parsing::pick, text_reading::specs::Parsing::either, text_reading::specs::Parsing::sees))]
pub fn value(alloc: Global, cursor: &mut Cursor<'_>, rule: Rule) -> Result<Text, ClassStop>
    ensures { Reads (read spec.value rule cursor.old) result cursor.new }
{
    let kind = cursor.peek();
    if is_word(kind) {
        named_value(alloc, cursor, rule)
    } else if is_block(kind) {
        block(alloc, cursor, bars_block(rule))
    } else {
        literal(alloc, cursor, is_only(rule))
    }
}

/// The value of a keyword, if there is one.
#[tactic(auto, unfolding(crate::specs::ClassGrammar::given_value, text_reading::specs::Phrases::parser, text_reading::specs::Phrases::limited, text_reading::specs::Parsing::pick, text_reading::specs::Parsing::either, text_reading::specs::Parsing::sees))]
pub fn given_value(
    alloc: Global,
    cursor: &mut Cursor<'_>,
    rule: Rule,
) -> Result<Option<Text>, ClassStop>
    ensures { Reads (read spec.given_value rule cursor.old) result cursor.new }
{
    if !cursor.sees(Kind::Equals) {
        return Ok(None);
    }
    cursor.mark(alloc, Kind::Equals)?;
    Ok(Some(value(alloc, cursor, rule)?))
}
