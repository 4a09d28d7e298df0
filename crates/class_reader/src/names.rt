//! Names, words and names of classes.

ghost use Rattle.std.specs.Prelude.{◌≡◌, ◌≤◌, length, IfOk, false};
ghost use Rattle.text_reading.specs.Parsing.{Reads};
ghost use Rattle.class_reader.specs.ClassGrammar as spec;
ghost use Rattle.class_reader.specs.ClassGrammar.{read};
ghost use Rattle.class_reader.specs.ClassNames as named;

use crate::limits::{MAX_CLASS_NAME, MAX_NAME, barred, longer, where_holds};
use class_tokens::{ClassStop, ClassWhy, Cursor, Kind, byte, is_name, is_own_word, is_word};
use obj_kinds::{ClassName, NoMemory, Text};
use std::alloc::Global;

/// A name.
#[tactic(auto, unfolding(crate::specs::ClassGrammar::name, text_reading::specs::Phrases::parser, text_reading::specs::Phrases::limited, text_reading::specs::Parsing::pick, text_reading::specs::Parsing::either, text_reading::specs::Parsing::sees))]
pub fn name(alloc: Global, cursor: &mut Cursor<'_>) -> Result<Text, ClassStop>
    ensures { Reads (read spec.name tt cursor.old) result cursor.new }
{
    let can = is_name(cursor.peek());
    let limit = longer(MAX_NAME, cursor.spelling());
    let name = cursor.pick(alloc, can, limit)?;
    Ok(Text::from_slice(alloc, name)?)
}

/// The limit of a name, where `taken` says whether it names a member already.
pub fn fresh_limit(taken: bool, name: &[u8]) -> Option<ClassWhy>
    ensures { result ≡ spec.fresh_limit taken name.now }
{
    let repeated = where_holds(taken, ClassWhy::RepeatedMember, None);
    where_holds(name.len() > MAX_NAME, ClassWhy::NameTooLong, repeated)
}

/// The first word of a class's name.
#[tactic(auto, unfolding(crate::specs::ClassGrammar::class_word, text_reading::specs::Phrases::parser, text_reading::specs::Phrases::limited, text_reading::specs::Parsing::pick, text_reading::specs::Parsing::either, text_reading::specs::Parsing::sees))]
fn class_word(alloc: Global, cursor: &mut Cursor<'_>) -> Result<Text, ClassStop>
    ensures { Reads (read spec.class_word tt cursor.old) result cursor.new }
{
    let can = is_word(cursor.peek());
    let limit = longer(MAX_CLASS_NAME, cursor.spelling());
    let word = cursor.pick(alloc, can, limit)?;
    Ok(Text::from_slice(alloc, word)?)
}

fn dot_limit(bars: bool, found: usize) -> Option<ClassWhy>
    ensures { result ≡ spec.dot_limit bars found }
{
    where_holds(
        found > MAX_CLASS_NAME - 2,
        ClassWhy::NameTooLong,
        barred(bars),
    )
}

/// A dot of a class's name, of which these bytes were found; where dots are barred it is left out.
#[tactic(auto, unfolding(crate::specs::ClassGrammar::name_dot, text_reading::specs::Phrases::parser, text_reading::specs::Phrases::limited, text_reading::specs::Parsing::pick, text_reading::specs::Parsing::either, text_reading::specs::Parsing::sees))]
fn name_dot(
    alloc: Global,
    cursor: &mut Cursor<'_>,
    bars: bool,
    found: &Text,
) -> Result<(), ClassStop>
    ensures { Reads (read spec.name_dot (bars, found.now) cursor.old) result cursor.new }
{
    let can = cursor.sees(Kind::Dot);
    cursor.pick(alloc, can, dot_limit(bars, found.len()))?;
    Ok(())
}

fn further_limit(found: usize, word: &[u8]) -> Option<ClassWhy>
    ensures { result ≡ spec.further_limit found word.now }
{
    let long = found >= MAX_CLASS_NAME || word.len() >= MAX_CLASS_NAME - found;
    where_holds(long, ClassWhy::NameTooLong, None)
}

/// A further word of a class's name, of which these bytes were found.
#[tactic(auto, unfolding(crate::specs::ClassGrammar::further_word, text_reading::specs::Phrases::parser, text_reading::specs::Phrases::limited, text_reading::specs::Parsing::pick, text_reading::specs::Parsing::either, text_reading::specs::Parsing::sees))]
fn further_word(alloc: Global, cursor: &mut Cursor<'_>, found: &Text) -> Result<Text, ClassStop>
    ensures { Reads (read spec.further_word found.now cursor.old) result cursor.new }
{
    let can = is_word(cursor.peek());
    let limit = further_limit(found.len(), cursor.spelling());
    let word = cursor.pick(alloc, can, limit)?;
    Ok(Text::from_slice(alloc, word)?)
}

/// A dot and one more word, behind these bytes of a class's name.
#[tactic(auto, unfolding(crate::specs::ClassGrammar::dotted, text_reading::specs::Phrases::parser, text_reading::specs::Phrases::limited, text_reading::specs::Parsing::pick, text_reading::specs::Parsing::either, text_reading::specs::Parsing::sees))]
fn dotted(
    alloc: Global,
    cursor: &mut Cursor<'_>,
    bars: bool,
    mut found: Text,
) -> Result<Text, ClassStop>
    ensures { Reads (read spec.dotted (bars, found) cursor.old) result cursor.new }
{
    name_dot(alloc, cursor, bars, &found)?;
    let word = further_word(alloc, cursor, &found)?;
    found.push(b'.')?;
    found.push_slice(word.as_slice())?;
    Ok(found)
}

/// What comes behind these bytes of a class's name; where dots are barred, one is left out.
pub fn name_rest(
    alloc: Global,
    cursor: &mut Cursor<'_>,
    bars: bool,
    mut found: Text,
) -> Result<Text, ClassStop>
    ensures { Reads (read spec.name_rest (bars, found) cursor.old) result cursor.new }
{
    'turns: while cursor.sees(Kind::Dot) {
        match dotted(alloc, cursor, bars, found) {
            Ok(more) => found = more,
            Err(stop) => return Err(stop),
        }
    }
    Ok(found)
}

/// A class's name as it is written.
#[tactic(auto, unfolding(crate::specs::ClassGrammar::class_name, text_reading::specs::Phrases::parser, text_reading::specs::Phrases::limited, text_reading::specs::Parsing::pick, text_reading::specs::Parsing::either, text_reading::specs::Parsing::sees))]
pub fn class_name(alloc: Global, cursor: &mut Cursor<'_>) -> Result<Text, ClassStop>
    ensures { Reads (read spec.class_name tt cursor.old) result cursor.new }
{
    let first = class_word(alloc, cursor)?;
    name_rest(alloc, cursor, false, first)
}

fn own_limit(bare: bool, word: &[u8]) -> Option<ClassWhy>
    ensures { result ≡ spec.own_limit bare word.now }
{
    let most = if bare {
        MAX_CLASS_NAME
    } else {
        MAX_CLASS_NAME - 2
    };
    let lacks = where_holds(bare, ClassWhy::NoPackage, None);
    where_holds(word.len() > most, ClassWhy::NameTooLong, lacks)
}

#[tactic(auto, unfolding(crate::specs::ClassGrammar::own_word, text_reading::specs::Phrases::parser, text_reading::specs::Phrases::limited, text_reading::specs::Parsing::pick, text_reading::specs::Parsing::either, text_reading::specs::Parsing::sees))]
fn own_word(alloc: Global, cursor: &mut Cursor<'_>) -> Result<Text, ClassStop>
    ensures { Reads (read spec.own_word tt cursor.old) result cursor.new }
{
    let can = is_own_word(cursor.peek());
    let limit = own_limit(cursor.sees(Kind::Bare), cursor.spelling());
    let word = cursor.pick(alloc, can, limit)?;
    Ok(Text::from_slice(alloc, word)?)
}

/// A class's own name, which has a dot.
#[tactic(auto, unfolding(crate::specs::ClassGrammar::own_name, text_reading::specs::Phrases::parser, text_reading::specs::Phrases::limited, text_reading::specs::Parsing::pick, text_reading::specs::Parsing::either, text_reading::specs::Parsing::sees))]
pub fn own_name(alloc: Global, cursor: &mut Cursor<'_>) -> Result<Text, ClassStop>
    ensures { Reads (read spec.own_name tt cursor.old) result cursor.new }
{
    let first = own_word(alloc, cursor)?;
    let named = dotted(alloc, cursor, false, first)?;
    name_rest(alloc, cursor, false, named)
}

/// How many bytes of a class's name stand before its last dot.
fn last_dot(name: &[u8]) -> usize
    ensures value { result ≡ named.last_dot (length name.now) name.now }
    ensures within { result ≤ length name.now }
{
    let mut n = name.len();
    while n > 0 {
        n -= 1;
        if name[n] == b'.' {
            return n;
        }
    }
    0
}

/// The package of a class: what stands before the last dot of its name.
pub fn package_of(name: &[u8]) -> &[u8]
    ensures { result.now ≡ named.package_of name.now }
{
    &name[..last_dot(name)]
}

fn has_dot(name: &[u8]) -> bool
    ensures { result ≡ named.has_dot name.now }
{
    name.iter().any(|b| *b == b'.')
}

fn is_library(name: &[u8]) -> bool
    ensures { result ≡ named.is_library name.now }
{
    name.len() >= 9 && &name[..9] == b"%Library.".as_slice()
}

/// The whole name of the class that is written so in a class of the package `home`.
#[tactic(auto, unfolding(crate::specs::ClassNames::whole_name))]
pub fn whole_name(alloc: Global, home: &[u8], name: Text) -> Result<ClassName, NoMemory>
    ensures { IfOk result (λ whole. whole.0 ≡ named.whole_name home.now name) }
{
    let written = name.as_slice();
    if is_library(written) {
        let mut whole = Text::new(alloc);
        whole.push(b'%')?;
        whole.push_slice(&written[9..])?;
        return Ok(ClassName(whole));
    }
    if has_dot(written) || byte(written, 0) == b'%' {
        return Ok(ClassName(name));
    }
    let mut whole = Text::from_slice(alloc, home)?;
    whole.push(b'.')?;
    whole.push_slice(written)?;
    Ok(ClassName(whole))
}
