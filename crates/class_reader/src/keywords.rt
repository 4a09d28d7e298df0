//! Keywords in brackets.

ghost use Rattle.std.specs.Prelude.{◌≡◌, false};
ghost use Rattle.text_reading.specs.Parsing.{Reads};
ghost use Rattle.class_reader.specs.ClassGrammar as spec;
ghost use Rattle.class_reader.specs.ClassGrammar.{read};

use crate::keys::{Given, Section, is_left_out, noted, nothing_given, rule_of};
use crate::limits::{MAX_NAME, barred, where_holds};
use crate::values::given_value;
use class_tokens::{ClassStop, ClassWhy, Cursor, Kind, is_word};
use obj_kinds::Text;
use std::alloc::Global;

/// A keyword's word, and whether `Not` stands before it.
#[derive(Debug, Drop)]
pub struct Key {
    pub negated: bool,
    pub word: Text,
}

fn key_limit(section: Section, word: &[u8]) -> Option<ClassWhy>
    ensures { result ≡ spec.key_limit section word.now }
{
    let bars = barred(is_left_out(rule_of(section, word)));
    where_holds(word.len() > MAX_NAME, ClassWhy::NameTooLong, bars)
}

#[tactic(auto, unfolding(crate::specs::ClassGrammar::key_word, text_reading::specs::Phrases::parser, text_reading::specs::Phrases::limited, text_reading::specs::Parsing::pick, text_reading::specs::Parsing::either, text_reading::specs::Parsing::sees))]
fn key_word(alloc: Global, cursor: &mut Cursor<'_>, section: Section) -> Result<Text, ClassStop>
    ensures { Reads (read spec.key_word section cursor.old) result cursor.new }
{
    let can = is_word(cursor.peek());
    let limit = key_limit(section, cursor.spelling());
    let word = cursor.pick(alloc, can, limit)?;
    Ok(Text::from_slice(alloc, word)?)
}

#[tactic(auto, unfolding(crate::specs::ClassGrammar::not_word, text_reading::specs::Phrases::parser, text_reading::specs::Phrases::limited, text_reading::specs::Parsing::pick, text_reading::specs::Parsing::either, text_reading::specs::Parsing::sees))]
fn not_word(alloc: Global, cursor: &mut Cursor<'_>) -> Result<Text, ClassStop>
    ensures { Reads (read spec.not_word tt cursor.old) result cursor.new }
{
    let can = cursor.sees(Kind::Not);
    let word = cursor.pick(alloc, can, None)?;
    Ok(Text::from_slice(alloc, word)?)
}

/// `Not` and a word, or the word `Not` itself.
#[tactic(auto, unfolding(crate::specs::ClassGrammar::negated_key, text_reading::specs::Phrases::parser, text_reading::specs::Phrases::limited, text_reading::specs::Parsing::pick, text_reading::specs::Parsing::either, text_reading::specs::Parsing::sees))]
fn negated_key(alloc: Global, cursor: &mut Cursor<'_>, section: Section) -> Result<Key, ClassStop>
    ensures { Reads (read spec.negated_key section cursor.old) result cursor.new }
{
    let not = not_word(alloc, cursor)?;
    if is_word(cursor.peek()) {
        let word = key_word(alloc, cursor, section)?;
        Ok(Key {
            negated: true,
            word,
        })
    } else {
        Ok(Key {
            negated: false,
            word: not,
        })
    }
}

#[tactic(auto, unfolding(crate::specs::ClassGrammar::one_key, text_reading::specs::Phrases::parser, text_reading::specs::Phrases::limited, text_reading::specs::Parsing::pick, text_reading::specs::Parsing::either, text_reading::specs::Parsing::sees))]
fn one_key(alloc: Global, cursor: &mut Cursor<'_>, section: Section) -> Result<Key, ClassStop>
    ensures { Reads (read spec.one_key section cursor.old) result cursor.new }
{
    if cursor.sees(Kind::Not) {
        return negated_key(alloc, cursor, section);
    }
    let word = key_word(alloc, cursor, section)?;
    Ok(Key {
        negated: false,
        word,
    })
}

/// A keyword, behind those that were given.
#[tactic(auto, unfolding(crate::specs::ClassGrammar::keyword, text_reading::specs::Phrases::parser, text_reading::specs::Phrases::limited, text_reading::specs::Parsing::pick, text_reading::specs::Parsing::either, text_reading::specs::Parsing::sees))]
fn keyword(
    alloc: Global,
    cursor: &mut Cursor<'_>,
    section: Section,
    given: Given,
) -> Result<Given, ClassStop>
    ensures { Reads (read spec.keyword (section, given) cursor.old) result cursor.new }
{
    let key = one_key(alloc, cursor, section)?;
    let value = given_value(alloc, cursor, rule_of(section, key.word.as_slice()))?;
    Ok(noted(
        alloc,
        section,
        key.negated,
        key.word.as_slice(),
        value,
        given,
    ))
}

#[tactic(auto, unfolding(crate::specs::ClassGrammar::key_comma, text_reading::specs::Phrases::parser, text_reading::specs::Phrases::limited, text_reading::specs::Parsing::pick, text_reading::specs::Parsing::either, text_reading::specs::Parsing::sees))]
fn key_comma(alloc: Global, cursor: &mut Cursor<'_>, given: &Given) -> Result<(), ClassStop>
    ensures { Reads (read spec.key_comma given.now cursor.old) result cursor.new }
{
    let can = cursor.sees(Kind::Comma);
    cursor.pick(alloc, can, barred(given.lacks))?;
    Ok(())
}

#[tactic(auto, unfolding(crate::specs::ClassGrammar::key_close, text_reading::specs::Phrases::parser, text_reading::specs::Phrases::limited, text_reading::specs::Parsing::pick, text_reading::specs::Parsing::either, text_reading::specs::Parsing::sees))]
fn key_close(alloc: Global, cursor: &mut Cursor<'_>, given: &Given) -> Result<(), ClassStop>
    ensures { Reads (read spec.key_close given.now cursor.old) result cursor.new }
{
    let can = cursor.sees(Kind::RBracket);
    cursor.pick(alloc, can, barred(given.lacks))?;
    Ok(())
}

#[tactic(auto, unfolding(crate::specs::ClassGrammar::further_key, text_reading::specs::Phrases::parser, text_reading::specs::Phrases::limited, text_reading::specs::Parsing::pick, text_reading::specs::Parsing::either, text_reading::specs::Parsing::sees))]
fn further_key(
    alloc: Global,
    cursor: &mut Cursor<'_>,
    section: Section,
    given: Given,
) -> Result<Given, ClassStop>
    ensures { Reads (read spec.further_key (section, given) cursor.old) result cursor.new }
{
    key_comma(alloc, cursor, &given)?;
    keyword(alloc, cursor, section, given)
}

fn more_keys(
    alloc: Global,
    cursor: &mut Cursor<'_>,
    section: Section,
    mut given: Given,
) -> Result<Given, ClassStop>
    ensures { Reads (read spec.more_keys (section, given) cursor.old) result cursor.new }
{
    'turns: while cursor.sees(Kind::Comma) {
        match further_key(alloc, cursor, section, given) {
            Ok(more) => given = more,
            Err(stop) => return Err(stop),
        }
    }
    Ok(given)
}

#[tactic(auto, unfolding(crate::specs::ClassGrammar::all_keys, text_reading::specs::Phrases::parser, text_reading::specs::Phrases::limited, text_reading::specs::Parsing::pick, text_reading::specs::Parsing::either, text_reading::specs::Parsing::sees))]
fn all_keys(alloc: Global, cursor: &mut Cursor<'_>, section: Section) -> Result<Given, ClassStop>
    ensures { Reads (read spec.all_keys section cursor.old) result cursor.new }
{
    let first = keyword(alloc, cursor, section, nothing_given(alloc))?;
    more_keys(alloc, cursor, section, first)
}

#[tactic(auto, unfolding(crate::specs::ClassGrammar::bracketed_keys, text_reading::specs::Phrases::parser, text_reading::specs::Phrases::limited, text_reading::specs::Parsing::pick, text_reading::specs::Parsing::either, text_reading::specs::Parsing::sees))]
fn bracketed_keys(
    alloc: Global,
    cursor: &mut Cursor<'_>,
    section: Section,
) -> Result<Given, ClassStop>
    ensures { Reads (read spec.bracketed_keys section cursor.old) result cursor.new }
{
    cursor.mark(alloc, Kind::LBracket)?;
    let all = all_keys(alloc, cursor, section)?;
    key_close(alloc, cursor, &all)?;
    Ok(all)
}

/// The keywords in brackets, if there are any.
#[tactic(auto, unfolding(crate::specs::ClassGrammar::keywords, text_reading::specs::Phrases::parser, text_reading::specs::Phrases::limited, text_reading::specs::Parsing::pick, text_reading::specs::Parsing::either, text_reading::specs::Parsing::sees))]
pub fn keywords(
    alloc: Global,
    cursor: &mut Cursor<'_>,
    section: Section,
) -> Result<Given, ClassStop>
    ensures { Reads (read spec.keywords section cursor.old) result cursor.new }
{
    if cursor.sees(Kind::LBracket) {
        bracketed_keys(alloc, cursor, section)
    } else {
        Ok(nothing_given(alloc))
    }
}
