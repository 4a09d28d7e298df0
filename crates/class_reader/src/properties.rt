//! Types, properties and relationships.

ghost use Rattle.std.specs.Prelude.{◌≡◌, ◌≤◌, Bool, nat_le, false, length, IfOk};
ghost use Rattle.text_reading.specs.Parsing.{Reads};
ghost use Rattle.class_reader.specs.ClassGrammar as spec;
ghost use Rattle.class_reader.specs.ClassGrammar.{read};
ghost use Rattle.class_reader.specs.ClassTrees as trees;

use crate::keys::{Bounds, Given, Section, bound, is_left_out_bound, no_bounds};
use crate::keywords::keywords;
use crate::limits::{MAX_NAME, barred, full, where_holds};
use crate::names::{class_name, fresh_limit, name_rest, whole_name};
use crate::values::literal;
use class_tokens::{ClassStop, ClassWhy, Cursor, Kind, is_name, is_word};
use obj_kinds::{ClassName, NoMemory, Text};
use schema_kinds::{Form, PropTree, PropTrees};
use std::alloc::Global;

/// How many properties a class may declare.
const MAX_PROPS: usize = 200;

/// A type as it is written, without its parameters.
#[derive(Debug, Drop)]
pub struct TypeName {
    pub form: Form,
    pub name: Text,
}

/// The type of a property.
#[derive(Debug, Drop)]
pub struct Typed {
    pub form: Form,
    pub of: ClassName,
    pub bounds: Bounds,
}

fn bound_limit(word: &[u8]) -> Option<ClassWhy>
    ensures { result ≡ spec.bound_limit word.now }
{
    let bars = barred(is_left_out_bound(word));
    where_holds(word.len() > MAX_NAME, ClassWhy::NameTooLong, bars)
}

#[tactic(auto, unfolding(crate::specs::ClassGrammar::bound_word, text_reading::specs::Phrases::parser, text_reading::specs::Phrases::limited, text_reading::specs::Parsing::pick, text_reading::specs::Parsing::either, text_reading::specs::Parsing::sees))]
fn bound_word(alloc: Global, cursor: &mut Cursor<'_>) -> Result<Text, ClassStop>
    ensures { Reads (read spec.bound_word tt cursor.old) result cursor.new }
{
    let can = is_word(cursor.peek());
    let limit = bound_limit(cursor.spelling());
    let word = cursor.pick(alloc, can, limit)?;
    Ok(Text::from_slice(alloc, word)?)
}

/// A parameter of a property.
#[tactic(auto, unfolding(crate::specs::ClassGrammar::one_bound, text_reading::specs::Phrases::parser, text_reading::specs::Phrases::limited, text_reading::specs::Parsing::pick, text_reading::specs::Parsing::either, text_reading::specs::Parsing::sees))]
fn one_bound(alloc: Global, cursor: &mut Cursor<'_>, found: Bounds) -> Result<Bounds, ClassStop>
    ensures { Reads (read spec.one_bound found cursor.old) result cursor.new }
{
    let word = bound_word(alloc, cursor)?;
    cursor.mark(alloc, Kind::Equals)?;
    let value = literal(alloc, cursor, false)?;
    Ok(bound(word.as_slice(), value, found))
}

#[tactic(auto, unfolding(crate::specs::ClassGrammar::further_bound, text_reading::specs::Phrases::parser, text_reading::specs::Phrases::limited, text_reading::specs::Parsing::pick, text_reading::specs::Parsing::either, text_reading::specs::Parsing::sees))]
fn further_bound(alloc: Global, cursor: &mut Cursor<'_>, found: Bounds) -> Result<Bounds, ClassStop>
    ensures { Reads (read spec.further_bound found cursor.old) result cursor.new }
{
    cursor.mark(alloc, Kind::Comma)?;
    one_bound(alloc, cursor, found)
}

fn more_bounds(
    alloc: Global,
    cursor: &mut Cursor<'_>,
    mut found: Bounds,
) -> Result<Bounds, ClassStop>
    ensures { Reads (read spec.more_bounds found cursor.old) result cursor.new }
{
    'turns: while cursor.sees(Kind::Comma) {
        match further_bound(alloc, cursor, found) {
            Ok(more) => found = more,
            Err(stop) => return Err(stop),
        }
    }
    Ok(found)
}

#[tactic(auto, unfolding(crate::specs::ClassGrammar::all_bounds, text_reading::specs::Phrases::parser, text_reading::specs::Phrases::limited, text_reading::specs::Parsing::pick, text_reading::specs::Parsing::either, text_reading::specs::Parsing::sees))]
fn all_bounds(alloc: Global, cursor: &mut Cursor<'_>) -> Result<Bounds, ClassStop>
    ensures { Reads (read spec.all_bounds tt cursor.old) result cursor.new }
{
    let first = one_bound(alloc, cursor, no_bounds())?;
    more_bounds(alloc, cursor, first)
}

/// The parameters of a property, in parentheses.
#[tactic(auto, unfolding(crate::specs::ClassGrammar::bounds, text_reading::specs::Phrases::parser, text_reading::specs::Phrases::limited, text_reading::specs::Parsing::pick, text_reading::specs::Parsing::either, text_reading::specs::Parsing::sees))]
fn bounds(alloc: Global, cursor: &mut Cursor<'_>) -> Result<Bounds, ClassStop>
    ensures { Reads (read spec.bounds tt cursor.old) result cursor.new }
{
    cursor.mark(alloc, Kind::LParen)?;
    let all = all_bounds(alloc, cursor)?;
    cursor.mark(alloc, Kind::RParen)?;
    Ok(all)
}

#[tactic(auto, unfolding(crate::specs::ClassGrammar::bounds_given, text_reading::specs::Phrases::parser, text_reading::specs::Phrases::limited, text_reading::specs::Parsing::pick, text_reading::specs::Parsing::either, text_reading::specs::Parsing::sees))]
fn bounds_given(alloc: Global, cursor: &mut Cursor<'_>) -> Result<Bounds, ClassStop>
    ensures { Reads (read spec.bounds_given tt cursor.old) result cursor.new }
{
    if cursor.sees(Kind::LParen) {
        bounds(alloc, cursor)
    } else {
        Ok(no_bounds())
    }
}

#[tactic(auto, unfolding(crate::specs::ClassGrammar::word_of, text_reading::specs::Phrases::parser, text_reading::specs::Phrases::limited, text_reading::specs::Parsing::pick, text_reading::specs::Parsing::either, text_reading::specs::Parsing::sees))]
fn word_of(alloc: Global, cursor: &mut Cursor<'_>, kind: Kind) -> Result<Text, ClassStop>
    ensures { Reads (read (spec.word_of kind) tt cursor.old) result cursor.new }
{
    let can = cursor.sees(kind);
    let word = cursor.pick(alloc, can, None)?;
    Ok(Text::from_slice(alloc, word)?)
}

/// A word that names a collection, where `Of` follows, or else begins a class's name.
#[tactic(auto, unfolding(crate::specs::ClassGrammar::collection, text_reading::specs::Phrases::parser, text_reading::specs::Phrases::limited, text_reading::specs::Parsing::pick, text_reading::specs::Parsing::either, text_reading::specs::Parsing::sees))]
fn collection(
    alloc: Global,
    cursor: &mut Cursor<'_>,
    kind: Kind,
    form: Form,
) -> Result<TypeName, ClassStop>
    ensures { Reads (read (spec.collection kind form) tt cursor.old) result cursor.new }
{
    let word = word_of(alloc, cursor, kind)?;
    if cursor.sees(Kind::Of) {
        cursor.mark(alloc, Kind::Of)?;
        let name = class_name(alloc, cursor)?;
        return Ok(TypeName { form, name });
    }
    let name = name_rest(alloc, cursor, false, word)?;
    Ok(TypeName {
        form: Form::Single,
        name,
    })
}

#[tactic(auto, unfolding(crate::specs::ClassGrammar::formed, text_reading::specs::Phrases::parser, text_reading::specs::Phrases::limited, text_reading::specs::Parsing::pick, text_reading::specs::Parsing::either, text_reading::specs::Parsing::sees))]
fn formed(alloc: Global, cursor: &mut Cursor<'_>) -> Result<TypeName, ClassStop>
    ensures { Reads (read spec.formed tt cursor.old) result cursor.new }
{
    if cursor.sees(Kind::List) {
        return collection(alloc, cursor, Kind::List, Form::List);
    }
    if cursor.sees(Kind::Array) {
        return collection(alloc, cursor, Kind::Array, Form::Array);
    }
    let name = class_name(alloc, cursor)?;
    Ok(TypeName {
        form: Form::Single,
        name,
    })
}

fn type_of(alloc: Global, home: &[u8], written: TypeName, bounds: Bounds) -> Result<Typed, NoMemory>
    ensures { IfOk result (λ typed. typed ≡ trees.typed home.now written bounds) }
{
    let TypeName { form, name } = written;
    let of = whole_name(alloc, home, name)?;
    Ok(Typed { form, of, bounds })
}

#[tactic(auto, unfolding(crate::specs::ClassGrammar::as_type, text_reading::specs::Phrases::parser, text_reading::specs::Phrases::limited, text_reading::specs::Parsing::pick, text_reading::specs::Parsing::either, text_reading::specs::Parsing::sees))]
fn as_type(alloc: Global, cursor: &mut Cursor<'_>, home: &[u8]) -> Result<Typed, ClassStop>
    ensures { Reads (read spec.as_type home.now cursor.old) result cursor.new }
{
    cursor.mark(alloc, Kind::As)?;
    let written = formed(alloc, cursor)?;
    let given = bounds_given(alloc, cursor)?;
    Ok(type_of(alloc, home, written, given)?)
}

fn text_type(alloc: Global) -> Result<Typed, NoMemory>
    ensures { IfOk result (λ typed. typed ≡ trees.text_type) }
{
    Ok(Typed {
        form: Form::Single,
        of: ClassName(Text::from_slice(alloc, b"%String".as_slice())?),
        bounds: no_bounds(),
    })
}

/// The type of a property of a class of the package; one that isn't written is `%String`.
#[tactic(auto, unfolding(crate::specs::ClassGrammar::type_given, text_reading::specs::Phrases::parser, text_reading::specs::Phrases::limited, text_reading::specs::Parsing::pick, text_reading::specs::Parsing::either, text_reading::specs::Parsing::sees))]
fn type_given(alloc: Global, cursor: &mut Cursor<'_>, home: &[u8]) -> Result<Typed, ClassStop>
    ensures { Reads (read spec.type_given home.now cursor.old) result cursor.new }
{
    if cursor.sees(Kind::As) {
        return as_type(alloc, cursor, home);
    }
    Ok(text_type(alloc)?)
}

/// A member's first word, where `filled` says that one more member has no room.
#[tactic(auto, unfolding(crate::specs::ClassGrammar::opens, text_reading::specs::Phrases::parser, text_reading::specs::Phrases::limited, text_reading::specs::Parsing::pick, text_reading::specs::Parsing::either, text_reading::specs::Parsing::sees))]
pub fn opens(
    alloc: Global,
    cursor: &mut Cursor<'_>,
    kind: Kind,
    filled: bool,
) -> Result<(), ClassStop>
    ensures { Reads (read (spec.opens kind) filled cursor.old) result cursor.new }
{
    let can = cursor.sees(kind);
    cursor.pick(alloc, can, full(filled))?;
    Ok(())
}

fn has_prop(props: &PropTrees, name: &[u8]) -> bool
    ensures { result ≡ trees.has_prop props.now name.now }
{
    props.as_slice().iter().any(|p| p.name.as_slice() == name)
}

/// A name of a property that isn't taken yet.
#[tactic(auto, unfolding(crate::specs::ClassGrammar::fresh, text_reading::specs::Phrases::parser, text_reading::specs::Phrases::limited, text_reading::specs::Parsing::pick, text_reading::specs::Parsing::either, text_reading::specs::Parsing::sees))]
fn fresh_prop(alloc: Global, cursor: &mut Cursor<'_>, props: &PropTrees) -> Result<Text, ClassStop>
    ensures { Reads (read spec.fresh (trees.has_prop props.now) cursor.old) result cursor.new }
{
    let can = is_name(cursor.peek());
    let taken = has_prop(props, cursor.spelling());
    let limit = fresh_limit(taken, cursor.spelling());
    let name = cursor.pick(alloc, can, limit)?;
    Ok(Text::from_slice(alloc, name)?)
}

#[tactic(auto, unfolding(crate::specs::ClassTrees::prop_of))]
fn prop_of(name: Text, typed: Typed, given: Given) -> PropTree
    ensures { result ≡ trees.prop_of name typed given }
{
    let Typed { form, of, bounds } = typed;
    let Bounds {
        max_len,
        min_val,
        max_val,
    } = bounds;
    PropTree {
        name,
        form,
        of,
        required: given.required,
        initial: given.initial,
        max_len,
        min_val,
        max_val,
    }
}

/// A property of a class of the package, behind those that were found.
#[tactic(auto, unfolding(crate::specs::ClassGrammar::property, text_reading::specs::Phrases::parser, text_reading::specs::Phrases::limited, text_reading::specs::Parsing::pick, text_reading::specs::Parsing::either, text_reading::specs::Parsing::sees))]
pub fn property(
    alloc: Global,
    cursor: &mut Cursor<'_>,
    home: &[u8],
    mut props: PropTrees,
) -> Result<PropTrees, ClassStop>
    ensures { Reads (read spec.property (home.now, props) cursor.old) result cursor.new }
{
    let filled = props.len() >= MAX_PROPS;
    opens(alloc, cursor, Kind::Property, filled)?;
    let name = fresh_prop(alloc, cursor, &props)?;
    let typed = type_given(alloc, cursor, home)?;
    let given = keywords(alloc, cursor, Section::Property)?;
    cursor.mark(alloc, Kind::Semicolon)?;
    props.push(prop_of(name, typed, given))?;
    Ok(props)
}

#[tactic(auto, unfolding(crate::specs::ClassTrees::relation_of))]
fn relation_of(alloc: Global, name: Text, of: ClassName, given: Given) -> PropTree
    ensures { result ≡ trees.relation_of name of.0 given }
{
    PropTree {
        name,
        form: Form::Relation {
            cardinality: given.cardinality,
            inverse: given.inverse,
        },
        of,
        required: false,
        initial: Text::new(alloc),
        max_len: None,
        min_val: None,
        max_val: None,
    }
}

/// A relationship of a class of the package, behind the properties that were found.
#[tactic(auto, unfolding(crate::specs::ClassGrammar::relation, text_reading::specs::Phrases::parser, text_reading::specs::Phrases::limited, text_reading::specs::Parsing::pick, text_reading::specs::Parsing::either, text_reading::specs::Parsing::sees))]
pub fn relation(
    alloc: Global,
    cursor: &mut Cursor<'_>,
    home: &[u8],
    mut props: PropTrees,
) -> Result<PropTrees, ClassStop>
    ensures { Reads (read spec.relation (home.now, props) cursor.old) result cursor.new }
{
    let filled = props.len() >= MAX_PROPS;
    opens(alloc, cursor, Kind::Relationship, filled)?;
    let name = fresh_prop(alloc, cursor, &props)?;
    cursor.mark(alloc, Kind::As)?;
    let of = class_name(alloc, cursor)?;
    let given = keywords(alloc, cursor, Section::Relation)?;
    cursor.mark(alloc, Kind::Semicolon)?;
    let of = whole_name(alloc, home, of)?;
    props.push(relation_of(alloc, name, of, given))?;
    Ok(props)
}
