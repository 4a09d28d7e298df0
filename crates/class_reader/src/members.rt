//! Indexes, parameters, methods and storage blocks.

ghost use Rattle.std.specs.Prelude.{◌≡◌, ◌-◌, ◌≤◌, ◌∷◌, [], nat_le, false, length, IfOk, List, ℕ};
ghost use Rattle.text_reading.specs.Parsing.{Reads};
ghost use Rattle.class_reader.specs.ClassGrammar as spec;
ghost use Rattle.class_reader.specs.ClassGrammar.{read};
ghost use Rattle.class_reader.specs.ClassTrees as trees;

use crate::keys::{Rule, Section};
use crate::keywords::keywords;
use crate::limits::full;
use crate::names::{class_name, fresh_limit, name};
use crate::properties::opens;
use crate::values::{block, literal, value};
use class_tokens::{ClassStop, Cursor, Kind, is_block, is_name};
use obj_kinds::{NoMemory, Text};
use schema_kinds::{Arg, ArgDecls, Index, Indexes, Method, Methods, Texts};
use sqlite_items::Items;
use std::alloc::Global;
use text_reading::Marks;

/// How many indexes a class may declare.
const MAX_INDEXES: usize = 50;
/// How many properties an index may have.
const MAX_INDEX_PROPS: usize = 3;
/// How many methods a class may declare.
const MAX_METHODS: usize = 500;
/// How many arguments a method may have.
const MAX_ARGS: usize = 16;

fn has_index(indexes: &Indexes, name: &[u8]) -> bool
    ensures { result ≡ trees.has_index indexes.now name.now }
{
    indexes.as_slice().iter().any(|i| i.name.as_slice() == name)
}

#[tactic(auto, unfolding(crate::specs::ClassGrammar::fresh, text_reading::specs::Phrases::parser, text_reading::specs::Phrases::limited, text_reading::specs::Parsing::pick, text_reading::specs::Parsing::either, text_reading::specs::Parsing::sees))]
fn fresh_index(alloc: Global, cursor: &mut Cursor<'_>, indexes: &Indexes) -> Result<Text, ClassStop>
    ensures { Reads (read spec.fresh (trees.has_index indexes.now) cursor.old) result cursor.new }
{
    let can = is_name(cursor.peek());
    let taken = has_index(indexes, cursor.spelling());
    let limit = fresh_limit(taken, cursor.spelling());
    let name = cursor.pick(alloc, can, limit)?;
    Ok(Text::from_slice(alloc, name)?)
}

/// A comma, where `filled` says that nothing more has room behind it.
#[tactic(auto, unfolding(crate::specs::ClassGrammar::comma_within, text_reading::specs::Phrases::parser, text_reading::specs::Phrases::limited, text_reading::specs::Parsing::pick, text_reading::specs::Parsing::either, text_reading::specs::Parsing::sees))]
fn comma_within(alloc: Global, cursor: &mut Cursor<'_>, filled: bool) -> Result<(), ClassStop>
    ensures { Reads (read spec.comma_within filled cursor.old) result cursor.new }
{
    let can = cursor.sees(Kind::Comma);
    cursor.pick(alloc, can, full(filled))?;
    Ok(())
}

#[tactic(auto, unfolding(crate::specs::ClassGrammar::further_prop, text_reading::specs::Phrases::parser, text_reading::specs::Phrases::limited, text_reading::specs::Parsing::pick, text_reading::specs::Parsing::either, text_reading::specs::Parsing::sees))]
fn further_prop(
    alloc: Global,
    cursor: &mut Cursor<'_>,
    mut props: Texts,
) -> Result<Texts, ClassStop>
    ensures { Reads (read spec.further_prop props cursor.old) result cursor.new }
{
    let filled = props.len() >= MAX_INDEX_PROPS;
    comma_within(alloc, cursor, filled)?;
    let prop = name(alloc, cursor)?;
    props.push(prop)?;
    Ok(props)
}

fn more_props(alloc: Global, cursor: &mut Cursor<'_>, mut props: Texts) -> Result<Texts, ClassStop>
    ensures { Reads (read spec.more_props props cursor.old) result cursor.new }
{
    'turns: while cursor.sees(Kind::Comma) {
        match further_prop(alloc, cursor, props) {
            Ok(more) => props = more,
            Err(stop) => return Err(stop),
        }
    }
    Ok(props)
}

#[tactic(auto, unfolding(crate::specs::ClassGrammar::one_prop, text_reading::specs::Phrases::parser, text_reading::specs::Phrases::limited, text_reading::specs::Parsing::pick, text_reading::specs::Parsing::either, text_reading::specs::Parsing::sees))]
fn one_prop(alloc: Global, cursor: &mut Cursor<'_>) -> Result<Texts, ClassStop>
    ensures { Reads (read spec.one_prop tt cursor.old) result cursor.new }
{
    let mut props = Items::new(alloc);
    props.push(name(alloc, cursor)?)?;
    Ok(props)
}

#[tactic(auto, unfolding(crate::specs::ClassGrammar::listed_props, text_reading::specs::Phrases::parser, text_reading::specs::Phrases::limited, text_reading::specs::Parsing::pick, text_reading::specs::Parsing::either, text_reading::specs::Parsing::sees))]
fn listed_props(alloc: Global, cursor: &mut Cursor<'_>) -> Result<Texts, ClassStop>
    ensures { Reads (read spec.listed_props tt cursor.old) result cursor.new }
{
    cursor.mark(alloc, Kind::LParen)?;
    let first = one_prop(alloc, cursor)?;
    let all = more_props(alloc, cursor, first)?;
    cursor.mark(alloc, Kind::RParen)?;
    Ok(all)
}

#[tactic(auto, unfolding(crate::specs::ClassGrammar::index_props, text_reading::specs::Phrases::parser, text_reading::specs::Phrases::limited, text_reading::specs::Parsing::pick, text_reading::specs::Parsing::either, text_reading::specs::Parsing::sees))]
fn index_props(alloc: Global, cursor: &mut Cursor<'_>) -> Result<Texts, ClassStop>
    ensures { Reads (read spec.index_props tt cursor.old) result cursor.new }
{
    if cursor.sees(Kind::LParen) {
        return listed_props(alloc, cursor);
    }
    one_prop(alloc, cursor)
}

/// An index, behind those that were found.
#[tactic(auto, unfolding(crate::specs::ClassGrammar::index, text_reading::specs::Phrases::parser, text_reading::specs::Phrases::limited, text_reading::specs::Parsing::pick, text_reading::specs::Parsing::either, text_reading::specs::Parsing::sees))]
pub fn index(
    alloc: Global,
    cursor: &mut Cursor<'_>,
    mut indexes: Indexes,
) -> Result<Indexes, ClassStop>
    ensures { Reads (read spec.index indexes cursor.old) result cursor.new }
{
    let filled = indexes.len() >= MAX_INDEXES;
    opens(alloc, cursor, Kind::Index, filled)?;
    let name = fresh_index(alloc, cursor, &indexes)?;
    cursor.mark(alloc, Kind::On)?;
    let props = index_props(alloc, cursor)?;
    let given = keywords(alloc, cursor, Section::Index)?;
    cursor.mark(alloc, Kind::Semicolon)?;
    indexes.push(Index {
        name,
        props,
        unique: given.unique,
    })?;
    Ok(indexes)
}

/// The class of a result or an argument, which says nothing.
#[tactic(auto, unfolding(crate::specs::ClassGrammar::result_type, text_reading::specs::Phrases::parser, text_reading::specs::Phrases::limited, text_reading::specs::Parsing::pick, text_reading::specs::Parsing::either, text_reading::specs::Parsing::sees))]
fn result_type(alloc: Global, cursor: &mut Cursor<'_>) -> Result<(), ClassStop>
    ensures { Reads (read spec.result_type tt cursor.old) result cursor.new }
{
    if !cursor.sees(Kind::As) {
        return Ok(());
    }
    cursor.mark(alloc, Kind::As)?;
    class_name(alloc, cursor)?;
    Ok(())
}

#[tactic(auto, unfolding(crate::specs::ClassGrammar::skipped_value, text_reading::specs::Phrases::parser, text_reading::specs::Phrases::limited, text_reading::specs::Parsing::pick, text_reading::specs::Parsing::either, text_reading::specs::Parsing::sees))]
fn skipped_value(alloc: Global, cursor: &mut Cursor<'_>) -> Result<(), ClassStop>
    ensures { Reads (read spec.skipped_value tt cursor.old) result cursor.new }
{
    if !cursor.sees(Kind::Equals) {
        return Ok(());
    }
    cursor.mark(alloc, Kind::Equals)?;
    value(alloc, cursor, Rule::Skipped)?;
    Ok(())
}

/// A parameter of the class, which is skipped.
#[tactic(auto, unfolding(crate::specs::ClassGrammar::parameter, text_reading::specs::Phrases::parser, text_reading::specs::Phrases::limited, text_reading::specs::Parsing::pick, text_reading::specs::Parsing::either, text_reading::specs::Parsing::sees))]
pub fn parameter(alloc: Global, cursor: &mut Cursor<'_>) -> Result<(), ClassStop>
    ensures { Reads (read spec.parameter tt cursor.old) result cursor.new }
{
    cursor.mark(alloc, Kind::Parameter)?;
    name(alloc, cursor)?;
    result_type(alloc, cursor)?;
    skipped_value(alloc, cursor)?;
    cursor.mark(alloc, Kind::Semicolon)?;
    Ok(())
}

/// A storage block, which is skipped.
#[tactic(auto, unfolding(crate::specs::ClassGrammar::storage, text_reading::specs::Phrases::parser, text_reading::specs::Phrases::limited, text_reading::specs::Parsing::pick, text_reading::specs::Parsing::either, text_reading::specs::Parsing::sees))]
pub fn storage(alloc: Global, cursor: &mut Cursor<'_>) -> Result<(), ClassStop>
    ensures { Reads (read spec.storage tt cursor.old) result cursor.new }
{
    cursor.mark(alloc, Kind::Storage)?;
    name(alloc, cursor)?;
    block(alloc, cursor, false)?;
    Ok(())
}

fn has_method(methods: &Methods, name: &[u8]) -> bool
    ensures { result ≡ trees.has_method methods.now name.now }
{
    methods.as_slice().iter().any(|m| m.name.as_slice() == name)
}

#[tactic(auto, unfolding(crate::specs::ClassGrammar::fresh, text_reading::specs::Phrases::parser, text_reading::specs::Phrases::limited, text_reading::specs::Parsing::pick, text_reading::specs::Parsing::either, text_reading::specs::Parsing::sees))]
fn fresh_method(
    alloc: Global,
    cursor: &mut Cursor<'_>,
    methods: &Methods,
) -> Result<Text, ClassStop>
    ensures { Reads (read spec.fresh (trees.has_method methods.now) cursor.old) result cursor.new }
{
    let can = is_name(cursor.peek());
    let taken = has_method(methods, cursor.spelling());
    let limit = fresh_limit(taken, cursor.spelling());
    let name = cursor.pick(alloc, can, limit)?;
    Ok(Text::from_slice(alloc, name)?)
}

#[tactic(auto, unfolding(crate::specs::ClassGrammar::default, text_reading::specs::Phrases::parser, text_reading::specs::Phrases::limited, text_reading::specs::Parsing::pick, text_reading::specs::Parsing::either, text_reading::specs::Parsing::sees))]
fn default(alloc: Global, cursor: &mut Cursor<'_>) -> Result<Option<Text>, ClassStop>
    ensures { Reads (read spec.default tt cursor.old) result cursor.new }
{
    if !cursor.sees(Kind::Equals) {
        return Ok(None);
    }
    cursor.mark(alloc, Kind::Equals)?;
    Ok(Some(literal(alloc, cursor, false)?))
}

/// An argument.
#[tactic(auto, unfolding(crate::specs::ClassGrammar::argument, text_reading::specs::Phrases::parser, text_reading::specs::Phrases::limited, text_reading::specs::Parsing::pick, text_reading::specs::Parsing::either, text_reading::specs::Parsing::sees))]
fn argument(alloc: Global, cursor: &mut Cursor<'_>) -> Result<Arg, ClassStop>
    ensures { Reads (read spec.argument tt cursor.old) result cursor.new }
{
    let name = name(alloc, cursor)?;
    result_type(alloc, cursor)?;
    let default = default(alloc, cursor)?;
    Ok(Arg { name, default })
}

#[tactic(auto, unfolding(crate::specs::ClassGrammar::further_arg, text_reading::specs::Phrases::parser, text_reading::specs::Phrases::limited, text_reading::specs::Parsing::pick, text_reading::specs::Parsing::either, text_reading::specs::Parsing::sees))]
fn further_arg(
    alloc: Global,
    cursor: &mut Cursor<'_>,
    mut args: ArgDecls,
) -> Result<ArgDecls, ClassStop>
    ensures { Reads (read spec.further_arg args cursor.old) result cursor.new }
{
    let filled = args.len() >= MAX_ARGS;
    comma_within(alloc, cursor, filled)?;
    let arg = argument(alloc, cursor)?;
    args.push(arg)?;
    Ok(args)
}

fn more_args(
    alloc: Global,
    cursor: &mut Cursor<'_>,
    mut args: ArgDecls,
) -> Result<ArgDecls, ClassStop>
    ensures { Reads (read spec.more_args args cursor.old) result cursor.new }
{
    'turns: while cursor.sees(Kind::Comma) {
        match further_arg(alloc, cursor, args) {
            Ok(more) => args = more,
            Err(stop) => return Err(stop),
        }
    }
    Ok(args)
}

#[tactic(auto, unfolding(crate::specs::ClassGrammar::some_args, text_reading::specs::Phrases::parser, text_reading::specs::Phrases::limited, text_reading::specs::Parsing::pick, text_reading::specs::Parsing::either, text_reading::specs::Parsing::sees))]
fn some_args(alloc: Global, cursor: &mut Cursor<'_>) -> Result<ArgDecls, ClassStop>
    ensures { Reads (read spec.some_args tt cursor.old) result cursor.new }
{
    let mut first = Items::new(alloc);
    first.push(argument(alloc, cursor)?)?;
    more_args(alloc, cursor, first)
}

#[tactic(auto, unfolding(crate::specs::ClassGrammar::args_within, text_reading::specs::Phrases::parser, text_reading::specs::Phrases::limited, text_reading::specs::Parsing::pick, text_reading::specs::Parsing::either, text_reading::specs::Parsing::sees))]
fn args_within(alloc: Global, cursor: &mut Cursor<'_>) -> Result<ArgDecls, ClassStop>
    ensures { Reads (read spec.args_within tt cursor.old) result cursor.new }
{
    if is_name(cursor.peek()) {
        some_args(alloc, cursor)
    } else {
        Ok(Items::new(alloc))
    }
}

/// The arguments of a method, in parentheses.
#[tactic(auto, unfolding(crate::specs::ClassGrammar::args, text_reading::specs::Phrases::parser, text_reading::specs::Phrases::limited, text_reading::specs::Parsing::pick, text_reading::specs::Parsing::either, text_reading::specs::Parsing::sees))]
fn args_of(alloc: Global, cursor: &mut Cursor<'_>) -> Result<ArgDecls, ClassStop>
    ensures { Reads (read spec.args tt cursor.old) result cursor.new }
{
    cursor.mark(alloc, Kind::LParen)?;
    let all = args_within(alloc, cursor)?;
    cursor.mark(alloc, Kind::RParen)?;
    Ok(all)
}

/// What stands between the braces of a block.
fn between(alloc: Global, text: &[u8]) -> Result<Text, NoMemory>
    ensures { IfOk result (λ body. body ≡ trees.between text.now) }
{
    if text.len() < 2 {
        return Ok(Text::new(alloc));
    }
    Ok(Text::from_slice(alloc, &text[1..text.len() - 1])?)
}

/// The body of a method: what stands between its braces, and how many bytes of the text stand from there on.
#[derive(Debug, Drop)]
pub struct Body {
    pub text: Text,
    pub left: usize,
}

#[tactic(auto, unfolding(crate::specs::ClassGrammar::body, text_reading::specs::Phrases::parser, text_reading::specs::Phrases::limited, text_reading::specs::Parsing::pick, text_reading::specs::Parsing::either, text_reading::specs::Parsing::sees))]
fn body_of(alloc: Global, cursor: &mut Cursor<'_>) -> Result<Body, ClassStop>
    ensures { Reads (read spec.body tt cursor.old) result cursor.new }
{
    let can = is_block(cursor.peek());
    let left = cursor.left().saturating_sub(1);
    let spelling = cursor.pick(alloc, can, None)?;
    let text = between(alloc, spelling)?;
    Ok(Body { text, left })
}

/// A method of this kind, behind those that were found.
#[tactic(auto, unfolding(crate::specs::ClassGrammar::method, text_reading::specs::Phrases::parser, text_reading::specs::Phrases::limited, text_reading::specs::Parsing::pick, text_reading::specs::Parsing::either, text_reading::specs::Parsing::sees))]
pub fn method(
    alloc: Global,
    cursor: &mut Cursor<'_>,
    marks: &mut Marks<'_>,
    kind: Kind,
    of_class: bool,
    mut methods: Methods,
) -> Result<Methods, ClassStop>
    ensures reads { Reads (read (spec.method kind of_class) (marks.old, methods) cursor.old) result cursor.new }
    ensures text { marks.new ≡ marks.old }
{
    let filled = methods.len() >= MAX_METHODS;
    opens(alloc, cursor, kind, filled)?;
    let name = fresh_method(alloc, cursor, &methods)?;
    let args = args_of(alloc, cursor)?;
    result_type(alloc, cursor)?;
    keywords(alloc, cursor, Section::Method)?;
    let body = body_of(alloc, cursor)?;
    let place = marks.place(body.left);
    methods.push(Method {
        name,
        of_class,
        args,
        body: body.text,
        line: place.line,
        column: place.column,
    })?;
    Ok(methods)
}
