//! Expressions, from left to right. Each function reads the phrase of its name.

ghost use Rattle.std.specs.Prelude.{◌≡◌, ◌<◌, false};
ghost use Rattle.text_reading.specs.Parsing.{Reads};
ghost use Rattle.os_expressions.specs.Trees as tree;
ghost use Rattle.os_expressions.specs.ScriptGrammar as spec;
ghost use Rattle.os_expressions.specs.ScriptGrammar.{read, nested};

use crate::build::{counted, free_args, looked_as, operand_of, plain, with_operations};
use crate::given::{Calling, Looked, Spot};
use crate::limits::{barred, miscounted, opening, too_deep, too_few, too_many};
use crate::names::{class_name, closing, global_name, member_name, miscount, opens, variable};
use crate::words::{function_word, looking_word, number, operator, sign_of, special, string};
use obj_kinds::{ClassName, Text};
use os_kinds::{Expression, Function, GlobalReference, Member, Operation, Place, Sign};
use script_tokens::{
    Cursor, Kind, ScriptStop, begins_operand, is_function, is_looking, is_number, is_operator,
    is_sign, is_special, is_text, same_kind,
};
use sqlite_items::Items;
use std::alloc::Global;

fn is_data(kind: Kind) -> bool
    ensures { result ≡ spec.is_data kind }
{
    same_kind(kind, Kind::Data)
}

/// Whether what ends in arguments may begin with it.
pub fn begins_called(kind: Kind) -> bool
    ensures { result ≡ spec.begins_called kind }
{
    is_function(kind)
        || is_looking(kind)
        || same_kind(kind, Kind::Order)
        || same_kind(kind, Kind::ClassOpen)
}

/// An expression in parentheses.
#[cycle(expression)]
#[tactic(auto, using(crate::proofs::RuleReading::inside_is))]
fn nested_inside(
    alloc: Global,
    cursor: &mut Cursor<'_>,
    depth: usize,
) -> Result<Expression, ScriptStop>
    ensures { Reads (nested spec.Inside (tree.plain depth) cursor.old) result cursor.new }
{
    expression(alloc, cursor, plain(depth))
}

/// Expressions up to a closing parenthesis.
#[cycle(expression)]
#[tactic(auto, using(crate::proofs::RuleReading::listed_is))]
fn nested_listed(
    alloc: Global,
    cursor: &mut Cursor<'_>,
    depth: usize,
) -> Result<Items<Expression>, ScriptStop>
    ensures { Reads (nested spec.Listed depth cursor.old) result cursor.new }
{
    listed(alloc, cursor, free_args(depth))
}

/// The arguments of a call, up to its closing parenthesis.
#[cycle(expression)]
#[tactic(auto, using(crate::proofs::RuleReading::arguments_is))]
fn nested_arguments(
    alloc: Global,
    cursor: &mut Cursor<'_>,
    calling: Calling,
) -> Result<Items<Expression>, ScriptStop>
    ensures { Reads (nested spec.Arguments calling cursor.old) result cursor.new }
{
    arguments(alloc, cursor, calling)
}

/// The arguments of a function that looks at a variable or a global.
#[cycle(expression)]
#[tactic(auto, using(crate::proofs::RuleReading::looking_is))]
fn nested_looking(
    alloc: Global,
    cursor: &mut Cursor<'_>,
    depth: usize,
    single: bool,
) -> Result<Looked, ScriptStop>
    ensures { Reads (nested spec.Looking (depth, single) cursor.old) result cursor.new }
{
    looking(alloc, cursor, depth, single)
}

/// The argument of `$ORDER`.
#[cycle(expression)]
#[tactic(auto, using(crate::proofs::RuleReading::ordering_is))]
fn nested_ordering(
    alloc: Global,
    cursor: &mut Cursor<'_>,
    depth: usize,
) -> Result<GlobalReference, ScriptStop>
    ensures { Reads (nested spec.Ordering depth cursor.old) result cursor.new }
{
    ordering(alloc, cursor, depth)
}

/// `( expr { , expr } )`
#[cycle(expression)]
#[tactic(auto, unfolding(crate::specs::ScriptGrammar::subscripts, text_reading::specs::Phrases::parser, text_reading::specs::Phrases::limited, text_reading::specs::Parsing::pick, text_reading::specs::Parsing::either, text_reading::specs::Parsing::sees), using(crate::proofs::RuleReading::not_deep))]
fn subscripts(
    alloc: Global,
    cursor: &mut Cursor<'_>,
    depth: usize,
) -> Result<Items<Expression>, ScriptStop>
    ensures { Reads (read spec.subscripts depth cursor.old) result cursor.new }
{
    let can = cursor.sees(Kind::OpenArgs);
    cursor.pick(alloc, can, too_deep(depth))?;
    nested_listed(alloc, cursor, depth + 1)
}

/// `( [ expr { , expr } ] )`
#[cycle(expression)]
#[tactic(auto, unfolding(crate::specs::ScriptGrammar::args, text_reading::specs::Phrases::parser, text_reading::specs::Phrases::limited, text_reading::specs::Parsing::pick, text_reading::specs::Parsing::either, text_reading::specs::Parsing::sees), using(crate::proofs::RuleReading::not_deep))]
pub fn args(
    alloc: Global,
    cursor: &mut Cursor<'_>,
    depth: usize,
) -> Result<Items<Expression>, ScriptStop>
    ensures { Reads (read spec.args depth cursor.old) result cursor.new }
{
    let can = cursor.sees(Kind::OpenArgs);
    cursor.pick(alloc, can, too_deep(depth))?;
    nested_arguments(alloc, cursor, free_args(depth + 1))
}

/// `[ ( [ expr { , expr } ] ) ]`
#[cycle(expression)]
#[tactic(auto, unfolding(crate::specs::ScriptGrammar::args_given, text_reading::specs::Phrases::parser, text_reading::specs::Phrases::limited, text_reading::specs::Parsing::pick, text_reading::specs::Parsing::either, text_reading::specs::Parsing::sees))]
fn args_given(
    alloc: Global,
    cursor: &mut Cursor<'_>,
    depth: usize,
) -> Result<Option<Items<Expression>>, ScriptStop>
    ensures { Reads (read spec.args_given depth cursor.old) result cursor.new }
{
    if !cursor.sees(Kind::OpenArgs) {
        return Ok(None);
    }
    Ok(Some(args(alloc, cursor, depth)?))
}

/// As many arguments as the function has.
#[cycle(expression)]
#[tactic(auto, unfolding(crate::specs::ScriptGrammar::counted_args, text_reading::specs::Phrases::parser, text_reading::specs::Phrases::limited, text_reading::specs::Parsing::pick, text_reading::specs::Parsing::either, text_reading::specs::Parsing::sees), using(crate::proofs::RuleReading::not_deep))]
fn counted_args(
    alloc: Global,
    cursor: &mut Cursor<'_>,
    depth: usize,
    function: Function,
) -> Result<Items<Expression>, ScriptStop>
    ensures { Reads (read spec.counted_args (depth, function) cursor.old) result cursor.new }
{
    let can = cursor.sees(Kind::OpenArgs);
    cursor.pick(alloc, can, too_deep(depth))?;
    nested_arguments(alloc, cursor, counted(depth + 1, function))
}

/// `( place [ , expr ] )`
#[cycle(expression)]
#[tactic(auto, unfolding(crate::specs::ScriptGrammar::looking_args, text_reading::specs::Phrases::parser, text_reading::specs::Phrases::limited, text_reading::specs::Parsing::pick, text_reading::specs::Parsing::either, text_reading::specs::Parsing::sees), using(crate::proofs::RuleReading::not_deep))]
fn looking_args(
    alloc: Global,
    cursor: &mut Cursor<'_>,
    depth: usize,
    single: bool,
) -> Result<Looked, ScriptStop>
    ensures { Reads (read spec.looking_args (depth, single) cursor.old) result cursor.new }
{
    let can = cursor.sees(Kind::OpenArgs);
    cursor.pick(alloc, can, too_deep(depth))?;
    nested_looking(alloc, cursor, depth + 1, single)
}

/// `( global )`
#[cycle(expression)]
#[tactic(auto, unfolding(crate::specs::ScriptGrammar::ordering_args, text_reading::specs::Phrases::parser, text_reading::specs::Phrases::limited, text_reading::specs::Parsing::pick, text_reading::specs::Parsing::either, text_reading::specs::Parsing::sees), using(crate::proofs::RuleReading::not_deep))]
fn ordering_args(
    alloc: Global,
    cursor: &mut Cursor<'_>,
    depth: usize,
) -> Result<GlobalReference, ScriptStop>
    ensures { Reads (read spec.ordering_args depth cursor.old) result cursor.new }
{
    let can = cursor.sees(Kind::OpenArgs);
    cursor.pick(alloc, can, too_deep(depth))?;
    nested_ordering(alloc, cursor, depth + 1)
}

/// `[ ( expr { , expr } ) ]`
#[cycle(expression)]
#[tactic(auto, unfolding(crate::specs::ScriptGrammar::subscripts_given, text_reading::specs::Phrases::parser, text_reading::specs::Phrases::limited, text_reading::specs::Parsing::pick, text_reading::specs::Parsing::either, text_reading::specs::Parsing::sees))]
fn subscripts_given(
    alloc: Global,
    cursor: &mut Cursor<'_>,
    depth: usize,
) -> Result<Items<Expression>, ScriptStop>
    ensures { Reads (read spec.subscripts_given depth cursor.old) result cursor.new }
{
    if !cursor.sees(Kind::OpenArgs) {
        return Ok(Items::new(alloc));
    }
    subscripts(alloc, cursor, depth)
}

/// A global, with its subscripts.
#[cycle(expression)]
#[tactic(auto, unfolding(crate::specs::ScriptGrammar::global, text_reading::specs::Phrases::parser, text_reading::specs::Phrases::limited, text_reading::specs::Parsing::pick, text_reading::specs::Parsing::either, text_reading::specs::Parsing::sees))]
pub fn global(
    alloc: Global,
    cursor: &mut Cursor<'_>,
    spot: Spot,
) -> Result<GlobalReference, ScriptStop>
    ensures { Reads (read spec.global spot cursor.old) result cursor.new }
{
    opens(alloc, cursor, Kind::Caret, spot.barred)?;
    let name = global_name(alloc, cursor)?;
    let subs = subscripts_given(alloc, cursor, spot.depth)?;
    Ok(GlobalReference { name, subs })
}

/// A variable or a global.
#[cycle(expression)]
#[tactic(auto, unfolding(crate::specs::ScriptGrammar::some_place, text_reading::specs::Phrases::parser, text_reading::specs::Phrases::limited, text_reading::specs::Parsing::pick, text_reading::specs::Parsing::either, text_reading::specs::Parsing::sees))]
pub fn some_place(alloc: Global, cursor: &mut Cursor<'_>, spot: Spot) -> Result<Place, ScriptStop>
    ensures { Reads (read spec.some_place spot cursor.old) result cursor.new }
{
    if cursor.sees(Kind::Name) {
        return Ok(Place::Variable(variable(alloc, cursor, spot.barred)?));
    }
    Ok(Place::Global(global(alloc, cursor, spot)?))
}

/// A member, behind its dot.
#[cycle(expression)]
#[tactic(auto, unfolding(crate::specs::ScriptGrammar::member, text_reading::specs::Phrases::parser, text_reading::specs::Phrases::limited, text_reading::specs::Parsing::pick, text_reading::specs::Parsing::either, text_reading::specs::Parsing::sees))]
fn member(alloc: Global, cursor: &mut Cursor<'_>, depth: usize) -> Result<Member, ScriptStop>
    ensures { Reads (read spec.member depth cursor.old) result cursor.new }
{
    let name = member_name(alloc, cursor)?;
    let args = args_given(alloc, cursor, depth)?;
    Ok(Member { name, args })
}

/// `( expr )`
#[cycle(expression)]
#[tactic(auto, unfolding(crate::specs::ScriptGrammar::parens, text_reading::specs::Phrases::parser, text_reading::specs::Phrases::limited, text_reading::specs::Parsing::pick, text_reading::specs::Parsing::either, text_reading::specs::Parsing::sees), using(crate::proofs::RuleReading::passed))]
fn parens(alloc: Global, cursor: &mut Cursor<'_>, spot: Spot) -> Result<Expression, ScriptStop>
    ensures { Reads (read spec.parens spot cursor.old) result cursor.new }
{
    let can = cursor.sees(Kind::Open);
    cursor.pick(alloc, can, opening(spot))?;
    let inside = nested_inside(alloc, cursor, spot.depth + 1)?;
    cursor.mark(alloc, Kind::Close)?;
    Ok(inside)
}

/// A function of values.
#[cycle(expression)]
#[tactic(auto, unfolding(crate::specs::ScriptGrammar::function, text_reading::specs::Phrases::parser, text_reading::specs::Phrases::limited, text_reading::specs::Parsing::pick, text_reading::specs::Parsing::either, text_reading::specs::Parsing::sees))]
fn function(alloc: Global, cursor: &mut Cursor<'_>, spot: Spot) -> Result<Expression, ScriptStop>
    ensures { Reads (read spec.function spot cursor.old) result cursor.new }
{
    let function = function_word(alloc, cursor, spot.barred)?;
    let args = counted_args(alloc, cursor, spot.depth, function)?;
    Ok(Expression::Function(function, args))
}

/// The arguments of the function of this word.
#[cycle(expression)]
#[tactic(auto, unfolding(crate::specs::ScriptGrammar::looked_args, text_reading::specs::Phrases::parser, text_reading::specs::Phrases::limited, text_reading::specs::Parsing::pick, text_reading::specs::Parsing::either, text_reading::specs::Parsing::sees))]
fn looked_args(
    alloc: Global,
    cursor: &mut Cursor<'_>,
    depth: usize,
    kind: Kind,
) -> Result<Looked, ScriptStop>
    ensures { Reads (read spec.looked_args (depth, kind) cursor.old) result cursor.new }
{
    looking_args(alloc, cursor, depth, is_data(kind))
}

/// A function that looks at a variable or a global.
#[cycle(expression)]
#[tactic(auto, unfolding(crate::specs::ScriptGrammar::looking_function, text_reading::specs::Phrases::parser, text_reading::specs::Phrases::limited, text_reading::specs::Parsing::pick, text_reading::specs::Parsing::either, text_reading::specs::Parsing::sees))]
fn looking_function(
    alloc: Global,
    cursor: &mut Cursor<'_>,
    spot: Spot,
) -> Result<Expression, ScriptStop>
    ensures { Reads (read spec.looking_function spot cursor.old) result cursor.new }
{
    let kind = looking_word(alloc, cursor, spot.barred)?;
    let looked = looked_args(alloc, cursor, spot.depth, kind)?;
    Ok(looked_as(alloc, kind, looked)?)
}

/// `$ORDER`
#[cycle(expression)]
#[tactic(auto, unfolding(crate::specs::ScriptGrammar::order_function, text_reading::specs::Phrases::parser, text_reading::specs::Phrases::limited, text_reading::specs::Parsing::pick, text_reading::specs::Parsing::either, text_reading::specs::Parsing::sees))]
fn order_function(
    alloc: Global,
    cursor: &mut Cursor<'_>,
    spot: Spot,
) -> Result<Expression, ScriptStop>
    ensures { Reads (read spec.order_function spot cursor.old) result cursor.new }
{
    opens(alloc, cursor, Kind::Order, spot.barred)?;
    Ok(Expression::Order(ordering_args(alloc, cursor, spot.depth)?))
}

/// A method of a class.
#[cycle(expression)]
#[tactic(auto, unfolding(crate::specs::ScriptGrammar::class_call, text_reading::specs::Phrases::parser, text_reading::specs::Phrases::limited, text_reading::specs::Parsing::pick, text_reading::specs::Parsing::either, text_reading::specs::Parsing::sees))]
fn class_call(alloc: Global, cursor: &mut Cursor<'_>, spot: Spot) -> Result<Expression, ScriptStop>
    ensures { Reads (read spec.class_call spot cursor.old) result cursor.new }
{
    opens(alloc, cursor, Kind::ClassOpen, spot.barred)?;
    let class = ClassName(class_name(alloc, cursor)?);
    cursor.mark(alloc, Kind::ClassClose)?;
    let member = member_name(alloc, cursor)?;
    let args = args(alloc, cursor, spot.depth)?;
    Ok(Expression::ClassCall {
        class,
        member,
        args,
    })
}

/// A member of the object whose method runs.
#[cycle(expression)]
#[tactic(auto, unfolding(crate::specs::ScriptGrammar::own, text_reading::specs::Phrases::parser, text_reading::specs::Phrases::limited, text_reading::specs::Parsing::pick, text_reading::specs::Parsing::either, text_reading::specs::Parsing::sees))]
fn own(alloc: Global, cursor: &mut Cursor<'_>, spot: Spot) -> Result<Expression, ScriptStop>
    ensures { Reads (read spec.own spot cursor.old) result cursor.new }
{
    opens(alloc, cursor, Kind::Own, spot.barred)?;
    Ok(Expression::Own(member(alloc, cursor, spot.depth)?))
}

/// What ends in arguments.
#[cycle(expression)]
#[tactic(auto, unfolding(crate::specs::ScriptGrammar::called, text_reading::specs::Phrases::parser, text_reading::specs::Phrases::limited, text_reading::specs::Parsing::pick, text_reading::specs::Parsing::either, text_reading::specs::Parsing::sees))]
pub fn called(alloc: Global, cursor: &mut Cursor<'_>, spot: Spot) -> Result<Expression, ScriptStop>
    ensures { Reads (read spec.called spot cursor.old) result cursor.new }
{
    if is_function(cursor.peek()) {
        return function(alloc, cursor, spot);
    }
    if is_looking(cursor.peek()) {
        return looking_function(alloc, cursor, spot);
    }
    if cursor.sees(Kind::Order) {
        return order_function(alloc, cursor, spot);
    }
    class_call(alloc, cursor, spot)
}

/// The value of a variable or a global.
#[cycle(expression)]
#[tactic(auto, unfolding(crate::specs::ScriptGrammar::place_value, text_reading::specs::Phrases::parser, text_reading::specs::Phrases::limited, text_reading::specs::Parsing::pick, text_reading::specs::Parsing::either, text_reading::specs::Parsing::sees))]
fn place_value(alloc: Global, cursor: &mut Cursor<'_>, spot: Spot) -> Result<Expression, ScriptStop>
    ensures { Reads (read spec.place_value spot cursor.old) result cursor.new }
{
    Ok(Expression::Value(some_place(alloc, cursor, spot)?))
}

/// What neither ends in arguments nor begins with `..`.
#[cycle(expression)]
#[tactic(auto, unfolding(crate::specs::ScriptGrammar::uncalled, text_reading::specs::Phrases::parser, text_reading::specs::Phrases::limited, text_reading::specs::Parsing::pick, text_reading::specs::Parsing::either, text_reading::specs::Parsing::sees))]
pub fn uncalled(
    alloc: Global,
    cursor: &mut Cursor<'_>,
    spot: Spot,
) -> Result<Expression, ScriptStop>
    ensures { Reads (read spec.uncalled spot cursor.old) result cursor.new }
{
    if cursor.sees(Kind::Open) {
        return parens(alloc, cursor, spot);
    }
    if is_number(cursor.peek()) {
        return number(alloc, cursor, spot.barred);
    }
    if is_text(cursor.peek()) {
        return string(alloc, cursor, spot.barred);
    }
    if is_special(cursor.peek()) {
        return special(alloc, cursor, spot.barred);
    }
    place_value(alloc, cursor, spot)
}

/// An operand without its signs and members.
#[cycle(expression)]
#[tactic(auto, unfolding(crate::specs::ScriptGrammar::primary, text_reading::specs::Phrases::parser, text_reading::specs::Phrases::limited, text_reading::specs::Parsing::pick, text_reading::specs::Parsing::either, text_reading::specs::Parsing::sees))]
pub fn primary(alloc: Global, cursor: &mut Cursor<'_>, spot: Spot) -> Result<Expression, ScriptStop>
    ensures { Reads (read spec.primary spot cursor.old) result cursor.new }
{
    if begins_called(cursor.peek()) {
        return called(alloc, cursor, spot);
    }
    if cursor.sees(Kind::Own) {
        return own(alloc, cursor, spot);
    }
    uncalled(alloc, cursor, spot)
}

/// A member behind others.
#[cycle(expression)]
#[tactic(auto, unfolding(crate::specs::ScriptGrammar::further_member, text_reading::specs::Phrases::parser, text_reading::specs::Phrases::limited, text_reading::specs::Parsing::pick, text_reading::specs::Parsing::either, text_reading::specs::Parsing::sees))]
fn further_member(
    alloc: Global,
    cursor: &mut Cursor<'_>,
    depth: usize,
    mut found: Items<Member>,
) -> Result<Items<Member>, ScriptStop>
    ensures { Reads (read spec.further_member (depth, found) cursor.old) result cursor.new }
{
    cursor.mark(alloc, Kind::Dot)?;
    found.push(member(alloc, cursor, depth)?)?;
    Ok(found)
}

/// All members behind an object.
#[cycle(expression)]
fn members(
    alloc: Global,
    cursor: &mut Cursor<'_>,
    depth: usize,
) -> Result<Items<Member>, ScriptStop>
    ensures { Reads (read spec.members depth cursor.old) result cursor.new }
{
    let mut found = Items::new(alloc);
    'turns: while cursor.sees(Kind::Dot) {
        match further_member(alloc, cursor, depth, found) {
            Ok(more) => found = more,
            Err(stop) => return Err(stop),
        }
    }
    Ok(found)
}

fn only_first(bars: bool, signs: &[Sign]) -> bool
    ensures { result ≡ spec.only_first bars signs.now }
{
    bars && signs.is_empty()
}

/// A sign behind others.
#[tactic(auto, unfolding(crate::specs::ScriptGrammar::one_sign, text_reading::specs::Phrases::parser, text_reading::specs::Phrases::limited, text_reading::specs::Parsing::pick, text_reading::specs::Parsing::either, text_reading::specs::Parsing::sees))]
fn one_sign(
    alloc: Global,
    cursor: &mut Cursor<'_>,
    bars: bool,
    mut found: Items<Sign>,
) -> Result<Items<Sign>, ScriptStop>
    ensures { Reads (read spec.one_sign (bars, found) cursor.old) result cursor.new }
{
    let kind = cursor.peek();
    let bars = only_first(bars, found.as_slice());
    cursor.pick(alloc, is_sign(kind), barred(bars))?;
    found.push(sign_of(kind))?;
    Ok(found)
}

/// All signs before an operand.
pub fn signs(alloc: Global, cursor: &mut Cursor<'_>, bars: bool) -> Result<Items<Sign>, ScriptStop>
    ensures { Reads (read spec.signs bars cursor.old) result cursor.new }
{
    let mut found = Items::new(alloc);
    'turns: while is_sign(cursor.peek()) {
        match one_sign(alloc, cursor, bars, found) {
            Ok(more) => found = more,
            Err(stop) => return Err(stop),
        }
    }
    Ok(found)
}

fn behind_signs(spot: Spot, signs: &Items<Sign>) -> Spot
    ensures { result ≡ spec.behind_signs spot signs.now }
{
    Spot {
        depth: spot.depth,
        barred: only_first(spot.barred, signs.as_slice()),
    }
}

/// An operand behind its signs.
#[cycle(expression)]
#[tactic(auto, unfolding(crate::specs::ScriptGrammar::unsigned, text_reading::specs::Phrases::parser, text_reading::specs::Phrases::limited, text_reading::specs::Parsing::pick, text_reading::specs::Parsing::either, text_reading::specs::Parsing::sees))]
fn unsigned(
    alloc: Global,
    cursor: &mut Cursor<'_>,
    spot: Spot,
    signs: Items<Sign>,
) -> Result<Expression, ScriptStop>
    ensures { Reads (read spec.unsigned (spot, signs) cursor.old) result cursor.new }
{
    let behind = behind_signs(spot, &signs);
    let primary = primary(alloc, cursor, behind)?;
    let members = members(alloc, cursor, spot.depth)?;
    Ok(operand_of(alloc, signs, primary, members)?)
}

/// An operand.
#[cycle(expression)]
#[tactic(auto, unfolding(crate::specs::ScriptGrammar::operand, text_reading::specs::Phrases::parser, text_reading::specs::Phrases::limited, text_reading::specs::Parsing::pick, text_reading::specs::Parsing::either, text_reading::specs::Parsing::sees))]
fn operand(alloc: Global, cursor: &mut Cursor<'_>, spot: Spot) -> Result<Expression, ScriptStop>
    ensures { Reads (read spec.operand spot cursor.old) result cursor.new }
{
    let signs = signs(alloc, cursor, spot.barred)?;
    unsigned(alloc, cursor, spot, signs)
}

/// An operation behind others.
#[cycle(expression)]
#[tactic(auto, unfolding(crate::specs::ScriptGrammar::further_operation, text_reading::specs::Phrases::parser, text_reading::specs::Phrases::limited, text_reading::specs::Parsing::pick, text_reading::specs::Parsing::either, text_reading::specs::Parsing::sees))]
fn further_operation(
    alloc: Global,
    cursor: &mut Cursor<'_>,
    depth: usize,
    mut found: Items<Operation>,
) -> Result<Items<Operation>, ScriptStop>
    ensures { Reads (read spec.further_operation (depth, found) cursor.old) result cursor.new }
{
    let operator = operator(alloc, cursor)?;
    let right = operand(alloc, cursor, plain(depth))?;
    found.push(Operation { operator, right })?;
    Ok(found)
}

/// All operations behind an operand.
#[cycle(expression)]
fn operations(
    alloc: Global,
    cursor: &mut Cursor<'_>,
    depth: usize,
) -> Result<Items<Operation>, ScriptStop>
    ensures { Reads (read spec.operations depth cursor.old) result cursor.new }
{
    let mut found = Items::new(alloc);
    'turns: while is_operator(cursor.peek()) {
        match further_operation(alloc, cursor, depth, found) {
            Ok(more) => found = more,
            Err(stop) => return Err(stop),
        }
    }
    Ok(found)
}

/// An expression.
#[cycle(expression)]
#[tactic(auto, unfolding(crate::specs::ScriptGrammar::expression, text_reading::specs::Phrases::parser, text_reading::specs::Phrases::limited, text_reading::specs::Parsing::pick, text_reading::specs::Parsing::either, text_reading::specs::Parsing::sees))]
pub fn expression(
    alloc: Global,
    cursor: &mut Cursor<'_>,
    spot: Spot,
) -> Result<Expression, ScriptStop>
    ensures { Reads (read spec.expression spot cursor.old) result cursor.new }
{
    let first = operand(alloc, cursor, spot)?;
    let operations = operations(alloc, cursor, spot.depth)?;
    Ok(with_operations(alloc, first, operations)?)
}

/// An expression that may begin with any token.
#[cycle(expression)]
#[tactic(auto, unfolding(crate::specs::ScriptGrammar::value, text_reading::specs::Phrases::parser, text_reading::specs::Phrases::limited, text_reading::specs::Parsing::pick, text_reading::specs::Parsing::either, text_reading::specs::Parsing::sees))]
pub fn value(alloc: Global, cursor: &mut Cursor<'_>, depth: usize) -> Result<Expression, ScriptStop>
    ensures { Reads (read spec.value depth cursor.old) result cursor.new }
{
    expression(alloc, cursor, plain(depth))
}

/// A comma, where one more argument has room.
#[tactic(auto, unfolding(crate::specs::ScriptGrammar::comma, text_reading::specs::Phrases::parser, text_reading::specs::Phrases::limited, text_reading::specs::Parsing::pick, text_reading::specs::Parsing::either, text_reading::specs::Parsing::sees))]
fn comma(
    alloc: Global,
    cursor: &mut Cursor<'_>,
    calling: Calling,
    found: &Items<Expression>,
) -> Result<(), ScriptStop>
    ensures { Reads (read spec.comma (calling, found.now) cursor.old) result cursor.new }
{
    let can = cursor.sees(Kind::Comma);
    cursor.pick(alloc, can, too_many(calling, found.len()))?;
    Ok(())
}

/// A closing parenthesis, where there are enough arguments.
#[tactic(auto, unfolding(crate::specs::ScriptGrammar::close_args, text_reading::specs::Phrases::parser, text_reading::specs::Phrases::limited, text_reading::specs::Parsing::pick, text_reading::specs::Parsing::either, text_reading::specs::Parsing::sees))]
fn close_args(
    alloc: Global,
    cursor: &mut Cursor<'_>,
    calling: Calling,
    found: &Items<Expression>,
) -> Result<(), ScriptStop>
    ensures { Reads (read spec.close_args (calling, found.now) cursor.old) result cursor.new }
{
    let can = cursor.sees(Kind::Close);
    cursor.pick(alloc, can, too_few(calling, found.len()))?;
    Ok(())
}

/// An argument behind others.
#[cycle(expression)]
#[tactic(auto, unfolding(crate::specs::ScriptGrammar::further_arg, text_reading::specs::Phrases::parser, text_reading::specs::Phrases::limited, text_reading::specs::Parsing::pick, text_reading::specs::Parsing::either, text_reading::specs::Parsing::sees))]
fn further_arg(
    alloc: Global,
    cursor: &mut Cursor<'_>,
    calling: Calling,
    mut found: Items<Expression>,
) -> Result<Items<Expression>, ScriptStop>
    ensures { Reads (read spec.further_arg (calling, found) cursor.old) result cursor.new }
{
    comma(alloc, cursor, calling, &found)?;
    found.push(value(alloc, cursor, calling.depth)?)?;
    Ok(found)
}

/// All arguments behind the first one.
#[cycle(expression)]
fn more_args(
    alloc: Global,
    cursor: &mut Cursor<'_>,
    calling: Calling,
    mut found: Items<Expression>,
) -> Result<Items<Expression>, ScriptStop>
    ensures { Reads (read spec.more_args (calling, found) cursor.old) result cursor.new }
{
    'turns: while cursor.sees(Kind::Comma) {
        match further_arg(alloc, cursor, calling, found) {
            Ok(more) => found = more,
            Err(stop) => return Err(stop),
        }
    }
    Ok(found)
}

/// One or more arguments.
#[cycle(expression)]
#[tactic(auto, unfolding(crate::specs::ScriptGrammar::some_args, text_reading::specs::Phrases::parser, text_reading::specs::Phrases::limited, text_reading::specs::Parsing::pick, text_reading::specs::Parsing::either, text_reading::specs::Parsing::sees))]
fn some_args(
    alloc: Global,
    cursor: &mut Cursor<'_>,
    calling: Calling,
) -> Result<Items<Expression>, ScriptStop>
    ensures { Reads (read spec.some_args calling cursor.old) result cursor.new }
{
    let mut found = Items::new(alloc);
    found.push(value(alloc, cursor, calling.depth)?)?;
    more_args(alloc, cursor, calling, found)
}

/// Arguments, if there are any.
#[cycle(expression)]
#[tactic(auto, unfolding(crate::specs::ScriptGrammar::any_args, text_reading::specs::Phrases::parser, text_reading::specs::Phrases::limited, text_reading::specs::Parsing::pick, text_reading::specs::Parsing::either, text_reading::specs::Parsing::sees))]
fn any_args(
    alloc: Global,
    cursor: &mut Cursor<'_>,
    calling: Calling,
) -> Result<Items<Expression>, ScriptStop>
    ensures { Reads (read spec.any_args calling cursor.old) result cursor.new }
{
    if !begins_operand(cursor.peek()) {
        return Ok(Items::new(alloc));
    }
    some_args(alloc, cursor, calling)
}

/// Expressions up to a closing parenthesis.
#[cycle(expression)]
#[tactic(auto, unfolding(crate::specs::ScriptGrammar::listed, text_reading::specs::Phrases::parser, text_reading::specs::Phrases::limited, text_reading::specs::Parsing::pick, text_reading::specs::Parsing::either, text_reading::specs::Parsing::sees))]
fn listed(
    alloc: Global,
    cursor: &mut Cursor<'_>,
    calling: Calling,
) -> Result<Items<Expression>, ScriptStop>
    ensures { Reads (read spec.listed calling cursor.old) result cursor.new }
{
    let found = some_args(alloc, cursor, calling)?;
    close_args(alloc, cursor, calling, &found)?;
    Ok(found)
}

/// Arguments up to a closing parenthesis.
#[cycle(expression)]
#[tactic(auto, unfolding(crate::specs::ScriptGrammar::arguments, text_reading::specs::Phrases::parser, text_reading::specs::Phrases::limited, text_reading::specs::Parsing::pick, text_reading::specs::Parsing::either, text_reading::specs::Parsing::sees))]
fn arguments(
    alloc: Global,
    cursor: &mut Cursor<'_>,
    calling: Calling,
) -> Result<Items<Expression>, ScriptStop>
    ensures { Reads (read spec.arguments calling cursor.old) result cursor.new }
{
    let found = any_args(alloc, cursor, calling)?;
    close_args(alloc, cursor, calling, &found)?;
    Ok(found)
}

/// A closing parenthesis where a variable or a global should stand.
#[tactic(auto, unfolding(crate::specs::ScriptGrammar::missing_place, text_reading::specs::Phrases::parser, text_reading::specs::Phrases::limited, text_reading::specs::Parsing::pick, text_reading::specs::Parsing::either, text_reading::specs::Parsing::sees))]
fn missing_place(alloc: Global, cursor: &mut Cursor<'_>) -> Result<Place, ScriptStop>
    ensures { Reads (read spec.missing_place tt cursor.old) result cursor.new }
{
    miscount(alloc, cursor, Kind::Close)?;
    Ok(Place::Variable(Text::new(alloc)))
}

/// The variable or global that a function looks at.
#[cycle(expression)]
#[tactic(auto, unfolding(crate::specs::ScriptGrammar::looked_place, text_reading::specs::Phrases::parser, text_reading::specs::Phrases::limited, text_reading::specs::Parsing::pick, text_reading::specs::Parsing::either, text_reading::specs::Parsing::sees))]
fn looked_place(alloc: Global, cursor: &mut Cursor<'_>, depth: usize) -> Result<Place, ScriptStop>
    ensures { Reads (read spec.looked_place depth cursor.old) result cursor.new }
{
    if cursor.sees(Kind::Close) {
        return missing_place(alloc, cursor);
    }
    some_place(alloc, cursor, plain(depth))
}

/// The comma before a second argument, where one has room.
#[tactic(auto, unfolding(crate::specs::ScriptGrammar::second_comma, text_reading::specs::Phrases::parser, text_reading::specs::Phrases::limited, text_reading::specs::Parsing::pick, text_reading::specs::Parsing::either, text_reading::specs::Parsing::sees))]
fn second_comma(alloc: Global, cursor: &mut Cursor<'_>, single: bool) -> Result<(), ScriptStop>
    ensures { Reads (read spec.second_comma single cursor.old) result cursor.new }
{
    let can = cursor.sees(Kind::Comma);
    cursor.pick(alloc, can, miscounted(single))?;
    Ok(())
}

/// A second argument, up to the closing parenthesis.
#[cycle(expression)]
#[tactic(auto, unfolding(crate::specs::ScriptGrammar::second, text_reading::specs::Phrases::parser, text_reading::specs::Phrases::limited, text_reading::specs::Parsing::pick, text_reading::specs::Parsing::either, text_reading::specs::Parsing::sees))]
fn second(
    alloc: Global,
    cursor: &mut Cursor<'_>,
    depth: usize,
    single: bool,
) -> Result<Expression, ScriptStop>
    ensures { Reads (read spec.second (depth, single) cursor.old) result cursor.new }
{
    second_comma(alloc, cursor, single)?;
    let second = value(alloc, cursor, depth)?;
    closing(alloc, cursor)?;
    Ok(second)
}

/// What comes behind the first argument.
#[cycle(expression)]
#[tactic(auto, unfolding(crate::specs::ScriptGrammar::looked_rest, text_reading::specs::Phrases::parser, text_reading::specs::Phrases::limited, text_reading::specs::Parsing::pick, text_reading::specs::Parsing::either, text_reading::specs::Parsing::sees))]
fn looked_rest(
    alloc: Global,
    cursor: &mut Cursor<'_>,
    depth: usize,
    single: bool,
) -> Result<Option<Expression>, ScriptStop>
    ensures { Reads (read spec.looked_rest (depth, single) cursor.old) result cursor.new }
{
    if cursor.sees(Kind::Comma) {
        return Ok(Some(second(alloc, cursor, depth, single)?));
    }
    cursor.mark(alloc, Kind::Close)?;
    Ok(None)
}

/// The arguments of a function that looks at a variable or a global.
#[cycle(expression)]
#[tactic(auto, unfolding(crate::specs::ScriptGrammar::looking, text_reading::specs::Phrases::parser, text_reading::specs::Phrases::limited, text_reading::specs::Parsing::pick, text_reading::specs::Parsing::either, text_reading::specs::Parsing::sees))]
fn looking(
    alloc: Global,
    cursor: &mut Cursor<'_>,
    depth: usize,
    single: bool,
) -> Result<Looked, ScriptStop>
    ensures { Reads (read spec.looking (depth, single) cursor.old) result cursor.new }
{
    let place = looked_place(alloc, cursor, depth)?;
    let second = looked_rest(alloc, cursor, depth, single)?;
    Ok(Looked { place, second })
}

/// A global with subscripts.
#[cycle(expression)]
#[tactic(auto, unfolding(crate::specs::ScriptGrammar::ordered_global, text_reading::specs::Phrases::parser, text_reading::specs::Phrases::limited, text_reading::specs::Parsing::pick, text_reading::specs::Parsing::either, text_reading::specs::Parsing::sees))]
fn ordered_global(
    alloc: Global,
    cursor: &mut Cursor<'_>,
    depth: usize,
) -> Result<GlobalReference, ScriptStop>
    ensures { Reads (read spec.ordered_global depth cursor.old) result cursor.new }
{
    opens(alloc, cursor, Kind::Caret, false)?;
    let name = global_name(alloc, cursor)?;
    let subs = subscripts(alloc, cursor, depth)?;
    Ok(GlobalReference { name, subs })
}

/// A closing parenthesis where a global should stand.
#[tactic(auto, unfolding(crate::specs::ScriptGrammar::missing_global, text_reading::specs::Phrases::parser, text_reading::specs::Phrases::limited, text_reading::specs::Parsing::pick, text_reading::specs::Parsing::either, text_reading::specs::Parsing::sees))]
fn missing_global(alloc: Global, cursor: &mut Cursor<'_>) -> Result<GlobalReference, ScriptStop>
    ensures { Reads (read spec.missing_global tt cursor.old) result cursor.new }
{
    miscount(alloc, cursor, Kind::Close)?;
    Ok(GlobalReference {
        name: Text::new(alloc),
        subs: Items::new(alloc),
    })
}

/// The global of `$ORDER`.
#[cycle(expression)]
#[tactic(auto, unfolding(crate::specs::ScriptGrammar::ordered, text_reading::specs::Phrases::parser, text_reading::specs::Phrases::limited, text_reading::specs::Parsing::pick, text_reading::specs::Parsing::either, text_reading::specs::Parsing::sees))]
fn ordered(
    alloc: Global,
    cursor: &mut Cursor<'_>,
    depth: usize,
) -> Result<GlobalReference, ScriptStop>
    ensures { Reads (read spec.ordered depth cursor.old) result cursor.new }
{
    if cursor.sees(Kind::Close) {
        return missing_global(alloc, cursor);
    }
    ordered_global(alloc, cursor, depth)
}

/// The argument of `$ORDER`, up to its closing parenthesis.
#[cycle(expression)]
#[tactic(auto, unfolding(crate::specs::ScriptGrammar::ordering, text_reading::specs::Phrases::parser, text_reading::specs::Phrases::limited, text_reading::specs::Parsing::pick, text_reading::specs::Parsing::either, text_reading::specs::Parsing::sees))]
fn ordering(
    alloc: Global,
    cursor: &mut Cursor<'_>,
    depth: usize,
) -> Result<GlobalReference, ScriptStop>
    ensures { Reads (read spec.ordering depth cursor.old) result cursor.new }
{
    let global = ordered(alloc, cursor, depth)?;
    closing(alloc, cursor)?;
    Ok(global)
}
