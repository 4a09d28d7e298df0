//! The arguments of commands. Each function reads the phrase of its name.

ghost use Rattle.std.specs.Prelude.{◌≡◌};
ghost use Rattle.text_reading.specs.Parsing.{Reads};
ghost use Rattle.os_expressions.specs.Trees as tree;
ghost use Rattle.os_expressions.specs.ScriptGrammar as spec;
ghost use Rattle.os_expressions.specs.ScriptGrammar.{read};

use crate::calls::call;
use crate::spots::{any_global, any_place};
use crate::targets::some_target;
use obj_kinds::Mode;
use os_expressions::value;
use os_kinds::{Assignment, Claim, Expression, LockAction, Output, Place};
use script_tokens::{Cursor, Kind, ScriptStop};
use sqlite_items::Items;
use std::alloc::Global;

fn mode_of(shared: bool) -> Mode
    ensures { result ≡ tree.mode_of shared }
{
    if shared {
        Mode::Shared
    } else {
        Mode::Exclusive
    }
}

/// An argument of a `SET`.
#[tactic(auto, unfolding(os_expressions::specs::ScriptGrammar::assignment, text_reading::specs::Phrases::parser, text_reading::specs::Phrases::limited, text_reading::specs::Parsing::pick, text_reading::specs::Parsing::either, text_reading::specs::Parsing::sees))]
fn assignment(
    alloc: Global,
    cursor: &mut Cursor<'_>,
    depth: usize,
) -> Result<Assignment, ScriptStop>
    ensures { Reads (read spec.assignment depth cursor.old) result cursor.new }
{
    let target = some_target(alloc, cursor, depth)?;
    cursor.mark(alloc, Kind::Equals)?;
    let value = value(alloc, cursor, depth)?;
    Ok(Assignment { target, value })
}

/// An argument of a `SET` behind others.
#[tactic(auto, unfolding(os_expressions::specs::ScriptGrammar::further_assignment, text_reading::specs::Phrases::parser, text_reading::specs::Phrases::limited, text_reading::specs::Parsing::pick, text_reading::specs::Parsing::either, text_reading::specs::Parsing::sees))]
fn further_assignment(
    alloc: Global,
    cursor: &mut Cursor<'_>,
    depth: usize,
    mut found: Items<Assignment>,
) -> Result<Items<Assignment>, ScriptStop>
    ensures { Reads (read spec.further_assignment (depth, found) cursor.old) result cursor.new }
{
    cursor.mark(alloc, Kind::Comma)?;
    found.push(assignment(alloc, cursor, depth)?)?;
    Ok(found)
}

/// All behind the first one.
fn more_assignments(
    alloc: Global,
    cursor: &mut Cursor<'_>,
    depth: usize,
    mut found: Items<Assignment>,
) -> Result<Items<Assignment>, ScriptStop>
    ensures { Reads (read spec.more_assignments (depth, found) cursor.old) result cursor.new }
{
    'turns: while cursor.sees(Kind::Comma) {
        match further_assignment(alloc, cursor, depth, found) {
            Ok(more) => found = more,
            Err(stop) => return Err(stop),
        }
    }
    Ok(found)
}

/// An argument of a `SET`, or several with commas between them.
#[tactic(auto, unfolding(os_expressions::specs::ScriptGrammar::assignments, text_reading::specs::Phrases::parser, text_reading::specs::Phrases::limited, text_reading::specs::Parsing::pick, text_reading::specs::Parsing::either, text_reading::specs::Parsing::sees))]
pub fn assignments(
    alloc: Global,
    cursor: &mut Cursor<'_>,
    depth: usize,
) -> Result<Items<Assignment>, ScriptStop>
    ensures { Reads (read spec.assignments depth cursor.old) result cursor.new }
{
    let mut found = Items::new(alloc);
    found.push(assignment(alloc, cursor, depth)?)?;
    more_assignments(alloc, cursor, depth, found)
}

/// An argument of a `WRITE`.
#[tactic(auto, unfolding(os_expressions::specs::ScriptGrammar::some_output, text_reading::specs::Phrases::parser, text_reading::specs::Phrases::limited, text_reading::specs::Parsing::pick, text_reading::specs::Parsing::either, text_reading::specs::Parsing::sees))]
fn some_output(alloc: Global, cursor: &mut Cursor<'_>, depth: usize) -> Result<Output, ScriptStop>
    ensures { Reads (read spec.some_output depth cursor.old) result cursor.new }
{
    if cursor.sees(Kind::Line) {
        cursor.mark(alloc, Kind::Line)?;
        return Ok(Output::NewLine);
    }
    Ok(Output::Value(value(alloc, cursor, depth)?))
}

/// An argument of a `WRITE` behind others.
#[tactic(auto, unfolding(os_expressions::specs::ScriptGrammar::further_output, text_reading::specs::Phrases::parser, text_reading::specs::Phrases::limited, text_reading::specs::Parsing::pick, text_reading::specs::Parsing::either, text_reading::specs::Parsing::sees))]
fn further_output(
    alloc: Global,
    cursor: &mut Cursor<'_>,
    depth: usize,
    mut found: Items<Output>,
) -> Result<Items<Output>, ScriptStop>
    ensures { Reads (read spec.further_output (depth, found) cursor.old) result cursor.new }
{
    cursor.mark(alloc, Kind::Comma)?;
    found.push(some_output(alloc, cursor, depth)?)?;
    Ok(found)
}

/// All behind the first one.
fn more_outputs(
    alloc: Global,
    cursor: &mut Cursor<'_>,
    depth: usize,
    mut found: Items<Output>,
) -> Result<Items<Output>, ScriptStop>
    ensures { Reads (read spec.more_outputs (depth, found) cursor.old) result cursor.new }
{
    'turns: while cursor.sees(Kind::Comma) {
        match further_output(alloc, cursor, depth, found) {
            Ok(more) => found = more,
            Err(stop) => return Err(stop),
        }
    }
    Ok(found)
}

/// An argument of a `WRITE`, or several with commas between them.
#[tactic(auto, unfolding(os_expressions::specs::ScriptGrammar::outputs, text_reading::specs::Phrases::parser, text_reading::specs::Phrases::limited, text_reading::specs::Parsing::pick, text_reading::specs::Parsing::either, text_reading::specs::Parsing::sees))]
pub fn outputs(
    alloc: Global,
    cursor: &mut Cursor<'_>,
    depth: usize,
) -> Result<Items<Output>, ScriptStop>
    ensures { Reads (read spec.outputs depth cursor.old) result cursor.new }
{
    let mut found = Items::new(alloc);
    found.push(some_output(alloc, cursor, depth)?)?;
    more_outputs(alloc, cursor, depth, found)
}

/// A call behind others.
#[tactic(auto, unfolding(os_expressions::specs::ScriptGrammar::further_call, text_reading::specs::Phrases::parser, text_reading::specs::Phrases::limited, text_reading::specs::Parsing::pick, text_reading::specs::Parsing::either, text_reading::specs::Parsing::sees))]
fn further_call(
    alloc: Global,
    cursor: &mut Cursor<'_>,
    depth: usize,
    mut found: Items<Expression>,
) -> Result<Items<Expression>, ScriptStop>
    ensures { Reads (read spec.further_call (depth, found) cursor.old) result cursor.new }
{
    cursor.mark(alloc, Kind::Comma)?;
    found.push(call(alloc, cursor, depth)?)?;
    Ok(found)
}

/// All behind the first one.
fn more_calls(
    alloc: Global,
    cursor: &mut Cursor<'_>,
    depth: usize,
    mut found: Items<Expression>,
) -> Result<Items<Expression>, ScriptStop>
    ensures { Reads (read spec.more_calls (depth, found) cursor.old) result cursor.new }
{
    'turns: while cursor.sees(Kind::Comma) {
        match further_call(alloc, cursor, depth, found) {
            Ok(more) => found = more,
            Err(stop) => return Err(stop),
        }
    }
    Ok(found)
}

/// A call, or several with commas between them.
#[tactic(auto, unfolding(os_expressions::specs::ScriptGrammar::calls, text_reading::specs::Phrases::parser, text_reading::specs::Phrases::limited, text_reading::specs::Parsing::pick, text_reading::specs::Parsing::either, text_reading::specs::Parsing::sees))]
pub fn calls(
    alloc: Global,
    cursor: &mut Cursor<'_>,
    depth: usize,
) -> Result<Items<Expression>, ScriptStop>
    ensures { Reads (read spec.calls depth cursor.old) result cursor.new }
{
    let mut found = Items::new(alloc);
    found.push(call(alloc, cursor, depth)?)?;
    more_calls(alloc, cursor, depth, found)
}

/// A variable or a global behind others.
#[tactic(auto, unfolding(os_expressions::specs::ScriptGrammar::further_place, text_reading::specs::Phrases::parser, text_reading::specs::Phrases::limited, text_reading::specs::Parsing::pick, text_reading::specs::Parsing::either, text_reading::specs::Parsing::sees))]
fn further_place(
    alloc: Global,
    cursor: &mut Cursor<'_>,
    depth: usize,
    mut found: Items<Place>,
) -> Result<Items<Place>, ScriptStop>
    ensures { Reads (read spec.further_place (depth, found) cursor.old) result cursor.new }
{
    cursor.mark(alloc, Kind::Comma)?;
    let place = any_place(alloc, cursor, depth)?;
    found.push(place)?;
    Ok(found)
}

/// All behind the first one.
fn more_places(
    alloc: Global,
    cursor: &mut Cursor<'_>,
    depth: usize,
    mut found: Items<Place>,
) -> Result<Items<Place>, ScriptStop>
    ensures { Reads (read spec.more_places (depth, found) cursor.old) result cursor.new }
{
    'turns: while cursor.sees(Kind::Comma) {
        match further_place(alloc, cursor, depth, found) {
            Ok(more) => found = more,
            Err(stop) => return Err(stop),
        }
    }
    Ok(found)
}

/// A variable or a global, or several with commas between them.
#[tactic(auto, unfolding(os_expressions::specs::ScriptGrammar::places, text_reading::specs::Phrases::parser, text_reading::specs::Phrases::limited, text_reading::specs::Parsing::pick, text_reading::specs::Parsing::either, text_reading::specs::Parsing::sees))]
pub fn places(
    alloc: Global,
    cursor: &mut Cursor<'_>,
    depth: usize,
) -> Result<Items<Place>, ScriptStop>
    ensures { Reads (read spec.places depth cursor.old) result cursor.new }
{
    let mut found = Items::new(alloc);
    let place = any_place(alloc, cursor, depth)?;
    found.push(place)?;
    more_places(alloc, cursor, depth, found)
}

/// A condition behind others.
#[tactic(auto, unfolding(os_expressions::specs::ScriptGrammar::further_condition, text_reading::specs::Phrases::parser, text_reading::specs::Phrases::limited, text_reading::specs::Parsing::pick, text_reading::specs::Parsing::either, text_reading::specs::Parsing::sees))]
fn further_condition(
    alloc: Global,
    cursor: &mut Cursor<'_>,
    depth: usize,
    mut found: Items<Expression>,
) -> Result<Items<Expression>, ScriptStop>
    ensures { Reads (read spec.further_condition (depth, found) cursor.old) result cursor.new }
{
    cursor.mark(alloc, Kind::Comma)?;
    found.push(value(alloc, cursor, depth)?)?;
    Ok(found)
}

/// All behind the first one.
fn more_conditions(
    alloc: Global,
    cursor: &mut Cursor<'_>,
    depth: usize,
    mut found: Items<Expression>,
) -> Result<Items<Expression>, ScriptStop>
    ensures { Reads (read spec.more_conditions (depth, found) cursor.old) result cursor.new }
{
    'turns: while cursor.sees(Kind::Comma) {
        match further_condition(alloc, cursor, depth, found) {
            Ok(more) => found = more,
            Err(stop) => return Err(stop),
        }
    }
    Ok(found)
}

/// A condition, or several with commas between them.
#[tactic(auto, unfolding(os_expressions::specs::ScriptGrammar::conditions, text_reading::specs::Phrases::parser, text_reading::specs::Phrases::limited, text_reading::specs::Parsing::pick, text_reading::specs::Parsing::either, text_reading::specs::Parsing::sees))]
pub fn conditions(
    alloc: Global,
    cursor: &mut Cursor<'_>,
    depth: usize,
) -> Result<Items<Expression>, ScriptStop>
    ensures { Reads (read spec.conditions depth cursor.old) result cursor.new }
{
    let mut found = Items::new(alloc);
    found.push(value(alloc, cursor, depth)?)?;
    more_conditions(alloc, cursor, depth, found)
}

/// Whether a lock is shared.
#[tactic(auto, unfolding(os_expressions::specs::ScriptGrammar::shared, text_reading::specs::Phrases::parser, text_reading::specs::Phrases::limited, text_reading::specs::Parsing::pick, text_reading::specs::Parsing::either, text_reading::specs::Parsing::sees))]
fn shared(alloc: Global, cursor: &mut Cursor<'_>) -> Result<bool, ScriptStop>
    ensures { Reads (read spec.shared tt cursor.old) result cursor.new }
{
    if !cursor.sees(Kind::Modulo) {
        return Ok(false);
    }
    cursor.mark(alloc, Kind::Modulo)?;
    cursor.mark(alloc, Kind::Shared)?;
    Ok(true)
}

/// An expression behind a colon.
#[tactic(auto, unfolding(os_expressions::specs::ScriptGrammar::after_colon, text_reading::specs::Phrases::parser, text_reading::specs::Phrases::limited, text_reading::specs::Parsing::pick, text_reading::specs::Parsing::either, text_reading::specs::Parsing::sees))]
pub fn after_colon(
    alloc: Global,
    cursor: &mut Cursor<'_>,
    depth: usize,
) -> Result<Option<Expression>, ScriptStop>
    ensures { Reads (read spec.after_colon depth cursor.old) result cursor.new }
{
    if !cursor.sees(Kind::Colon) {
        return Ok(None);
    }
    cursor.mark(alloc, Kind::Colon)?;
    Ok(Some(value(alloc, cursor, depth)?))
}

/// A lock that is asked for, behind its sign.
#[tactic(auto, unfolding(os_expressions::specs::ScriptGrammar::asked, text_reading::specs::Phrases::parser, text_reading::specs::Phrases::limited, text_reading::specs::Parsing::pick, text_reading::specs::Parsing::either, text_reading::specs::Parsing::sees))]
fn asked(
    alloc: Global,
    cursor: &mut Cursor<'_>,
    depth: usize,
    action: LockAction,
) -> Result<Claim, ScriptStop>
    ensures { Reads (read (spec.asked action) depth cursor.old) result cursor.new }
{
    let global = any_global(alloc, cursor, depth)?;
    let shared = shared(alloc, cursor)?;
    let timeout = after_colon(alloc, cursor, depth)?;
    Ok(Claim {
        action,
        global,
        mode: mode_of(shared),
        timeout,
    })
}

/// A lock that is asked for beside the others.
#[tactic(auto, unfolding(os_expressions::specs::ScriptGrammar::added, text_reading::specs::Phrases::parser, text_reading::specs::Phrases::limited, text_reading::specs::Parsing::pick, text_reading::specs::Parsing::either, text_reading::specs::Parsing::sees))]
fn added(alloc: Global, cursor: &mut Cursor<'_>, depth: usize) -> Result<Claim, ScriptStop>
    ensures { Reads (read spec.added depth cursor.old) result cursor.new }
{
    cursor.mark(alloc, Kind::Plus)?;
    asked(alloc, cursor, depth, LockAction::Add)
}

/// A lock that is given back.
#[tactic(auto, unfolding(os_expressions::specs::ScriptGrammar::given_back, text_reading::specs::Phrases::parser, text_reading::specs::Phrases::limited, text_reading::specs::Parsing::pick, text_reading::specs::Parsing::either, text_reading::specs::Parsing::sees))]
fn given_back(alloc: Global, cursor: &mut Cursor<'_>, depth: usize) -> Result<Claim, ScriptStop>
    ensures { Reads (read spec.given_back depth cursor.old) result cursor.new }
{
    cursor.mark(alloc, Kind::Minus)?;
    let global = any_global(alloc, cursor, depth)?;
    let shared = shared(alloc, cursor)?;
    Ok(Claim {
        action: LockAction::Remove,
        global,
        mode: mode_of(shared),
        timeout: None,
    })
}

/// An argument of a `LOCK`.
#[tactic(auto, unfolding(os_expressions::specs::ScriptGrammar::claim, text_reading::specs::Phrases::parser, text_reading::specs::Phrases::limited, text_reading::specs::Parsing::pick, text_reading::specs::Parsing::either, text_reading::specs::Parsing::sees))]
fn claim(alloc: Global, cursor: &mut Cursor<'_>, depth: usize) -> Result<Claim, ScriptStop>
    ensures { Reads (read spec.claim depth cursor.old) result cursor.new }
{
    if cursor.sees(Kind::Plus) {
        return added(alloc, cursor, depth);
    }
    if cursor.sees(Kind::Minus) {
        return given_back(alloc, cursor, depth);
    }
    asked(alloc, cursor, depth, LockAction::Renew)
}

/// An argument of a `LOCK` behind others.
#[tactic(auto, unfolding(os_expressions::specs::ScriptGrammar::further_claim, text_reading::specs::Phrases::parser, text_reading::specs::Phrases::limited, text_reading::specs::Parsing::pick, text_reading::specs::Parsing::either, text_reading::specs::Parsing::sees))]
fn further_claim(
    alloc: Global,
    cursor: &mut Cursor<'_>,
    depth: usize,
    mut found: Items<Claim>,
) -> Result<Items<Claim>, ScriptStop>
    ensures { Reads (read spec.further_claim (depth, found) cursor.old) result cursor.new }
{
    cursor.mark(alloc, Kind::Comma)?;
    found.push(claim(alloc, cursor, depth)?)?;
    Ok(found)
}

/// All behind the first one.
fn more_claims(
    alloc: Global,
    cursor: &mut Cursor<'_>,
    depth: usize,
    mut found: Items<Claim>,
) -> Result<Items<Claim>, ScriptStop>
    ensures { Reads (read spec.more_claims (depth, found) cursor.old) result cursor.new }
{
    'turns: while cursor.sees(Kind::Comma) {
        match further_claim(alloc, cursor, depth, found) {
            Ok(more) => found = more,
            Err(stop) => return Err(stop),
        }
    }
    Ok(found)
}

/// An argument of a `LOCK`, or several with commas between them.
#[tactic(auto, unfolding(os_expressions::specs::ScriptGrammar::claims, text_reading::specs::Phrases::parser, text_reading::specs::Phrases::limited, text_reading::specs::Parsing::pick, text_reading::specs::Parsing::either, text_reading::specs::Parsing::sees))]
pub fn claims(
    alloc: Global,
    cursor: &mut Cursor<'_>,
    depth: usize,
) -> Result<Items<Claim>, ScriptStop>
    ensures { Reads (read spec.claims depth cursor.old) result cursor.new }
{
    let mut found = Items::new(alloc);
    found.push(claim(alloc, cursor, depth)?)?;
    more_claims(alloc, cursor, depth, found)
}
