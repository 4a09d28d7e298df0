//! Calls: operands that end in arguments. Each function reads the phrase of its name.

ghost use Rattle.std.specs.Prelude.{◌≡◌, ◌∷◌, ◌++◌, [], Some, IfOk};
ghost use Rattle.text_reading.specs.Parsing.{Reads};
ghost use Rattle.os_expressions.specs.Trees as tree;
ghost use Rattle.os_expressions.specs.ScriptGrammar as spec;
ghost use Rattle.os_expressions.specs.ScriptGrammar.{read};

use crate::spots::{any_called, any_uncalled};
use obj_kinds::{NoMemory, Text};
use os_expressions::{Callee, Path, args, begins_called, member_name, opens, operand_of, signs};
use os_kinds::{Expression, Member};
use script_tokens::{Cursor, Kind, ScriptStop};
use sqlite_items::Items;
use std::alloc::Global;

/// The path that goes on with another name; its last member has these arguments, or none.
pub fn path_on(path: Path, args: Option<Items<Expression>>, name: Text) -> Result<Path, NoMemory>
    ensures { IfOk result (λ p. p ≡ tree.path_on path args name) }
{
    let Path {
        mut members,
        name: last,
    } = path;
    members.push(Member { name: last, args })?;
    Ok(Path { members, name })
}

/// The members of a path whose last one is called.
fn path_called(path: Path, args: Items<Expression>) -> Result<Items<Member>, NoMemory>
    ensures { IfOk result (λ ms. ms ≡ path.members ++ tree.member_of path.name (Some args) ∷ []) }
{
    let Path { mut members, name } = path;
    members.push(Member {
        name,
        args: Some(args),
    })?;
    Ok(members)
}

/// A name behind members without arguments.
#[tactic(auto, unfolding(os_expressions::specs::ScriptGrammar::further_name, text_reading::specs::Phrases::parser, text_reading::specs::Phrases::limited, text_reading::specs::Parsing::pick, text_reading::specs::Parsing::either, text_reading::specs::Parsing::sees))]
pub fn further_name(alloc: Global, cursor: &mut Cursor<'_>, path: Path) -> Result<Path, ScriptStop>
    ensures { Reads (read spec.further_name path cursor.old) result cursor.new }
{
    cursor.mark(alloc, Kind::Dot)?;
    let name = member_name(alloc, cursor)?;
    Ok(path_on(path, None, name)?)
}

/// The first name behind members.
#[tactic(auto, unfolding(os_expressions::specs::ScriptGrammar::first_name, text_reading::specs::Phrases::parser, text_reading::specs::Phrases::limited, text_reading::specs::Parsing::pick, text_reading::specs::Parsing::either, text_reading::specs::Parsing::sees))]
pub fn first_name(
    alloc: Global,
    cursor: &mut Cursor<'_>,
    members: Items<Member>,
) -> Result<Path, ScriptStop>
    ensures { Reads (read spec.first_name members cursor.old) result cursor.new }
{
    cursor.mark(alloc, Kind::Dot)?;
    let name = member_name(alloc, cursor)?;
    Ok(Path { members, name })
}

/// All names behind the first one.
fn more_names(alloc: Global, cursor: &mut Cursor<'_>, mut found: Path) -> Result<Path, ScriptStop>
    ensures { Reads (read spec.more_names found cursor.old) result cursor.new }
{
    'turns: while cursor.sees(Kind::Dot) {
        match further_name(alloc, cursor, found) {
            Ok(more) => found = more,
            Err(stop) => return Err(stop),
        }
    }
    Ok(found)
}

/// Names up to one that is called.
#[tactic(auto, unfolding(os_expressions::specs::ScriptGrammar::names, text_reading::specs::Phrases::parser, text_reading::specs::Phrases::limited, text_reading::specs::Parsing::pick, text_reading::specs::Parsing::either, text_reading::specs::Parsing::sees))]
fn names(alloc: Global, cursor: &mut Cursor<'_>, members: Items<Member>) -> Result<Path, ScriptStop>
    ensures { Reads (read spec.names members cursor.old) result cursor.new }
{
    let first = first_name(alloc, cursor, members)?;
    more_names(alloc, cursor, first)
}

/// Names, of which the last one is called.
#[tactic(auto, unfolding(os_expressions::specs::ScriptGrammar::called_member, text_reading::specs::Phrases::parser, text_reading::specs::Phrases::limited, text_reading::specs::Parsing::pick, text_reading::specs::Parsing::either, text_reading::specs::Parsing::sees))]
fn called_member(
    alloc: Global,
    cursor: &mut Cursor<'_>,
    depth: usize,
    found: Items<Member>,
) -> Result<Items<Member>, ScriptStop>
    ensures { Reads (read spec.called_member (depth, found) cursor.old) result cursor.new }
{
    let path = names(alloc, cursor, found)?;
    let args = args(alloc, cursor, depth)?;
    Ok(path_called(path, args)?)
}

/// Any number of these.
fn called_members(
    alloc: Global,
    cursor: &mut Cursor<'_>,
    depth: usize,
    mut found: Items<Member>,
) -> Result<Items<Member>, ScriptStop>
    ensures { Reads (read spec.called_members (depth, found) cursor.old) result cursor.new }
{
    'turns: while cursor.sees(Kind::Dot) {
        match called_member(alloc, cursor, depth, found) {
            Ok(more) => found = more,
            Err(stop) => return Err(stop),
        }
    }
    Ok(found)
}

/// One or more of these.
#[tactic(auto, unfolding(os_expressions::specs::ScriptGrammar::some_called, text_reading::specs::Phrases::parser, text_reading::specs::Phrases::limited, text_reading::specs::Parsing::pick, text_reading::specs::Parsing::either, text_reading::specs::Parsing::sees))]
fn some_called(
    alloc: Global,
    cursor: &mut Cursor<'_>,
    depth: usize,
) -> Result<Items<Member>, ScriptStop>
    ensures { Reads (read spec.some_called depth cursor.old) result cursor.new }
{
    let first = called_member(alloc, cursor, depth, Items::new(alloc))?;
    called_members(alloc, cursor, depth, first)
}

/// A method of the object whose method runs.
#[tactic(auto, unfolding(os_expressions::specs::ScriptGrammar::own_method, text_reading::specs::Phrases::parser, text_reading::specs::Phrases::limited, text_reading::specs::Parsing::pick, text_reading::specs::Parsing::either, text_reading::specs::Parsing::sees))]
fn own_method(
    alloc: Global,
    cursor: &mut Cursor<'_>,
    depth: usize,
    name: Text,
) -> Result<Callee, ScriptStop>
    ensures { Reads (read spec.own_method (depth, name) cursor.old) result cursor.new }
{
    let args = args(alloc, cursor, depth)?;
    let members = called_members(alloc, cursor, depth, Items::new(alloc))?;
    let object = Expression::Own(Member {
        name,
        args: Some(args),
    });
    Ok(Callee { object, members })
}

/// Members that are called, of a property of the object whose method runs.
#[tactic(auto, unfolding(os_expressions::specs::ScriptGrammar::own_property, text_reading::specs::Phrases::parser, text_reading::specs::Phrases::limited, text_reading::specs::Parsing::pick, text_reading::specs::Parsing::either, text_reading::specs::Parsing::sees))]
fn own_property(
    alloc: Global,
    cursor: &mut Cursor<'_>,
    depth: usize,
    name: Text,
) -> Result<Callee, ScriptStop>
    ensures { Reads (read spec.own_property (depth, name) cursor.old) result cursor.new }
{
    let members = some_called(alloc, cursor, depth)?;
    let object = Expression::Own(Member { name, args: None });
    Ok(Callee { object, members })
}

/// What is called of the object whose method runs, behind the name.
#[tactic(auto, unfolding(os_expressions::specs::ScriptGrammar::own_callee, text_reading::specs::Phrases::parser, text_reading::specs::Phrases::limited, text_reading::specs::Parsing::pick, text_reading::specs::Parsing::either, text_reading::specs::Parsing::sees))]
fn own_callee(
    alloc: Global,
    cursor: &mut Cursor<'_>,
    depth: usize,
    name: Text,
) -> Result<Callee, ScriptStop>
    ensures { Reads (read spec.own_callee (depth, name) cursor.old) result cursor.new }
{
    if cursor.sees(Kind::OpenArgs) {
        return own_method(alloc, cursor, depth, name);
    }
    own_property(alloc, cursor, depth, name)
}

/// What is called of the object whose method runs.
#[tactic(auto, unfolding(os_expressions::specs::ScriptGrammar::own_called, text_reading::specs::Phrases::parser, text_reading::specs::Phrases::limited, text_reading::specs::Parsing::pick, text_reading::specs::Parsing::either, text_reading::specs::Parsing::sees))]
fn own_called(alloc: Global, cursor: &mut Cursor<'_>, depth: usize) -> Result<Callee, ScriptStop>
    ensures { Reads (read spec.own_called depth cursor.old) result cursor.new }
{
    opens(alloc, cursor, Kind::Own, false)?;
    let name = member_name(alloc, cursor)?;
    own_callee(alloc, cursor, depth, name)
}

/// What ends in arguments by itself.
#[tactic(auto, unfolding(os_expressions::specs::ScriptGrammar::called_callee, text_reading::specs::Phrases::parser, text_reading::specs::Phrases::limited, text_reading::specs::Parsing::pick, text_reading::specs::Parsing::either, text_reading::specs::Parsing::sees))]
fn called_callee(alloc: Global, cursor: &mut Cursor<'_>, depth: usize) -> Result<Callee, ScriptStop>
    ensures { Reads (read spec.called_callee depth cursor.old) result cursor.new }
{
    let object = any_called(alloc, cursor, depth)?;
    let members = called_members(alloc, cursor, depth, Items::new(alloc))?;
    Ok(Callee { object, members })
}

/// An object with members that are called.
#[tactic(auto, unfolding(os_expressions::specs::ScriptGrammar::uncalled_callee, text_reading::specs::Phrases::parser, text_reading::specs::Phrases::limited, text_reading::specs::Parsing::pick, text_reading::specs::Parsing::either, text_reading::specs::Parsing::sees))]
fn uncalled_callee(
    alloc: Global,
    cursor: &mut Cursor<'_>,
    depth: usize,
) -> Result<Callee, ScriptStop>
    ensures { Reads (read spec.uncalled_callee depth cursor.old) result cursor.new }
{
    let object = any_uncalled(alloc, cursor, depth)?;
    let members = some_called(alloc, cursor, depth)?;
    Ok(Callee { object, members })
}

/// What is called.
#[tactic(auto, unfolding(os_expressions::specs::ScriptGrammar::callee, text_reading::specs::Phrases::parser, text_reading::specs::Phrases::limited, text_reading::specs::Parsing::pick, text_reading::specs::Parsing::either, text_reading::specs::Parsing::sees))]
fn callee(alloc: Global, cursor: &mut Cursor<'_>, depth: usize) -> Result<Callee, ScriptStop>
    ensures { Reads (read spec.callee depth cursor.old) result cursor.new }
{
    if begins_called(cursor.peek()) {
        return called_callee(alloc, cursor, depth);
    }
    if cursor.sees(Kind::Own) {
        return own_called(alloc, cursor, depth);
    }
    uncalled_callee(alloc, cursor, depth)
}

/// A call: an operand that ends in arguments.
#[tactic(auto, unfolding(os_expressions::specs::ScriptGrammar::call, text_reading::specs::Phrases::parser, text_reading::specs::Phrases::limited, text_reading::specs::Parsing::pick, text_reading::specs::Parsing::either, text_reading::specs::Parsing::sees))]
pub fn call(alloc: Global, cursor: &mut Cursor<'_>, depth: usize) -> Result<Expression, ScriptStop>
    ensures { Reads (read spec.call depth cursor.old) result cursor.new }
{
    let signs = signs(alloc, cursor, false)?;
    let Callee { object, members } = callee(alloc, cursor, depth)?;
    Ok(operand_of(alloc, signs, object, members)?)
}
