//! What a `SET` gives a value. Each function reads the phrase of its name.

ghost use Rattle.std.specs.Prelude.{◌≡◌, IfOk};
ghost use Rattle.text_reading.specs.Parsing.{Reads};
ghost use Rattle.os_expressions.specs.Trees as tree;
ghost use Rattle.os_expressions.specs.ScriptGrammar as spec;
ghost use Rattle.os_expressions.specs.ScriptGrammar.{read};

use crate::calls::{first_name, further_name, path_on};
use crate::spots::{any_place, any_primary};
use obj_kinds::NoMemory;
use os_expressions::{Path, args, member_name, opens, operand_of, signs, with_members};
use os_kinds::{Expression, Member, Place, Sign, Target};
use script_tokens::{Cursor, Kind, ScriptStop, same_kind};
use sqlite_items::Items;
use std::alloc::Global;

fn goes_on(kind: Kind) -> bool
    ensures { result ≡ spec.goes_on kind }
{
    same_kind(kind, Kind::Dot) || same_kind(kind, Kind::OpenArgs)
}

/// Whether a variable or a global may begin with it.
pub fn begins_place(kind: Kind) -> bool
    ensures { result ≡ spec.begins_place kind }
{
    same_kind(kind, Kind::Name) || same_kind(kind, Kind::Caret)
}

/// The property that a path behind an operand names.
fn target_of(
    alloc: Global,
    signs: Items<Sign>,
    primary: Expression,
    path: Path,
) -> Result<Target, NoMemory>
    ensures { IfOk result (λ t. t ≡ tree.target_of signs primary path) }
{
    let Path { members, name } = path;
    let object = operand_of(alloc, signs, primary, members)?;
    Ok(Target::Property {
        object,
        member: name,
    })
}

/// The property that a path behind `..` names; its first member is the object's own.
#[tactic(auto, unfolding(os_expressions::specs::Trees::own_target_of))]
fn own_target_of(alloc: Global, path: Path) -> Result<Target, NoMemory>
    ensures { IfOk result (λ t. t ≡ tree.own_target_of path) }
{
    let Path { mut members, name } = path;
    if members.is_empty() {
        return Ok(Target::OwnProperty(name));
    }
    let first = members.remove(0);
    let object = with_members(alloc, Expression::Own(first), members)?;
    Ok(Target::Property {
        object,
        member: name,
    })
}

/// Arguments, and a further name.
#[tactic(auto, unfolding(os_expressions::specs::ScriptGrammar::called_step, text_reading::specs::Phrases::parser, text_reading::specs::Phrases::limited, text_reading::specs::Parsing::pick, text_reading::specs::Parsing::either, text_reading::specs::Parsing::sees))]
fn called_step(
    alloc: Global,
    cursor: &mut Cursor<'_>,
    depth: usize,
    path: Path,
) -> Result<Path, ScriptStop>
    ensures { Reads (read spec.called_step (depth, path) cursor.old) result cursor.new }
{
    let args = args(alloc, cursor, depth)?;
    cursor.mark(alloc, Kind::Dot)?;
    let name = member_name(alloc, cursor)?;
    Ok(path_on(path, Some(args), name)?)
}

/// A further name, of the last one or of what it answers.
#[tactic(auto, unfolding(os_expressions::specs::ScriptGrammar::path_step, text_reading::specs::Phrases::parser, text_reading::specs::Phrases::limited, text_reading::specs::Parsing::pick, text_reading::specs::Parsing::either, text_reading::specs::Parsing::sees))]
fn path_step(
    alloc: Global,
    cursor: &mut Cursor<'_>,
    depth: usize,
    path: Path,
) -> Result<Path, ScriptStop>
    ensures { Reads (read spec.path_step (depth, path) cursor.old) result cursor.new }
{
    if cursor.sees(Kind::OpenArgs) {
        return called_step(alloc, cursor, depth, path);
    }
    further_name(alloc, cursor, path)
}

/// All names up to the property.
fn path_rest(
    alloc: Global,
    cursor: &mut Cursor<'_>,
    depth: usize,
    mut found: Path,
) -> Result<Path, ScriptStop>
    ensures { Reads (read spec.path_rest (depth, found) cursor.old) result cursor.new }
{
    'turns: while goes_on(cursor.peek()) {
        match path_step(alloc, cursor, depth, found) {
            Ok(more) => found = more,
            Err(stop) => return Err(stop),
        }
    }
    Ok(found)
}

/// The members of an object up to a property.
#[tactic(auto, unfolding(os_expressions::specs::ScriptGrammar::property_path, text_reading::specs::Phrases::parser, text_reading::specs::Phrases::limited, text_reading::specs::Parsing::pick, text_reading::specs::Parsing::either, text_reading::specs::Parsing::sees))]
fn property_path(alloc: Global, cursor: &mut Cursor<'_>, depth: usize) -> Result<Path, ScriptStop>
    ensures { Reads (read spec.property_path depth cursor.old) result cursor.new }
{
    let first = first_name(alloc, cursor, Items::new(alloc))?;
    path_rest(alloc, cursor, depth, first)
}

/// A property of what a variable or a global names.
#[tactic(auto, unfolding(os_expressions::specs::ScriptGrammar::place_property, text_reading::specs::Phrases::parser, text_reading::specs::Phrases::limited, text_reading::specs::Parsing::pick, text_reading::specs::Parsing::either, text_reading::specs::Parsing::sees))]
fn place_property(
    alloc: Global,
    cursor: &mut Cursor<'_>,
    depth: usize,
    place: Place,
) -> Result<Target, ScriptStop>
    ensures { Reads (read spec.place_property (depth, place) cursor.old) result cursor.new }
{
    let path = property_path(alloc, cursor, depth)?;
    Ok(target_of(alloc, Items::new(alloc), Expression::Value(place), path)?)
}

/// A variable or a global, or a property of what it names.
#[tactic(auto, unfolding(os_expressions::specs::ScriptGrammar::place_target, text_reading::specs::Phrases::parser, text_reading::specs::Phrases::limited, text_reading::specs::Parsing::pick, text_reading::specs::Parsing::either, text_reading::specs::Parsing::sees))]
fn place_target(alloc: Global, cursor: &mut Cursor<'_>, depth: usize) -> Result<Target, ScriptStop>
    ensures { Reads (read spec.place_target depth cursor.old) result cursor.new }
{
    let place = any_place(alloc, cursor, depth)?;
    if cursor.sees(Kind::Dot) {
        return place_property(alloc, cursor, depth, place);
    }
    Ok(Target::Place(place))
}

/// The name behind `..`.
#[tactic(auto, unfolding(os_expressions::specs::ScriptGrammar::own_path, text_reading::specs::Phrases::parser, text_reading::specs::Phrases::limited, text_reading::specs::Parsing::pick, text_reading::specs::Parsing::either, text_reading::specs::Parsing::sees))]
fn own_path(alloc: Global, cursor: &mut Cursor<'_>) -> Result<Path, ScriptStop>
    ensures { Reads (read spec.own_path tt cursor.old) result cursor.new }
{
    let name = member_name(alloc, cursor)?;
    Ok(Path {
        members: Items::new(alloc),
        name,
    })
}

/// A property of the object whose method runs, or of what that names.
#[tactic(auto, unfolding(os_expressions::specs::ScriptGrammar::own_target, text_reading::specs::Phrases::parser, text_reading::specs::Phrases::limited, text_reading::specs::Parsing::pick, text_reading::specs::Parsing::either, text_reading::specs::Parsing::sees))]
fn own_target(alloc: Global, cursor: &mut Cursor<'_>, depth: usize) -> Result<Target, ScriptStop>
    ensures { Reads (read spec.own_target depth cursor.old) result cursor.new }
{
    opens(alloc, cursor, Kind::Own, false)?;
    let first = own_path(alloc, cursor)?;
    let path = path_rest(alloc, cursor, depth, first)?;
    Ok(own_target_of(alloc, path)?)
}

/// A property of any other operand.
#[tactic(auto, unfolding(os_expressions::specs::ScriptGrammar::object_target, text_reading::specs::Phrases::parser, text_reading::specs::Phrases::limited, text_reading::specs::Parsing::pick, text_reading::specs::Parsing::either, text_reading::specs::Parsing::sees))]
fn object_target(alloc: Global, cursor: &mut Cursor<'_>, depth: usize) -> Result<Target, ScriptStop>
    ensures { Reads (read spec.object_target depth cursor.old) result cursor.new }
{
    let signs = signs(alloc, cursor, false)?;
    let object = any_primary(alloc, cursor, depth)?;
    let path = property_path(alloc, cursor, depth)?;
    Ok(target_of(alloc, signs, object, path)?)
}

/// What a `SET` gives a value.
#[tactic(auto, unfolding(os_expressions::specs::ScriptGrammar::some_target, text_reading::specs::Phrases::parser, text_reading::specs::Phrases::limited, text_reading::specs::Parsing::pick, text_reading::specs::Parsing::either, text_reading::specs::Parsing::sees))]
pub fn some_target(
    alloc: Global,
    cursor: &mut Cursor<'_>,
    depth: usize,
) -> Result<Target, ScriptStop>
    ensures { Reads (read spec.some_target depth cursor.old) result cursor.new }
{
    if begins_place(cursor.peek()) {
        return place_target(alloc, cursor, depth);
    }
    if cursor.sees(Kind::Own) {
        return own_target(alloc, cursor, depth);
    }
    object_target(alloc, cursor, depth)
}
