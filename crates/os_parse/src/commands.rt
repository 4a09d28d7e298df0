//! Commands with blocks, and scripts. Each function reads the phrase of its name.

ghost use Rattle.std.specs.Prelude.{◌≡◌, ◌<◌, ◌+◌, true};
ghost use Rattle.text_reading.specs.Parsing.{Reads};
ghost use Rattle.os_expressions.specs.Trees as tree;
ghost use Rattle.os_expressions.specs.ScriptGrammar as spec;
ghost use Rattle.os_expressions.specs.ScriptGrammar.{read, nested};

use crate::lists::{after_colon, conditions};
use crate::simple::{simple_command, word};
use os_expressions::{Ground, too_deep, value, variable};
use os_kinds::{Branch, Command, Counting};
use script_tokens::{Cursor, Kind, ScriptStop, is_command};
use sqlite_items::Items;
use std::alloc::Global;
use text_reading::Marks;

/// Within a block there.
fn deeper(ground: Ground) -> Ground
    requires { ground.depth < 64 }
    ensures { result ≡ tree.ground (ground.depth + 1) ground.in_loop }
{
    Ground {
        depth: ground.depth + 1,
        in_loop: ground.in_loop,
    }
}

/// The same place within a loop.
fn looping(ground: Ground) -> Ground
    ensures { result ≡ tree.ground ground.depth true }
{
    Ground {
        depth: ground.depth,
        in_loop: true,
    }
}

/// A newline.
#[tactic(auto, unfolding(os_expressions::specs::ScriptGrammar::newline, text_reading::specs::Phrases::parser, text_reading::specs::Phrases::limited, text_reading::specs::Parsing::pick, text_reading::specs::Parsing::either, text_reading::specs::Parsing::sees))]
fn newline(alloc: Global, cursor: &mut Cursor<'_>) -> Result<(), ScriptStop>
    ensures { Reads (read spec.newline tt cursor.old) result cursor.new }
{
    cursor.mark(alloc, Kind::Newline)
}

/// Newlines, which may be none.
fn newlines(alloc: Global, cursor: &mut Cursor<'_>) -> Result<(), ScriptStop>
    ensures { Reads (read spec.newlines tt cursor.old) result cursor.new }
{
    'turns: while cursor.sees(Kind::Newline) {
        match newline(alloc, cursor) {
            Ok(()) => {}
            Err(stop) => return Err(stop),
        }
    }
    Ok(())
}

/// A script in braces.
#[cycle(command)]
#[tactic(auto, using(crate::proofs::CommandReading::script_is))]
fn nested_script(
    alloc: Global,
    cursor: &mut Cursor<'_>,
    marks: &mut Marks<'_>,
    ground: Ground,
) -> Result<Items<Command>, ScriptStop>
    ensures reads { Reads (nested spec.Script (tree.site marks.old ground) cursor.old) result cursor.new }
    ensures text { marks.new ≡ marks.old }
{
    script(alloc, cursor, marks, ground)
}

/// A block.
#[cycle(command)]
#[tactic(auto, unfolding(os_expressions::specs::ScriptGrammar::braces, text_reading::specs::Phrases::parser, text_reading::specs::Phrases::limited, text_reading::specs::Parsing::pick, text_reading::specs::Parsing::either, text_reading::specs::Parsing::sees), using(os_expressions::proofs::RuleReading::not_deep))]
fn braces(
    alloc: Global,
    cursor: &mut Cursor<'_>,
    marks: &mut Marks<'_>,
    ground: Ground,
) -> Result<Items<Command>, ScriptStop>
    ensures reads { Reads (read spec.braces (tree.site marks.old ground) cursor.old) result cursor.new }
    ensures text { marks.new ≡ marks.old }
{
    let can = cursor.sees(Kind::LBrace);
    cursor.pick(alloc, can, too_deep(ground.depth))?;
    let found = nested_script(alloc, cursor, marks, deeper(ground))?;
    cursor.mark(alloc, Kind::RBrace)?;
    Ok(found)
}

/// A block, with newlines around it.
#[cycle(command)]
#[tactic(auto, unfolding(os_expressions::specs::ScriptGrammar::block, text_reading::specs::Phrases::parser, text_reading::specs::Phrases::limited, text_reading::specs::Parsing::pick, text_reading::specs::Parsing::either, text_reading::specs::Parsing::sees))]
fn block(
    alloc: Global,
    cursor: &mut Cursor<'_>,
    marks: &mut Marks<'_>,
    ground: Ground,
) -> Result<Items<Command>, ScriptStop>
    ensures reads { Reads (read spec.block (tree.site marks.old ground) cursor.old) result cursor.new }
    ensures text { marks.new ≡ marks.old }
{
    newlines(alloc, cursor)?;
    let found = braces(alloc, cursor, marks, ground)?;
    newlines(alloc, cursor)?;
    Ok(found)
}

/// The word of a branch, its conditions and its block.
#[cycle(command)]
#[tactic(auto, unfolding(os_expressions::specs::ScriptGrammar::branch, text_reading::specs::Phrases::parser, text_reading::specs::Phrases::limited, text_reading::specs::Parsing::pick, text_reading::specs::Parsing::either, text_reading::specs::Parsing::sees))]
fn branch(
    alloc: Global,
    cursor: &mut Cursor<'_>,
    marks: &mut Marks<'_>,
    ground: Ground,
    kind: Kind,
) -> Result<Branch, ScriptStop>
    ensures reads { Reads (read (spec.branch kind) (tree.site marks.old ground) cursor.old) result cursor.new }
    ensures text { marks.new ≡ marks.old }
{
    let line = word(alloc, cursor, marks, kind)?;
    let conditions = conditions(alloc, cursor, ground.depth)?;
    let block = block(alloc, cursor, marks, ground)?;
    Ok(Branch {
        line,
        conditions,
        block,
    })
}

/// A branch behind others.
#[cycle(command)]
#[tactic(auto, unfolding(os_expressions::specs::ScriptGrammar::further_branch, text_reading::specs::Phrases::parser, text_reading::specs::Phrases::limited, text_reading::specs::Parsing::pick, text_reading::specs::Parsing::either, text_reading::specs::Parsing::sees))]
fn further_branch(
    alloc: Global,
    cursor: &mut Cursor<'_>,
    marks: &mut Marks<'_>,
    ground: Ground,
    mut found: Items<Branch>,
) -> Result<Items<Branch>, ScriptStop>
    ensures reads { Reads (read spec.further_branch (tree.site marks.old ground, found) cursor.old) result cursor.new }
    ensures text { marks.new ≡ marks.old }
{
    found.push(branch(alloc, cursor, marks, ground, Kind::ElseIf)?)?;
    Ok(found)
}

/// All branches behind the first one.
#[cycle(command)]
fn more_branches(
    alloc: Global,
    cursor: &mut Cursor<'_>,
    marks: &mut Marks<'_>,
    ground: Ground,
    mut found: Items<Branch>,
) -> Result<Items<Branch>, ScriptStop>
    ensures reads { Reads (read spec.more_branches (tree.site marks.old ground, found) cursor.old) result cursor.new }
    ensures text { marks.new ≡ marks.old }
{
    'turns: while cursor.sees(Kind::ElseIf) {
        match further_branch(alloc, cursor, marks, ground, found) {
            Ok(more) => found = more,
            Err(stop) => return Err(stop),
        }
    }
    Ok(found)
}

/// The branch of `IF` and those of `ELSEIF`.
#[cycle(command)]
#[tactic(auto, unfolding(os_expressions::specs::ScriptGrammar::branches, text_reading::specs::Phrases::parser, text_reading::specs::Phrases::limited, text_reading::specs::Parsing::pick, text_reading::specs::Parsing::either, text_reading::specs::Parsing::sees))]
fn branches(
    alloc: Global,
    cursor: &mut Cursor<'_>,
    marks: &mut Marks<'_>,
    ground: Ground,
) -> Result<Items<Branch>, ScriptStop>
    ensures reads { Reads (read spec.branches (tree.site marks.old ground) cursor.old) result cursor.new }
    ensures text { marks.new ≡ marks.old }
{
    let mut found = Items::new(alloc);
    found.push(branch(alloc, cursor, marks, ground, Kind::If)?)?;
    more_branches(alloc, cursor, marks, ground, found)
}

/// The block of `ELSE`.
#[cycle(command)]
#[tactic(auto, unfolding(os_expressions::specs::ScriptGrammar::otherwise, text_reading::specs::Phrases::parser, text_reading::specs::Phrases::limited, text_reading::specs::Parsing::pick, text_reading::specs::Parsing::either, text_reading::specs::Parsing::sees))]
fn otherwise(
    alloc: Global,
    cursor: &mut Cursor<'_>,
    marks: &mut Marks<'_>,
    ground: Ground,
) -> Result<Option<Items<Command>>, ScriptStop>
    ensures reads { Reads (read spec.otherwise (tree.site marks.old ground) cursor.old) result cursor.new }
    ensures text { marks.new ≡ marks.old }
{
    if !cursor.sees(Kind::Else) {
        return Ok(None);
    }
    cursor.mark(alloc, Kind::Else)?;
    Ok(Some(block(alloc, cursor, marks, ground)?))
}

/// `IF`
#[cycle(command)]
#[tactic(auto, unfolding(os_expressions::specs::ScriptGrammar::if_command, text_reading::specs::Phrases::parser, text_reading::specs::Phrases::limited, text_reading::specs::Parsing::pick, text_reading::specs::Parsing::either, text_reading::specs::Parsing::sees))]
fn if_command(
    alloc: Global,
    cursor: &mut Cursor<'_>,
    marks: &mut Marks<'_>,
    ground: Ground,
) -> Result<Command, ScriptStop>
    ensures reads { Reads (read spec.if_command (tree.site marks.old ground) cursor.old) result cursor.new }
    ensures text { marks.new ≡ marks.old }
{
    let branches = branches(alloc, cursor, marks, ground)?;
    let otherwise = otherwise(alloc, cursor, marks, ground)?;
    Ok(Command::If {
        branches,
        otherwise,
    })
}

/// What a loop counts.
#[tactic(auto, unfolding(os_expressions::specs::ScriptGrammar::counting, text_reading::specs::Phrases::parser, text_reading::specs::Phrases::limited, text_reading::specs::Parsing::pick, text_reading::specs::Parsing::either, text_reading::specs::Parsing::sees))]
fn counting(alloc: Global, cursor: &mut Cursor<'_>, depth: usize) -> Result<Counting, ScriptStop>
    ensures { Reads (read spec.counting depth cursor.old) result cursor.new }
{
    let variable = variable(alloc, cursor, false)?;
    cursor.mark(alloc, Kind::Equals)?;
    let first = value(alloc, cursor, depth)?;
    cursor.mark(alloc, Kind::Colon)?;
    let step = value(alloc, cursor, depth)?;
    let last = after_colon(alloc, cursor, depth)?;
    Ok(Counting {
        variable,
        first,
        step,
        last,
    })
}

/// What a loop counts, if it does.
#[tactic(auto, unfolding(os_expressions::specs::ScriptGrammar::counting_given, text_reading::specs::Phrases::parser, text_reading::specs::Phrases::limited, text_reading::specs::Parsing::pick, text_reading::specs::Parsing::either, text_reading::specs::Parsing::sees))]
fn counting_given(
    alloc: Global,
    cursor: &mut Cursor<'_>,
    depth: usize,
) -> Result<Option<Counting>, ScriptStop>
    ensures { Reads (read spec.counting_given depth cursor.old) result cursor.new }
{
    if !cursor.sees(Kind::Name) {
        return Ok(None);
    }
    Ok(Some(counting(alloc, cursor, depth)?))
}

/// `FOR`
#[cycle(command)]
#[tactic(auto, unfolding(os_expressions::specs::ScriptGrammar::for_command, text_reading::specs::Phrases::parser, text_reading::specs::Phrases::limited, text_reading::specs::Parsing::pick, text_reading::specs::Parsing::either, text_reading::specs::Parsing::sees))]
fn for_command(
    alloc: Global,
    cursor: &mut Cursor<'_>,
    marks: &mut Marks<'_>,
    ground: Ground,
) -> Result<Command, ScriptStop>
    ensures reads { Reads (read spec.for_command (tree.site marks.old ground) cursor.old) result cursor.new }
    ensures text { marks.new ≡ marks.old }
{
    let line = word(alloc, cursor, marks, Kind::For)?;
    let counting = counting_given(alloc, cursor, ground.depth)?;
    let block = block(alloc, cursor, marks, looping(ground))?;
    Ok(Command::For {
        line,
        counting,
        block,
    })
}

/// `WHILE`
#[cycle(command)]
#[tactic(auto, unfolding(os_expressions::specs::ScriptGrammar::while_command, text_reading::specs::Phrases::parser, text_reading::specs::Phrases::limited, text_reading::specs::Parsing::pick, text_reading::specs::Parsing::either, text_reading::specs::Parsing::sees))]
fn while_command(
    alloc: Global,
    cursor: &mut Cursor<'_>,
    marks: &mut Marks<'_>,
    ground: Ground,
) -> Result<Command, ScriptStop>
    ensures reads { Reads (read spec.while_command (tree.site marks.old ground) cursor.old) result cursor.new }
    ensures text { marks.new ≡ marks.old }
{
    let line = word(alloc, cursor, marks, Kind::While)?;
    let conditions = conditions(alloc, cursor, ground.depth)?;
    let block = block(alloc, cursor, marks, looping(ground))?;
    Ok(Command::While {
        line,
        conditions,
        block,
    })
}

/// A command without blocks, and the newlines behind it.
#[tactic(auto, unfolding(os_expressions::specs::ScriptGrammar::lined_command, text_reading::specs::Phrases::parser, text_reading::specs::Phrases::limited, text_reading::specs::Parsing::pick, text_reading::specs::Parsing::either, text_reading::specs::Parsing::sees))]
fn lined_command(
    alloc: Global,
    cursor: &mut Cursor<'_>,
    marks: &mut Marks<'_>,
    ground: Ground,
) -> Result<Command, ScriptStop>
    ensures reads { Reads (read spec.lined_command (tree.site marks.old ground) cursor.old) result cursor.new }
    ensures text { marks.new ≡ marks.old }
{
    let command = simple_command(alloc, cursor, marks, ground)?;
    newlines(alloc, cursor)?;
    Ok(command)
}

/// A command.
#[cycle(command)]
#[tactic(auto, unfolding(os_expressions::specs::ScriptGrammar::command, text_reading::specs::Phrases::parser, text_reading::specs::Phrases::limited, text_reading::specs::Parsing::pick, text_reading::specs::Parsing::either, text_reading::specs::Parsing::sees))]
fn command(
    alloc: Global,
    cursor: &mut Cursor<'_>,
    marks: &mut Marks<'_>,
    ground: Ground,
) -> Result<Command, ScriptStop>
    ensures reads { Reads (read spec.command (tree.site marks.old ground) cursor.old) result cursor.new }
    ensures text { marks.new ≡ marks.old }
{
    if cursor.sees(Kind::If) {
        return if_command(alloc, cursor, marks, ground);
    }
    if cursor.sees(Kind::For) {
        return for_command(alloc, cursor, marks, ground);
    }
    if cursor.sees(Kind::While) {
        return while_command(alloc, cursor, marks, ground);
    }
    lined_command(alloc, cursor, marks, ground)
}

/// A command behind others.
#[cycle(command)]
#[tactic(auto, unfolding(os_expressions::specs::ScriptGrammar::further_command, text_reading::specs::Phrases::parser, text_reading::specs::Phrases::limited, text_reading::specs::Parsing::pick, text_reading::specs::Parsing::either, text_reading::specs::Parsing::sees))]
fn further_command(
    alloc: Global,
    cursor: &mut Cursor<'_>,
    marks: &mut Marks<'_>,
    ground: Ground,
    mut found: Items<Command>,
) -> Result<Items<Command>, ScriptStop>
    ensures reads { Reads (read spec.further_command (tree.site marks.old ground, found) cursor.old) result cursor.new }
    ensures text { marks.new ≡ marks.old }
{
    found.push(command(alloc, cursor, marks, ground)?)?;
    Ok(found)
}

/// All commands.
#[cycle(command)]
fn commands(
    alloc: Global,
    cursor: &mut Cursor<'_>,
    marks: &mut Marks<'_>,
    ground: Ground,
) -> Result<Items<Command>, ScriptStop>
    ensures reads { Reads (read spec.commands (tree.site marks.old ground) cursor.old) result cursor.new }
    ensures text { marks.new ≡ marks.old }
{
    let mut found = Items::new(alloc);
    'turns: while is_command(cursor.peek()) {
        match further_command(alloc, cursor, marks, ground, found) {
            Ok(more) => found = more,
            Err(stop) => return Err(stop),
        }
    }
    Ok(found)
}

/// A script.
#[cycle(command)]
#[tactic(auto, unfolding(os_expressions::specs::ScriptGrammar::script, text_reading::specs::Phrases::parser, text_reading::specs::Phrases::limited, text_reading::specs::Parsing::pick, text_reading::specs::Parsing::either, text_reading::specs::Parsing::sees))]
pub fn script(
    alloc: Global,
    cursor: &mut Cursor<'_>,
    marks: &mut Marks<'_>,
    ground: Ground,
) -> Result<Items<Command>, ScriptStop>
    ensures reads { Reads (read spec.script (tree.site marks.old ground) cursor.old) result cursor.new }
    ensures text { marks.new ≡ marks.old }
{
    newlines(alloc, cursor)?;
    commands(alloc, cursor, marks, ground)
}
