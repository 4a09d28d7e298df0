//! Commands without blocks. Each function reads the phrase of its name.

ghost use Rattle.std.specs.Prelude.{◌≡◌};
ghost use Rattle.text_reading.specs.Parsing.{Reads};
ghost use Rattle.os_expressions.specs.Trees as tree;
ghost use Rattle.os_expressions.specs.ScriptGrammar as spec;
ghost use Rattle.os_expressions.specs.ScriptGrammar.{read};

use crate::lists::{after_colon, assignments, calls, claims, outputs, places};
use crate::targets::begins_place;
use os_expressions::{Ground, Spot, expression};
use os_kinds::{Action, Command, Expression};
use script_tokens::{Cursor, Kind, ScriptStop, ScriptWhy, begins_operand, same_kind};
use std::alloc::Global;
use text_reading::Marks;

fn begins_claim(kind: Kind) -> bool
    ensures { result ≡ spec.begins_claim kind }
{
    same_kind(kind, Kind::Plus) || same_kind(kind, Kind::Minus) || same_kind(kind, Kind::Caret)
}

/// The word of a command, which says its line.
#[tactic(auto, unfolding(os_expressions::specs::ScriptGrammar::word, text_reading::specs::Phrases::parser, text_reading::specs::Phrases::limited, text_reading::specs::Parsing::pick, text_reading::specs::Parsing::either, text_reading::specs::Parsing::sees))]
pub fn word(
    alloc: Global,
    cursor: &mut Cursor<'_>,
    marks: &mut Marks<'_>,
    kind: Kind,
) -> Result<u32, ScriptStop>
    ensures reads { Reads (read (spec.word kind) marks.old cursor.old) result cursor.new }
    ensures text { marks.new ≡ marks.old }
{
    let can = cursor.sees(kind);
    let left = cursor.left();
    cursor.pick(alloc, can, None)?;
    Ok(marks.place(left).line)
}

/// The value of a `QUIT`, which can't stand in a loop.
#[tactic(auto, unfolding(os_expressions::specs::ScriptGrammar::quit_value, text_reading::specs::Phrases::parser, text_reading::specs::Phrases::limited, text_reading::specs::Parsing::pick, text_reading::specs::Parsing::either, text_reading::specs::Parsing::sees))]
fn quit_value(
    alloc: Global,
    cursor: &mut Cursor<'_>,
    ground: Ground,
) -> Result<Expression, ScriptStop>
    ensures { Reads (read spec.quit_value ground cursor.old) result cursor.new }
{
    let spot = Spot {
        depth: ground.depth,
        barred: ground.in_loop,
    };
    expression(alloc, cursor, spot)
}

/// The argument of a `QUIT`.
#[tactic(auto, unfolding(os_expressions::specs::ScriptGrammar::quit_action, text_reading::specs::Phrases::parser, text_reading::specs::Phrases::limited, text_reading::specs::Parsing::pick, text_reading::specs::Parsing::either, text_reading::specs::Parsing::sees))]
fn quit_action(alloc: Global, cursor: &mut Cursor<'_>, ground: Ground) -> Result<Action, ScriptStop>
    ensures { Reads (read spec.quit_action ground cursor.old) result cursor.new }
{
    if !begins_operand(cursor.peek()) {
        return Ok(Action::Quit(None));
    }
    Ok(Action::Quit(Some(quit_value(alloc, cursor, ground)?)))
}

/// The arguments of a `KILL`.
#[tactic(auto, unfolding(os_expressions::specs::ScriptGrammar::kill_action, text_reading::specs::Phrases::parser, text_reading::specs::Phrases::limited, text_reading::specs::Parsing::pick, text_reading::specs::Parsing::either, text_reading::specs::Parsing::sees))]
fn kill_action(alloc: Global, cursor: &mut Cursor<'_>, depth: usize) -> Result<Action, ScriptStop>
    ensures { Reads (read spec.kill_action depth cursor.old) result cursor.new }
{
    if !begins_place(cursor.peek()) {
        return Ok(Action::KillAll);
    }
    Ok(Action::Kill(places(alloc, cursor, depth)?))
}

/// The arguments of a `LOCK`.
#[tactic(auto, unfolding(os_expressions::specs::ScriptGrammar::lock_action, text_reading::specs::Phrases::parser, text_reading::specs::Phrases::limited, text_reading::specs::Parsing::pick, text_reading::specs::Parsing::either, text_reading::specs::Parsing::sees))]
fn lock_action(alloc: Global, cursor: &mut Cursor<'_>, depth: usize) -> Result<Action, ScriptStop>
    ensures { Reads (read spec.lock_action depth cursor.old) result cursor.new }
{
    if !begins_claim(cursor.peek()) {
        return Ok(Action::UnlockAll);
    }
    Ok(Action::Lock(claims(alloc, cursor, depth)?))
}

/// The argument of a `TROLLBACK`.
#[tactic(auto, unfolding(os_expressions::specs::ScriptGrammar::rollback_action, text_reading::specs::Phrases::parser, text_reading::specs::Phrases::limited, text_reading::specs::Parsing::pick, text_reading::specs::Parsing::either, text_reading::specs::Parsing::sees))]
fn rollback_action(alloc: Global, cursor: &mut Cursor<'_>) -> Result<Action, ScriptStop>
    ensures { Reads (read spec.rollback_action tt cursor.old) result cursor.new }
{
    if !cursor.sees(Kind::One) {
        return Ok(Action::TRollback);
    }
    cursor.mark(alloc, Kind::One)?;
    Ok(Action::TRollbackOne)
}

/// `SET`
#[tactic(auto, unfolding(os_expressions::specs::ScriptGrammar::set_command, text_reading::specs::Phrases::parser, text_reading::specs::Phrases::limited, text_reading::specs::Parsing::pick, text_reading::specs::Parsing::either, text_reading::specs::Parsing::sees))]
fn set_command(
    alloc: Global,
    cursor: &mut Cursor<'_>,
    marks: &mut Marks<'_>,
    ground: Ground,
) -> Result<Command, ScriptStop>
    ensures reads { Reads (read spec.set_command (tree.site marks.old ground) cursor.old) result cursor.new }
    ensures text { marks.new ≡ marks.old }
{
    let line = word(alloc, cursor, marks, Kind::Set)?;
    let condition = after_colon(alloc, cursor, ground.depth)?;
    let action = Action::Set(assignments(alloc, cursor, ground.depth)?);
    Ok(Command::Plain {
        line,
        condition,
        action,
    })
}

/// `WRITE`
#[tactic(auto, unfolding(os_expressions::specs::ScriptGrammar::write_command, text_reading::specs::Phrases::parser, text_reading::specs::Phrases::limited, text_reading::specs::Parsing::pick, text_reading::specs::Parsing::either, text_reading::specs::Parsing::sees))]
fn write_command(
    alloc: Global,
    cursor: &mut Cursor<'_>,
    marks: &mut Marks<'_>,
    ground: Ground,
) -> Result<Command, ScriptStop>
    ensures reads { Reads (read spec.write_command (tree.site marks.old ground) cursor.old) result cursor.new }
    ensures text { marks.new ≡ marks.old }
{
    let line = word(alloc, cursor, marks, Kind::Write)?;
    let condition = after_colon(alloc, cursor, ground.depth)?;
    let action = Action::Write(outputs(alloc, cursor, ground.depth)?);
    Ok(Command::Plain {
        line,
        condition,
        action,
    })
}

/// `DO`
#[tactic(auto, unfolding(os_expressions::specs::ScriptGrammar::do_command, text_reading::specs::Phrases::parser, text_reading::specs::Phrases::limited, text_reading::specs::Parsing::pick, text_reading::specs::Parsing::either, text_reading::specs::Parsing::sees))]
fn do_command(
    alloc: Global,
    cursor: &mut Cursor<'_>,
    marks: &mut Marks<'_>,
    ground: Ground,
) -> Result<Command, ScriptStop>
    ensures reads { Reads (read spec.do_command (tree.site marks.old ground) cursor.old) result cursor.new }
    ensures text { marks.new ≡ marks.old }
{
    let line = word(alloc, cursor, marks, Kind::Do)?;
    let condition = after_colon(alloc, cursor, ground.depth)?;
    let action = Action::Do(calls(alloc, cursor, ground.depth)?);
    Ok(Command::Plain {
        line,
        condition,
        action,
    })
}

/// `QUIT`
#[tactic(auto, unfolding(os_expressions::specs::ScriptGrammar::quit_command, text_reading::specs::Phrases::parser, text_reading::specs::Phrases::limited, text_reading::specs::Parsing::pick, text_reading::specs::Parsing::either, text_reading::specs::Parsing::sees))]
fn quit_command(
    alloc: Global,
    cursor: &mut Cursor<'_>,
    marks: &mut Marks<'_>,
    ground: Ground,
) -> Result<Command, ScriptStop>
    ensures reads { Reads (read spec.quit_command (tree.site marks.old ground) cursor.old) result cursor.new }
    ensures text { marks.new ≡ marks.old }
{
    let line = word(alloc, cursor, marks, Kind::Quit)?;
    let condition = after_colon(alloc, cursor, ground.depth)?;
    let action = quit_action(alloc, cursor, ground)?;
    Ok(Command::Plain {
        line,
        condition,
        action,
    })
}

/// `KILL`
#[tactic(auto, unfolding(os_expressions::specs::ScriptGrammar::kill_command, text_reading::specs::Phrases::parser, text_reading::specs::Phrases::limited, text_reading::specs::Parsing::pick, text_reading::specs::Parsing::either, text_reading::specs::Parsing::sees))]
fn kill_command(
    alloc: Global,
    cursor: &mut Cursor<'_>,
    marks: &mut Marks<'_>,
    ground: Ground,
) -> Result<Command, ScriptStop>
    ensures reads { Reads (read spec.kill_command (tree.site marks.old ground) cursor.old) result cursor.new }
    ensures text { marks.new ≡ marks.old }
{
    let line = word(alloc, cursor, marks, Kind::Kill)?;
    let condition = after_colon(alloc, cursor, ground.depth)?;
    let action = kill_action(alloc, cursor, ground.depth)?;
    Ok(Command::Plain {
        line,
        condition,
        action,
    })
}

/// `LOCK`
#[tactic(auto, unfolding(os_expressions::specs::ScriptGrammar::lock_command, text_reading::specs::Phrases::parser, text_reading::specs::Phrases::limited, text_reading::specs::Parsing::pick, text_reading::specs::Parsing::either, text_reading::specs::Parsing::sees))]
fn lock_command(
    alloc: Global,
    cursor: &mut Cursor<'_>,
    marks: &mut Marks<'_>,
    ground: Ground,
) -> Result<Command, ScriptStop>
    ensures reads { Reads (read spec.lock_command (tree.site marks.old ground) cursor.old) result cursor.new }
    ensures text { marks.new ≡ marks.old }
{
    let line = word(alloc, cursor, marks, Kind::Lock)?;
    let condition = after_colon(alloc, cursor, ground.depth)?;
    let action = lock_action(alloc, cursor, ground.depth)?;
    Ok(Command::Plain {
        line,
        condition,
        action,
    })
}

/// `TSTART`
#[tactic(auto, unfolding(os_expressions::specs::ScriptGrammar::start_command, text_reading::specs::Phrases::parser, text_reading::specs::Phrases::limited, text_reading::specs::Parsing::pick, text_reading::specs::Parsing::either, text_reading::specs::Parsing::sees))]
fn start_command(
    alloc: Global,
    cursor: &mut Cursor<'_>,
    marks: &mut Marks<'_>,
    ground: Ground,
) -> Result<Command, ScriptStop>
    ensures reads { Reads (read spec.start_command (tree.site marks.old ground) cursor.old) result cursor.new }
    ensures text { marks.new ≡ marks.old }
{
    let line = word(alloc, cursor, marks, Kind::TStart)?;
    let condition = after_colon(alloc, cursor, ground.depth)?;
    let action = Action::TStart;
    Ok(Command::Plain {
        line,
        condition,
        action,
    })
}

/// `TCOMMIT`
#[tactic(auto, unfolding(os_expressions::specs::ScriptGrammar::commit_command, text_reading::specs::Phrases::parser, text_reading::specs::Phrases::limited, text_reading::specs::Parsing::pick, text_reading::specs::Parsing::either, text_reading::specs::Parsing::sees))]
fn commit_command(
    alloc: Global,
    cursor: &mut Cursor<'_>,
    marks: &mut Marks<'_>,
    ground: Ground,
) -> Result<Command, ScriptStop>
    ensures reads { Reads (read spec.commit_command (tree.site marks.old ground) cursor.old) result cursor.new }
    ensures text { marks.new ≡ marks.old }
{
    let line = word(alloc, cursor, marks, Kind::TCommit)?;
    let condition = after_colon(alloc, cursor, ground.depth)?;
    let action = Action::TCommit;
    Ok(Command::Plain {
        line,
        condition,
        action,
    })
}

/// `TROLLBACK`
#[tactic(auto, unfolding(os_expressions::specs::ScriptGrammar::rollback_command, text_reading::specs::Phrases::parser, text_reading::specs::Phrases::limited, text_reading::specs::Parsing::pick, text_reading::specs::Parsing::either, text_reading::specs::Parsing::sees))]
fn rollback_command(
    alloc: Global,
    cursor: &mut Cursor<'_>,
    marks: &mut Marks<'_>,
    ground: Ground,
) -> Result<Command, ScriptStop>
    ensures reads { Reads (read spec.rollback_command (tree.site marks.old ground) cursor.old) result cursor.new }
    ensures text { marks.new ≡ marks.old }
{
    let line = word(alloc, cursor, marks, Kind::TRollback)?;
    let condition = after_colon(alloc, cursor, ground.depth)?;
    let action = rollback_action(alloc, cursor)?;
    Ok(Command::Plain {
        line,
        condition,
        action,
    })
}

/// `HALT`
#[tactic(auto, unfolding(os_expressions::specs::ScriptGrammar::halt_command, text_reading::specs::Phrases::parser, text_reading::specs::Phrases::limited, text_reading::specs::Parsing::pick, text_reading::specs::Parsing::either, text_reading::specs::Parsing::sees))]
fn halt_command(
    alloc: Global,
    cursor: &mut Cursor<'_>,
    marks: &mut Marks<'_>,
    ground: Ground,
) -> Result<Command, ScriptStop>
    ensures reads { Reads (read spec.halt_command (tree.site marks.old ground) cursor.old) result cursor.new }
    ensures text { marks.new ≡ marks.old }
{
    let line = word(alloc, cursor, marks, Kind::Halt)?;
    let condition = after_colon(alloc, cursor, ground.depth)?;
    let action = Action::Halt;
    Ok(Command::Plain {
        line,
        condition,
        action,
    })
}

/// A word that is no command; it is refused.
#[tactic(auto, unfolding(os_expressions::specs::ScriptGrammar::unknown_command, text_reading::specs::Phrases::parser, text_reading::specs::Phrases::limited, text_reading::specs::Parsing::pick, text_reading::specs::Parsing::either, text_reading::specs::Parsing::sees))]
fn unknown_command(alloc: Global, cursor: &mut Cursor<'_>) -> Result<Command, ScriptStop>
    ensures { Reads (read spec.unknown_command tt cursor.old) result cursor.new }
{
    let can = cursor.sees(Kind::UnknownCommand);
    cursor.pick(alloc, can, Some(ScriptWhy::UnknownCommand))?;
    Ok(Command::Plain {
        line: 0,
        condition: None,
        action: Action::Halt,
    })
}

/// A command of transactions, `HALT`, or a word that is no command.
#[tactic(auto, unfolding(os_expressions::specs::ScriptGrammar::tran_command, text_reading::specs::Phrases::parser, text_reading::specs::Phrases::limited, text_reading::specs::Parsing::pick, text_reading::specs::Parsing::either, text_reading::specs::Parsing::sees))]
fn tran_command(
    alloc: Global,
    cursor: &mut Cursor<'_>,
    marks: &mut Marks<'_>,
    ground: Ground,
) -> Result<Command, ScriptStop>
    ensures reads { Reads (read spec.tran_command (tree.site marks.old ground) cursor.old) result cursor.new }
    ensures text { marks.new ≡ marks.old }
{
    if cursor.sees(Kind::TStart) {
        return start_command(alloc, cursor, marks, ground);
    }
    if cursor.sees(Kind::TCommit) {
        return commit_command(alloc, cursor, marks, ground);
    }
    if cursor.sees(Kind::TRollback) {
        return rollback_command(alloc, cursor, marks, ground);
    }
    if cursor.sees(Kind::Halt) {
        return halt_command(alloc, cursor, marks, ground);
    }
    unknown_command(alloc, cursor)
}

/// A command without blocks.
#[tactic(auto, unfolding(os_expressions::specs::ScriptGrammar::simple_command, text_reading::specs::Phrases::parser, text_reading::specs::Phrases::limited, text_reading::specs::Parsing::pick, text_reading::specs::Parsing::either, text_reading::specs::Parsing::sees))]
pub fn simple_command(
    alloc: Global,
    cursor: &mut Cursor<'_>,
    marks: &mut Marks<'_>,
    ground: Ground,
) -> Result<Command, ScriptStop>
    ensures reads { Reads (read spec.simple_command (tree.site marks.old ground) cursor.old) result cursor.new }
    ensures text { marks.new ≡ marks.old }
{
    if cursor.sees(Kind::Set) {
        return set_command(alloc, cursor, marks, ground);
    }
    if cursor.sees(Kind::Write) {
        return write_command(alloc, cursor, marks, ground);
    }
    if cursor.sees(Kind::Do) {
        return do_command(alloc, cursor, marks, ground);
    }
    if cursor.sees(Kind::Quit) {
        return quit_command(alloc, cursor, marks, ground);
    }
    if cursor.sees(Kind::Kill) {
        return kill_command(alloc, cursor, marks, ground);
    }
    if cursor.sees(Kind::Lock) {
        return lock_command(alloc, cursor, marks, ground);
    }
    tran_command(alloc, cursor, marks, ground)
}
