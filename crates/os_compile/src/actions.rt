//! The code of commands without blocks.

ghost use Rattle.std.specs.Prelude.{◌≡◌, ◌+◌, ◌∷◌, length, Some, OnOk};
ghost use Rattle.std.specs.Option.{option_map};
ghost use Rattle.os_meaning.specs.Tree.{expr_of, action_of};
ghost use Rattle.os_code.specs.Coding.{expr_code, action_code, plain_code};
ghost use Rattle.os_code.specs.declared.instruction.Instruction.TheVariants as i;
ghost use Rattle.os_compile.specs.Pieces.{beyond};

use crate::arguments::{put_calls, put_kills, put_outputs};
use crate::assignments::put_assignments;
use crate::conditions::put_condition;
use crate::emitted::Emitted;
use crate::exit::Exit;
use crate::expressions::put_expression;
use crate::locks::put_locks;
use obj_kinds::NoMemory;
use os_code::Instruction;
use os_kinds::{Action, Expression};

/// Puts the code of a command without blocks, with its postcondition. A `QUIT` leads to the exit.
pub(crate) fn put_plain(
    out: &mut Emitted,
    line: u32,
    exit: Exit,
    condition: &Option<Expression>,
    action: &Action,
) -> Result<(), NoMemory>
    ensures { OnOk result (out.new ≡ plain_code line (length out.old + beyond exit) (option_map expr_of condition.now) (action_of action.now) out.old) }
{
    match condition {
        None => put_action(out, line, exit, action),
        Some(condition) => put_where(out, line, exit, condition, action),
    }
}

/// Puts the code of a command with a postcondition. Where that doesn't hold, it jumps past the command to a point of its own.
fn put_where(
    out: &mut Emitted,
    line: u32,
    exit: Exit,
    condition: &Expression,
    action: &Action,
) -> Result<(), NoMemory>
    ensures { OnOk result (out.new ≡ plain_code line (length out.old + beyond exit) (Some (expr_of condition.now)) (action_of action.now) out.old) }
{
    out.put(Instruction::Point)?;
    let miss = out.len();
    out.put(Instruction::Go(1))?;
    put_action(out, line, exit, action)?;
    out.put(Instruction::Point)?;
    let jump = out.len() - miss;
    put_condition(out, line, jump, condition)
}

/// Puts the code of a command without blocks.
fn put_action(out: &mut Emitted, line: u32, exit: Exit, action: &Action) -> Result<(), NoMemory>
    ensures { OnOk result (out.new ≡ action_code line (length out.old + beyond exit) (action_of action.now) out.old) }
{
    match action {
        Action::Set(assignments) => put_assignments(out, line, assignments.as_slice()),
        Action::Write(outputs) => put_outputs(out, line, outputs.as_slice()),
        Action::Do(calls) => put_calls(out, line, calls.as_slice()),
        Action::Kill(places) => put_kills(out, line, places.as_slice()),
        Action::Lock(claims) => put_locks(out, line, claims.as_slice()),
        Action::Quit(None) => put_quit(out, exit),
        Action::Quit(Some(value)) => put_quit_with(out, line, value),
        Action::Halt => put_halt(out),
        Action::KillAll => put_one(out, Instruction::ClearAll),
        Action::UnlockAll => put_one(out, Instruction::UnlockAll),
        Action::TStart => put_one(out, Instruction::Begin(line)),
        Action::TCommit => put_one(out, Instruction::Commit(line)),
        Action::TRollback => put_one(out, Instruction::RollbackAll),
        Action::TRollbackOne => put_one(out, Instruction::RollbackOne),
    }
}

/// Puts one instruction as a command argument: with its unit and its end.
fn put_one(out: &mut Emitted, instruction: Instruction) -> Result<(), NoMemory>
    ensures { OnOk result (out.new ≡ i.Unit ∷ instruction ∷ i.Point ∷ out.old) }
{
    out.put(Instruction::Point)?;
    out.put(instruction)?;
    out.put(Instruction::Unit)
}

fn put_quit(out: &mut Emitted, exit: Exit) -> Result<(), NoMemory>
    ensures { OnOk result (out.new ≡ i.Unit ∷ i.Point ∷ i.Go (length out.old + beyond exit) ∷ out.old) }
{
    let far = out.distance(exit);
    out.put(Instruction::Go(far))?;
    out.put(Instruction::Point)?;
    out.put(Instruction::Unit)
}

fn put_quit_with(out: &mut Emitted, line: u32, value: &Expression) -> Result<(), NoMemory>
    ensures { OnOk result (out.new ≡ i.Unit ∷ expr_code line (expr_of value.now) (i.Point ∷ i.Return ∷ out.old)) }
{
    out.put(Instruction::Return)?;
    out.put(Instruction::Point)?;
    put_expression(out, line, value)?;
    out.put(Instruction::Unit)
}

fn put_halt(out: &mut Emitted) -> Result<(), NoMemory>
    ensures { OnOk result (out.new ≡ i.Unit ∷ i.Halt ∷ out.old) }
{
    out.put(Instruction::Halt)?;
    out.put(Instruction::Unit)
}
