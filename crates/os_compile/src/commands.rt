//! The code of commands, blocks and whole scripts.

ghost use Rattle.std.specs.Prelude.{◌≡◌, ◌+◌, [], ◌∷◌, map, length, OnOk, IfOk};
ghost use Rattle.os_meaning.specs.Syntax as syntax;
ghost use Rattle.os_meaning.specs.Tree as tree;
ghost use Rattle.os_meaning.specs.Tree.{expr_of, script_of, command_of};
ghost use Rattle.os_code.specs.Coding.{while_code, command_code, block_size, block_code, branches_code, script_code};
ghost use Rattle.os_code.specs.declared.instruction.Instruction.TheVariants as i;
ghost use Rattle.os_compile.specs.Pieces.{beyond, counting_of, counted_code, for_code_of, branch_of, branch_code, cases_code, parts_of};

use crate::actions::put_plain;
use crate::conditions::{put_choices, put_tests};
use crate::counting::{put_counting, put_loop};
use crate::emitted::Emitted;
use crate::exit::Exit;
use obj_kinds::{NoMemory, Text};
use os_code::{Code, Instruction};
use os_kinds::{Branch, Command, Counting, Expression, Script};
use std::alloc::Global;

/// The flat code of a script. It fails only for want of memory.
///
/// Code is made from its end, so a jump forward knows how far it leads. What a loop repeats is made as a piece of its own, so that
/// its length is known when the jump back is put behind it.
#[tactic(auto, using(crate::proofs::Blocks::script_is))]
pub fn code_of(script: &Script, alloc: Global) -> Result<Code, NoMemory>
    ensures { IfOk result (λ code. code ≡ script_code (script_of script.now)) }
{
    let mut commands = Emitted::new(alloc);
    put_block(&mut commands, Exit::Next, script.as_slice())?;
    let mut out = Emitted::new(alloc);
    out.put(Instruction::Return)?;
    out.put(Instruction::Push(Text::new(alloc)))?;
    out.put_all(commands)?;
    Ok(out.finish())
}

/// Puts the code of commands, the last one first. A `QUIT` without value leads to the exit.
#[cycle(commands)]
fn put_block(out: &mut Emitted, exit: Exit, commands: &[Command]) -> Result<(), NoMemory>
    ensures { OnOk result (out.new ≡ block_code (length out.old + beyond exit) (script_of commands.now) out.old) }
{
    for command in commands.iter().rev() {
        put_command(out, exit, command)?;
    }
    Ok(())
}

/// Puts the code of one command.
#[cycle(commands)]
fn put_command(out: &mut Emitted, exit: Exit, command: &Command) -> Result<(), NoMemory>
    ensures { OnOk result (out.new ≡ command_code (length out.old + beyond exit) (command_of command.now) out.old) }
{
    match command {
        Command::Plain {
            line,
            condition,
            action,
        } => put_plain(out, *line, exit, condition, action),
        Command::If {
            branches,
            otherwise,
        } => match otherwise {
            None => put_if(out, exit, branches.as_slice()),
            Some(otherwise) => {
                let end = out.len();
                let last = otherwise.as_slice();
                put_block(out, exit, last)?;
                let first = branches.as_slice();
                put_branches(out, exit, end, first)
            }
        },
        Command::While {
            line,
            conditions,
            block,
        } => put_while(out, *line, block.as_slice(), conditions.as_slice()),
        Command::For {
            line,
            counting,
            block,
        } => {
            let body = block.as_slice();
            put_for(out, *line, body, counting)
        }
    }
}

/// Puts a loop with tests around its block.
#[cycle(commands)]
fn put_while(
    out: &mut Emitted,
    line: u32,
    block: &[Command],
    conditions: &[Expression],
) -> Result<(), NoMemory>
    ensures { OnOk result (out.new ≡ i.Unit ∷ while_code line (map expr_of conditions.now) (block_code 2 (script_of block.now)) (block_size (script_of block.now)) out.old) }
{
    let mut turn = put_turn(out.alloc(), block)?;
    put_tests(&mut turn, line, conditions)?;
    put_loop(out, turn)?;
    out.put(Instruction::Unit)
}

/// Puts a `FOR` around its block: without argument, or over numbers.
#[cycle(commands)]
fn put_for(
    out: &mut Emitted,
    line: u32,
    block: &[Command],
    counting: &Option<Counting>,
) -> Result<(), NoMemory>
    ensures { OnOk result (out.new ≡ for_code_of line counting.now (script_of block.now) out.old) }
{
    match counting {
        None => put_endless(out, line, block),
        Some(counting) => put_counted(out, line, block, counting),
    }
}

/// Puts a loop without test around its block.
#[cycle(commands)]
fn put_endless(out: &mut Emitted, line: u32, block: &[Command]) -> Result<(), NoMemory>
    ensures { OnOk result (out.new ≡ i.Unit ∷ i.Point ∷ i.Unit ∷ while_code line [] (block_code 2 (script_of block.now)) (block_size (script_of block.now)) out.old) }
{
    put_while(out, line, block, &[])?;
    out.put(Instruction::Point)?;
    out.put(Instruction::Unit)
}

/// Puts a loop over numbers around its block.
#[cycle(commands)]
fn put_counted(
    out: &mut Emitted,
    line: u32,
    block: &[Command],
    counting: &Counting,
) -> Result<(), NoMemory>
    ensures { OnOk result (out.new ≡ counted_code line (counting_of counting.now) (script_of block.now) out.old) }
{
    let turn = put_turn(out.alloc(), block)?;
    put_counting(out, line, counting, turn)
}

/// Puts an `IF` without `ELSE`.
#[cycle(commands)]
fn put_if(out: &mut Emitted, exit: Exit, branches: &[Branch]) -> Result<(), NoMemory>
    ensures { OnOk result (out.new ≡ branches_code (length out.old + beyond exit) (tree.branches (map branch_of branches.now) syntax.Empty) out.old) }
{
    let end = out.len();
    put_branches(out, exit, end, branches)
}

/// The code of a turn of a loop from the point of its test on, as a piece of its own.
#[cycle(commands)]
fn put_turn(alloc: Global, block: &[Command]) -> Result<Emitted, NoMemory>
    ensures { IfOk result (λ turn. turn ≡ i.Point ∷ block_code 2 (script_of block.now) []) }
{
    let mut turn = Emitted::new(alloc);
    put_block(&mut turn, Exit::Left, block)?;
    turn.put(Instruction::Point)?;
    Ok(turn)
}

/// Puts the branches of an `IF` before its `ELSE`, the last one first. The `IF` ends where so many instructions are left.
#[cycle(commands)]
fn put_branches(
    out: &mut Emitted,
    exit: Exit,
    end: usize,
    branches: &[Branch],
) -> Result<(), NoMemory>
    ensures { OnOk result (out.new ≡ cases_code end (beyond exit) (map parts_of branches.now) out.old) }
{
    for branch in branches.iter().rev() {
        put_branch(out, exit, end, branch)?;
    }
    Ok(())
}

/// Puts one branch before what is left of its `IF`.
#[cycle(commands)]
fn put_branch(out: &mut Emitted, exit: Exit, end: usize, branch: &Branch) -> Result<(), NoMemory>
    ensures { OnOk result (out.new ≡ branch_code end (beyond exit) (parts_of branch.now) out.old) }
{
    out.put(Instruction::Point)?;
    let miss = out.len();
    let go = miss.saturating_sub(end);
    out.put(Instruction::Go(go))?;
    put_block(out, exit, branch.block.as_slice())?;
    put_choices(out, branch.line, miss, branch.conditions.as_slice())
}
