//! The code around what a loop repeats.

ghost use Rattle.std.specs.Prelude.{◌≡◌, ◌+◌, ◌∷◌, ◌++◌, length, OnOk};
ghost use Rattle.std.specs.Option.{option_map};
ghost use Rattle.os_meaning.specs.Tree.{expr_of};
ghost use Rattle.os_code.specs.Coding.{number_code, last_code};
ghost use Rattle.os_code.specs.declared.instruction.Instruction.TheVariants as i;
ghost use Rattle.os_compile.specs.Pieces.{counting_of, counting_code, advancing_code, header_code};

use crate::emitted::Emitted;
use crate::exit::Exit;
use crate::expressions::put_expression;
use obj_kinds::NoMemory;
use os_code::Instruction;
use os_kinds::{Counting, Expression};

/// Puts what a loop repeats, with the jump back to its start.
pub(crate) fn put_loop(out: &mut Emitted, turn: Emitted) -> Result<(), NoMemory>
    ensures { OnOk result (out.new ≡ turn ++ i.Again (length turn + 1) ∷ i.Point ∷ out.old) }
{
    out.put(Instruction::Point)?;
    out.put(Instruction::Again(turn.distance(Exit::Missed)))?;
    out.put_all(turn)
}

/// Puts a `FOR` of a variable around its turn, which begins behind the test.
#[tactic(auto, using(crate::proofs::Blocks::bounded_is))]
pub(crate) fn put_counting(
    out: &mut Emitted,
    line: u32,
    counting: &Counting,
    turn: Emitted,
) -> Result<(), NoMemory>
    ensures { OnOk result (out.new ≡ counting_code line (counting_of counting.now) turn out.old) }
{
    let bounded = counting.last.is_some();
    let passed = turn.distance(Exit::Left);
    out.put(Instruction::EndFor)?;
    put_advancing(out, line, counting, turn)?;
    out.put(Instruction::FirstTest(bounded, passed))?;
    out.put(Instruction::Unit)?;
    out.put(Instruction::Point)?;
    put_header(out, line, counting)
}

/// Puts a turn with the step to the next number before it, and the jump back.
fn put_advancing(
    out: &mut Emitted,
    line: u32,
    counting: &Counting,
    mut turn: Emitted,
) -> Result<(), NoMemory>
    ensures { OnOk result (out.new ≡ advancing_code line (counting_of counting.now) turn out.old) }
{
    let bounded = counting.last.is_some();
    let jump = turn.distance(Exit::Missed);
    let variable = out.copy(&counting.variable)?;
    turn.put(Instruction::Advance {
        variable,
        bounded,
        jump,
        line,
    })?;
    put_loop(out, turn)
}

/// Puts the numbers of a `FOR`, and what sets its variable to the first.
fn put_header(out: &mut Emitted, line: u32, counting: &Counting) -> Result<(), NoMemory>
    ensures { OnOk result (out.new ≡ header_code line (counting_of counting.now) out.old) }
{
    let variable = out.copy(&counting.variable)?;
    out.put(Instruction::BeginFor(variable))?;
    put_last(out, line, &counting.last)?;
    put_number(out, line, &counting.step)?;
    put_number(out, line, &counting.first)?;
    out.put(Instruction::Unit)
}

fn put_last(out: &mut Emitted, line: u32, last: &Option<Expression>) -> Result<(), NoMemory>
    ensures { OnOk result (out.new ≡ last_code line (option_map expr_of last.now) out.old) }
{
    match last {
        None => out.put(Instruction::NoLast),
        Some(last) => put_number(out, line, last),
    }
}

fn put_number(out: &mut Emitted, line: u32, number: &Expression) -> Result<(), NoMemory>
    ensures { OnOk result (out.new ≡ number_code line (expr_of number.now) out.old) }
{
    out.put(Instruction::TakeNumber(line))?;
    put_expression(out, line, number)
}
