//! The code of conditions: of postconditions, of `IF`s and of loops.

ghost use Rattle.std.specs.Prelude.{◌≡◌, suc, ◌+◌, ◌-◌, ◌≤◌, ◌∷◌, map, length, OnOk};
ghost use Rattle.os_meaning.specs.Tree.{expr_of};
ghost use Rattle.os_code.specs.Coding.{expr_code, meets_code, chooses_code};
ghost use Rattle.os_code.specs.declared.instruction.Instruction.TheVariants as i;

use crate::emitted::Emitted;
use crate::exit::Exit;
use crate::expressions::put_expression;
use obj_kinds::NoMemory;
use os_code::Instruction;
use os_kinds::Expression;

/// Puts a condition before what is there. Where it doesn't hold, it jumps so far.
pub(crate) fn put_condition(
    out: &mut Emitted,
    line: u32,
    jump: usize,
    condition: &Expression,
) -> Result<(), NoMemory>
    ensures { OnOk result (out.new ≡ expr_code line (expr_of condition.now) (i.JumpUnless jump line ∷ out.old)) }
{
    out.put(Instruction::JumpUnless(jump, line))?;
    put_expression(out, line, condition)
}

/// Puts the tests of a loop before the rest of its turn. Where one doesn't hold, it jumps past the jump back that is to follow the turn.
pub(crate) fn put_tests(
    out: &mut Emitted,
    line: u32,
    conditions: &[Expression],
) -> Result<(), NoMemory>
    ensures { OnOk result (out.new ≡ meets_code line (length out.old + 1) (map expr_of conditions.now) out.old) }
{
    for condition in conditions.iter().rev() {
        let jump = out.distance(Exit::Missed);
        put_condition(out, line, jump, condition)?;
    }
    Ok(())
}

/// Puts the conditions of a branch before its block. Where one doesn't hold, it jumps to where so many instructions are left.
pub(crate) fn put_choices(
    out: &mut Emitted,
    line: u32,
    miss: usize,
    conditions: &[Expression],
) -> Result<(), NoMemory>
    requires { miss ≤ length out.old }
    ensures { OnOk result (out.new ≡ chooses_code line (length out.old - miss) (map expr_of conditions.now) out.old) }
{
    for condition in conditions.iter().rev() {
        put_choice(out, line, miss, condition)?;
    }
    Ok(())
}

/// Puts one condition of a branch.
fn put_choice(
    out: &mut Emitted,
    line: u32,
    miss: usize,
    condition: &Expression,
) -> Result<(), NoMemory>
    requires { miss ≤ length out.old }
    ensures { OnOk result (out.new ≡ i.Unit ∷ expr_code line (expr_of condition.now) (i.JumpUnless (suc (length out.old) - miss) line ∷ i.Point ∷ out.old)) }
{
    out.put(Instruction::Point)?;
    let jump = out.len() - miss;
    put_condition(out, line, jump, condition)?;
    out.put(Instruction::Unit)
}
