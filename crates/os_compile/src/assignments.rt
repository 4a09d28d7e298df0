//! The code of `SET`.

ghost use Rattle.std.specs.Prelude.{◌≡◌, map, OnOk};
ghost use Rattle.os_meaning.specs.Syntax as syntax;
ghost use Rattle.os_meaning.specs.Tree.{expr_of, place_of, node_of, assignment_of};
ghost use Rattle.os_code.specs.Coding.{assigned_code, assigns_code};
ghost use Rattle.os_compile.specs.Pieces.{written_code};

use crate::emitted::Emitted;
use crate::expressions::{put_expression, put_subscripts};
use obj_kinds::{NoMemory, Text};
use os_code::Instruction;
use os_kinds::{Assignment, Expression, GlobalReference, Place, Target};

/// Puts the code of assignments, the last one first.
pub(crate) fn put_assignments(
    out: &mut Emitted,
    line: u32,
    assignments: &[Assignment],
) -> Result<(), NoMemory>
    ensures { OnOk result (out.new ≡ assigns_code line (map assignment_of assignments.now) out.old) }
{
    for assignment in assignments.iter().rev() {
        put_assignment(out, line, assignment)?;
    }
    Ok(())
}

/// Puts the code of one assignment.
#[tactic(auto, using(crate::proofs::Trees::variable_is, crate::proofs::Trees::global_is))]
fn put_assignment(out: &mut Emitted, line: u32, assignment: &Assignment) -> Result<(), NoMemory>
    ensures { OnOk result (out.new ≡ assigned_code line (assignment_of assignment.now).target (assignment_of assignment.now).value out.old) }
{
    match &assignment.target {
        Target::Place(Place::Variable(name)) => put_store(out, line, name, &assignment.value),
        Target::Place(Place::Global(global)) => put_set(out, line, global, &assignment.value),
        Target::OwnProperty(name) => put_own_write(out, line, name, &assignment.value),
        Target::Property { object, member } => {
            put_write(out, line, member, &assignment.value)?;
            put_expression(out, line, object)?;
            out.put(Instruction::Unit)
        }
    }
}

/// Puts the code that stores a value in a variable.
fn put_store(
    out: &mut Emitted,
    line: u32,
    variable: &Text,
    value: &Expression,
) -> Result<(), NoMemory>
    ensures { OnOk result (out.new ≡ assigned_code line (syntax.OfPlace (syntax.Local variable.now)) (expr_of value.now) out.old) }
{
    let variable = out.copy(variable)?;
    out.put(Instruction::Point)?;
    out.put(Instruction::Store(variable))?;
    put_expression(out, line, value)?;
    out.put(Instruction::Unit)
}

/// Puts the code that sets a global's node.
#[tactic(auto, using(crate::proofs::Trees::node_is, crate::proofs::Trees::count_is))]
fn put_set(
    out: &mut Emitted,
    line: u32,
    global: &GlobalReference,
    value: &Expression,
) -> Result<(), NoMemory>
    ensures { OnOk result (out.new ≡ assigned_code line (syntax.OfPlace (syntax.Global (node_of global.now).global (node_of global.now).subs)) (expr_of value.now) out.old) }
{
    let count = global.subs.len();
    let name = out.copy(&global.name)?;
    out.put(Instruction::Point)?;
    out.put_drops_top(count)?;
    out.put(Instruction::DropTop)?;
    out.put(Instruction::Set(name, count, line))?;
    put_expression(out, line, value)?;
    put_subscripts(out, line, global.subs.as_slice())?;
    out.put(Instruction::Unit)
}

/// Puts the code that sets a property of the object whose method runs.
fn put_own_write(
    out: &mut Emitted,
    line: u32,
    property: &Text,
    value: &Expression,
) -> Result<(), NoMemory>
    ensures { OnOk result (out.new ≡ assigned_code line (syntax.OfOwn property.now) (expr_of value.now) out.old) }
{
    let property = out.copy(property)?;
    out.put(Instruction::Point)?;
    out.put(Instruction::DropTop)?;
    out.put(Instruction::WriteOwn(property, line))?;
    put_expression(out, line, value)?;
    out.put(Instruction::TestThis(line))?;
    out.put(Instruction::Unit)
}

/// Puts the code that sets a property of the object that has been evaluated.
fn put_write(
    out: &mut Emitted,
    line: u32,
    property: &Text,
    value: &Expression,
) -> Result<(), NoMemory>
    ensures { OnOk result (out.new ≡ written_code line property.now (expr_of value.now) out.old) }
{
    let property = out.copy(property)?;
    out.put(Instruction::Point)?;
    out.put(Instruction::DropTop)?;
    out.put(Instruction::DropTop)?;
    out.put(Instruction::Write(property, line))?;
    put_expression(out, line, value)
}
