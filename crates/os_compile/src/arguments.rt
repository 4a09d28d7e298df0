//! The code of `WRITE`, `DO` and `KILL`.

ghost use Rattle.std.specs.Prelude.{◌≡◌, [], ◌∷◌, map, OnOk};
ghost use Rattle.os_meaning.specs.Tree.{expr_of, place_of, output_of};
ghost use Rattle.os_code.specs.Coding.{writes_code, calls_code, kills_code};

use crate::emitted::Emitted;
use crate::expressions::{put_expression, put_subscripts};
use obj_kinds::NoMemory;
use os_code::Instruction;
use os_kinds::{Expression, Output, Place};

/// Puts the code of outputs, the last one first.
pub(crate) fn put_outputs(out: &mut Emitted, line: u32, outputs: &[Output]) -> Result<(), NoMemory>
    ensures { OnOk result (out.new ≡ writes_code line (map output_of outputs.now) out.old) }
{
    for output in outputs.iter().rev() {
        put_output(out, line, output)?;
    }
    Ok(())
}

fn put_output(out: &mut Emitted, line: u32, output: &Output) -> Result<(), NoMemory>
    ensures { OnOk result (out.new ≡ writes_code line (output_of output.now ∷ []) out.old) }
{
    out.put(Instruction::Point)?;
    match output {
        Output::Value(value) => {
            out.put(Instruction::DropTop)?;
            out.put(Instruction::Print(line))?;
            put_expression(out, line, value)?;
        }
        Output::NewLine => out.put(Instruction::PrintLine)?,
    }
    out.put(Instruction::Unit)
}

/// Puts the code of calls, the last one first.
pub(crate) fn put_calls(out: &mut Emitted, line: u32, calls: &[Expression]) -> Result<(), NoMemory>
    ensures { OnOk result (out.new ≡ calls_code line (map expr_of calls.now) out.old) }
{
    for call in calls.iter().rev() {
        put_call(out, line, call)?;
    }
    Ok(())
}

fn put_call(out: &mut Emitted, line: u32, call: &Expression) -> Result<(), NoMemory>
    ensures { OnOk result (out.new ≡ calls_code line (expr_of call.now ∷ []) out.old) }
{
    out.put(Instruction::Point)?;
    out.put(Instruction::DropTop)?;
    put_expression(out, line, call)?;
    out.put(Instruction::Unit)
}

/// Puts the code that kills places, the last one first.
pub(crate) fn put_kills(out: &mut Emitted, line: u32, places: &[Place]) -> Result<(), NoMemory>
    ensures { OnOk result (out.new ≡ kills_code line (map place_of places.now) out.old) }
{
    for place in places.iter().rev() {
        put_kill(out, line, place)?;
    }
    Ok(())
}

#[tactic(auto, using(crate::proofs::Trees::variable_is, crate::proofs::Trees::global_is, crate::proofs::Trees::node_is, crate::proofs::Trees::count_is))]
fn put_kill(out: &mut Emitted, line: u32, place: &Place) -> Result<(), NoMemory>
    ensures { OnOk result (out.new ≡ kills_code line (place_of place.now ∷ []) out.old) }
{
    match place {
        Place::Variable(name) => {
            let name = out.copy(name)?;
            out.put(Instruction::Point)?;
            out.put(Instruction::Clear(name))?;
            out.put(Instruction::Unit)
        }
        Place::Global(global) => {
            let count = global.subs.len();
            let name = out.copy(&global.name)?;
            out.put(Instruction::Point)?;
            out.put_drops_top(count)?;
            out.put(Instruction::Kill(name, count, line))?;
            put_subscripts(out, line, global.subs.as_slice())?;
            out.put(Instruction::Unit)
        }
    }
}
