//! What is asked of places: variables, and nodes of globals whose subscripts have been evaluated.

ghost use Rattle.std.specs.Prelude.{◌≡◌, OnOk};
ghost use Rattle.os_meaning.specs.Tree.{place_of};
ghost use Rattle.os_compile.specs.Chains.{read_code, get_code, get_or_code, defined_code, increment_code, increment_by_code};

use crate::emitted::Emitted;
use obj_kinds::NoMemory;
use os_code::Instruction;
use os_kinds::Place;

/// Puts what reads a place.
#[tactic(auto, using(crate::proofs::Trees::variable_is, crate::proofs::Trees::global_is, crate::proofs::Trees::node_is, crate::proofs::Trees::count_is))]
pub(crate) fn put_read(out: &mut Emitted, line: u32, place: &Place) -> Result<(), NoMemory>
    ensures { OnOk result (out.new ≡ read_code line (place_of place.now) out.old) }
{
    match place {
        Place::Variable(name) => {
            let name = out.copy(name)?;
            out.put(Instruction::Load(name, line))
        }
        Place::Global(global) => {
            let count = global.subs.len();
            let name = out.copy(&global.name)?;
            out.put_drops(count)?;
            out.put(Instruction::Get(name, count, line))
        }
    }
}

/// Puts what reads a place, or the empty text where it has no value.
#[tactic(auto, using(crate::proofs::Trees::variable_is, crate::proofs::Trees::global_is, crate::proofs::Trees::node_is, crate::proofs::Trees::count_is))]
pub(crate) fn put_get(out: &mut Emitted, line: u32, place: &Place) -> Result<(), NoMemory>
    ensures { OnOk result (out.new ≡ get_code line (place_of place.now) out.old) }
{
    match place {
        Place::Variable(name) => {
            let name = out.copy(name)?;
            out.put(Instruction::LoadOrEmpty(name))
        }
        Place::Global(global) => {
            let count = global.subs.len();
            let name = out.copy(&global.name)?;
            out.put_drops(count)?;
            out.put(Instruction::GetOrEmpty(name, count, line))
        }
    }
}

/// Puts what reads a place over what is answered where it has no value.
#[tactic(auto, using(crate::proofs::Trees::variable_is, crate::proofs::Trees::global_is, crate::proofs::Trees::node_is, crate::proofs::Trees::count_is))]
pub(crate) fn put_get_or(out: &mut Emitted, line: u32, place: &Place) -> Result<(), NoMemory>
    ensures { OnOk result (out.new ≡ get_or_code line (place_of place.now) out.old) }
{
    match place {
        Place::Variable(name) => {
            let name = out.copy(name)?;
            out.put(Instruction::DropUnder)?;
            out.put(Instruction::LoadOrJump(name, 1))
        }
        Place::Global(global) => {
            let count = global.subs.len();
            let name = out.copy(&global.name)?;
            out.put_drops(count)?;
            out.put(Instruction::DropUnder)?;
            out.put(Instruction::GetOrSkip(name, count, line))
        }
    }
}

/// Puts the test of what a place has.
#[tactic(auto, using(crate::proofs::Trees::variable_is, crate::proofs::Trees::global_is, crate::proofs::Trees::node_is, crate::proofs::Trees::count_is))]
pub(crate) fn put_defined(out: &mut Emitted, line: u32, place: &Place) -> Result<(), NoMemory>
    ensures { OnOk result (out.new ≡ defined_code line (place_of place.now) out.old) }
{
    match place {
        Place::Variable(name) => {
            let name = out.copy(name)?;
            out.put(Instruction::IsSet(name))
        }
        Place::Global(global) => {
            let count = global.subs.len();
            let name = out.copy(&global.name)?;
            out.put_drops(count)?;
            out.put(Instruction::Defined(name, count, line))
        }
    }
}

/// Puts what adds 1 to a place.
#[tactic(auto, using(crate::proofs::Trees::variable_is, crate::proofs::Trees::global_is, crate::proofs::Trees::node_is, crate::proofs::Trees::count_is))]
pub(crate) fn put_increment(out: &mut Emitted, line: u32, place: &Place) -> Result<(), NoMemory>
    ensures { OnOk result (out.new ≡ increment_code line (place_of place.now) out.old) }
{
    match place {
        Place::Variable(name) => {
            let name = out.copy(name)?;
            out.put(Instruction::Increment(name, line))
        }
        Place::Global(global) => {
            let count = global.subs.len();
            let name = out.copy(&global.name)?;
            out.put_drops(count)?;
            out.put(Instruction::Incr(name, count, line))
        }
    }
}

/// Puts what adds the top value to a place.
#[tactic(auto, using(crate::proofs::Trees::variable_is, crate::proofs::Trees::global_is, crate::proofs::Trees::node_is, crate::proofs::Trees::count_is))]
pub(crate) fn put_increment_by(out: &mut Emitted, line: u32, place: &Place) -> Result<(), NoMemory>
    ensures { OnOk result (out.new ≡ increment_by_code line (place_of place.now) out.old) }
{
    match place {
        Place::Variable(name) => {
            let name = out.copy(name)?;
            out.put(Instruction::DropUnder)?;
            out.put(Instruction::IncrementBy(name, line))
        }
        Place::Global(global) => {
            let count = global.subs.len();
            let name = out.copy(&global.name)?;
            out.put_drops(count)?;
            out.put(Instruction::DropUnder)?;
            out.put(Instruction::IncrBy(name, count, line))
        }
    }
}
