//! The first variables of a method: the values of its call, and defaults.

ghost use Rattle.std.specs.Prelude.{◌≡◌, [], reverse, IfOk, OnOk};
ghost use Rattle.os_meaning.specs.Frames.{with_var};
ghost use Rattle.host_meaning.specs.Methods.{arguments};
ghost use Rattle.method_calls.specs.Programs.{AreApart};
ghost use Rattle.method_calls.specs.Binding.{first, later, or_default, put_value, bound};

use obj_kinds::{NoMemory, Text, Value};
use os_kinds::{Val, Vals};
use os_machine::Variables;
use schema_kinds::Arg;
use std::alloc::Global;

/// The same values, the last first.
#[tactic(auto, using(crate::proofs::Binding::one_more))]
fn reversed(alloc: Global, mut values: Vals) -> Result<Vals, NoMemory>
    ensures { IfOk result (λ turned. turned ≡ reverse values) }
{
    let mut turned = Vals::new(alloc);
    while let Some(value) = values.pop() {
        turned.push(value)?;
    }
    Ok(turned)
}

/// Takes the next value, where the last stands first.
fn take_next(values: &mut Vals) -> Option<Val>
    ensures next { result ≡ first (reverse values.old) }
    ensures rest { reverse values.new ≡ later (reverse values.old) }
{
    values.pop()
}

fn given_or_default(alloc: Global, arg: &Arg, value: Option<Val>) -> Result<Option<Val>, NoMemory>
    ensures { IfOk result (λ v. v ≡ or_default arg.now.default value) }
{
    match value {
        Some(value) => Ok(Some(value)),
        None => match &arg.default {
            Some(text) => Ok(Some(Val::Data(Value::Str(text.copy(alloc)?)))),
            None => Ok(None),
        },
    }
}

fn set(alloc: Global, vars: &mut Variables, name: &Text, value: Val) -> Result<(), NoMemory>
    ensures { OnOk result (vars.new ≡ with_var name.now value vars.old) }
{
    match vars.set(alloc, name, value) {
        Ok(_) => Ok(()),
        Err(_) => Err(NoMemory),
    }
}

fn put(alloc: Global, vars: &mut Variables, arg: &Arg, value: Option<Val>) -> Result<(), NoMemory>
    ensures { OnOk result (vars.new ≡ put_value arg.now.name (or_default arg.now.default value) vars.old) }
{
    match given_or_default(alloc, arg, value)? {
        Some(value) => set(alloc, vars, &arg.name, value),
        None => Ok(()),
    }
}

fn bind_each(alloc: Global, args: &[Arg], mut values: Vals) -> Result<Variables, NoMemory>
    ensures { IfOk result (λ vars. vars ≡ bound args.now (reverse values) []) }
{
    let mut vars = Variables::new(alloc);
    for arg in args {
        let value = take_next(&mut values);
        put(alloc, &mut vars, arg, value)?;
    }
    Ok(vars)
}

/// The first variables of a method with these arguments; none where more values are given than it has arguments.
#[tactic(auto, using(crate::proofs::Binding::binds, crate::proofs::Binding::too_many, crate::proofs::Binding::turned_twice))]
pub fn bind(alloc: Global, args: &[Arg], values: Vals) -> Result<Option<Variables>, NoMemory>
    requires apart { AreApart args.now }
    ensures { IfOk result (λ vars. vars ≡ arguments args.now values) }
{
    if values.len() > args.len() {
        return Ok(None);
    }
    let vars = bind_each(alloc, args, reversed(alloc, values)?)?;
    Ok(Some(vars))
}
