ghost use Rattle.std.specs.Prelude.{◌≡◌, [], ◌∷◌, false, Err, IfOk, map};
ghost use Rattle.obj_kinds.specs.declared.error_name.ErrorName.TheVariants.{Function as NoSuchFunction};
ghost use Rattle.os_value.specs.Answers.{Answers};
ghost use Rattle.os_value.specs.declared.error.ValueError.TheVariants.{Script};
ghost use Rattle.os_meaning.specs.Values.{apply, applies, plain};
ghost use Rattle.os_machine.specs.Plains.{takes_any};

use crate::plain::Plain;
use crate::values::plain_copy;
use obj_kinds::{ErrorName, NoMemory, Value, Values};
use os_kinds::{Function, Val};
use os_value::{
    ValueError, fn_ascii, fn_char, fn_extract, fn_find, fn_length, fn_list, fn_list_build,
    fn_list_length, fn_piece,
};
use sqlite_items::Items;
use std::alloc::Global;

/// The values as operators take them.
fn plain_copies(alloc: Global, values: &[Val]) -> Result<Values, NoMemory>
    ensures { IfOk result (λ copies. copies ≡ map plain values.now) }
{
    let mut copies = Items::new(alloc);
    for value in values {
        copies.push(plain_copy(alloc, value)?)?;
    }
    Ok(copies)
}

/// A function hasn't so many arguments.
fn refused() -> Result<Value, ValueError>
    ensures { result ≡ Err (Script NoSuchFunction) }
{
    Err(ValueError::Script(ErrorName::Function))
}

fn of_one(alloc: Global, function: Function, a: &Val) -> Result<Value, ValueError>
    requires { takes_any function ≡ false }
    ensures { Answers result (apply function (plain a.now ∷ [])) }
{
    let a = Plain::of(alloc, a)?;
    let a = a.value();
    match function {
        Function::Length => fn_length(alloc, a, None),
        Function::Extract => fn_extract(alloc, a, None, None),
        Function::Ascii => fn_ascii(alloc, a, None),
        Function::List => fn_list(alloc, a, None),
        Function::ListLength => fn_list_length(alloc, a),
        Function::Piece => refused(),
        Function::Find => refused(),
        Function::Char => refused(),
        Function::ListBuild => refused(),
    }
}

fn of_two(alloc: Global, function: Function, a: &Val, b: &Val) -> Result<Value, ValueError>
    requires { takes_any function ≡ false }
    ensures { Answers result (apply function (plain a.now ∷ plain b.now ∷ [])) }
{
    let a = Plain::of(alloc, a)?;
    let b = Plain::of(alloc, b)?;
    let (a, b) = (a.value(), b.value());
    match function {
        Function::Length => fn_length(alloc, a, Some(b)),
        Function::Extract => fn_extract(alloc, a, Some(b), None),
        Function::Piece => fn_piece(alloc, a, b, None, None),
        Function::Find => fn_find(alloc, a, b, None),
        Function::Ascii => fn_ascii(alloc, a, Some(b)),
        Function::List => fn_list(alloc, a, Some(b)),
        Function::ListLength => refused(),
        Function::Char => refused(),
        Function::ListBuild => refused(),
    }
}

fn of_three(
    alloc: Global,
    function: Function,
    a: &Val,
    b: &Val,
    c: &Val,
) -> Result<Value, ValueError>
    requires { takes_any function ≡ false }
    ensures { Answers result (apply function (plain a.now ∷ plain b.now ∷ plain c.now ∷ [])) }
{
    let a = Plain::of(alloc, a)?;
    let b = Plain::of(alloc, b)?;
    let c = Plain::of(alloc, c)?;
    let (a, b, c) = (a.value(), b.value(), c.value());
    match function {
        Function::Extract => fn_extract(alloc, a, Some(b), Some(c)),
        Function::Piece => fn_piece(alloc, a, b, Some(c), None),
        Function::Find => fn_find(alloc, a, b, Some(c)),
        Function::Length => refused(),
        Function::Ascii => refused(),
        Function::List => refused(),
        Function::ListLength => refused(),
        Function::Char => refused(),
        Function::ListBuild => refused(),
    }
}

/// The piece from place `c` to `d`; no other function has four arguments.
fn of_four(
    alloc: Global,
    function: Function,
    a: &Val,
    b: &Val,
    c: &Val,
    d: &Val,
) -> Result<Value, ValueError>
    requires { takes_any function ≡ false }
    ensures { Answers result (apply function (plain a.now ∷ plain b.now ∷ plain c.now ∷ plain d.now ∷ [])) }
{
    let a = Plain::of(alloc, a)?;
    let b = Plain::of(alloc, b)?;
    let c = Plain::of(alloc, c)?;
    let d = Plain::of(alloc, d)?;
    match function {
        Function::Piece => fn_piece(
            alloc,
            a.value(),
            b.value(),
            Some(c.value()),
            Some(d.value()),
        ),
        Function::Extract => refused(),
        Function::Find => refused(),
        Function::Length => refused(),
        Function::Ascii => refused(),
        Function::List => refused(),
        Function::ListLength => refused(),
        Function::Char => refused(),
        Function::ListBuild => refused(),
    }
}

#[tactic(auto, using(crate::proofs::ValueLaws::too_many))]
fn behind_three(
    alloc: Global,
    function: Function,
    a: &Val,
    b: &Val,
    c: &Val,
    rest: &[Val],
) -> Result<Value, ValueError>
    requires { takes_any function ≡ false }
    ensures { Answers result (apply function (plain a.now ∷ plain b.now ∷ plain c.now ∷ map plain rest.now)) }
{
    match rest.split_first() {
        None => of_three(alloc, function, a, b, c),
        Some((d, rest)) => match rest.split_first() {
            None => of_four(alloc, function, a, b, c, d),
            Some(_) => refused(),
        },
    }
}

fn behind_two(
    alloc: Global,
    function: Function,
    a: &Val,
    b: &Val,
    rest: &[Val],
) -> Result<Value, ValueError>
    requires { takes_any function ≡ false }
    ensures { Answers result (apply function (plain a.now ∷ plain b.now ∷ map plain rest.now)) }
{
    match rest.split_first() {
        None => of_two(alloc, function, a, b),
        Some((c, rest)) => behind_three(alloc, function, a, b, c, rest),
    }
}

fn behind_one(alloc: Global, function: Function, a: &Val, rest: &[Val]) -> Result<Value, ValueError>
    requires { takes_any function ≡ false }
    ensures { Answers result (apply function (plain a.now ∷ map plain rest.now)) }
{
    match rest.split_first() {
        None => of_one(alloc, function, a),
        Some((b, rest)) => behind_two(alloc, function, a, b, rest),
    }
}

/// A function that has at most four arguments.
#[tactic(auto, using(crate::proofs::ValueLaws::too_few))]
fn of_some(alloc: Global, function: Function, values: &[Val]) -> Result<Value, ValueError>
    requires { takes_any function ≡ false }
    ensures { Answers result (apply function (map plain values.now)) }
{
    match values.split_first() {
        None => refused(),
        Some((a, rest)) => behind_one(alloc, function, a, rest),
    }
}

/// What a function makes of its arguments.
#[tactic(auto, unfolding(os_meaning::specs::Values::applies))]
pub(crate) fn applied(
    alloc: Global,
    function: Function,
    values: &[Val],
) -> Result<Value, ValueError>
    ensures { Answers result (applies function values.now) }
{
    match function {
        Function::Char => fn_char(alloc, &plain_copies(alloc, values)?),
        Function::ListBuild => fn_list_build(alloc, &plain_copies(alloc, values)?),
        _ => of_some(alloc, function, values),
    }
}
