ghost use Rattle.std.specs.Prelude.{◌≡◌};
ghost use Rattle.os_value.specs.Answers.{Answers};
ghost use Rattle.os_value.specs.Arithmetic.{sum_of, difference_of, product_of, quotient_of, modulo_of, plus, minus};

use crate::error::ValueError;
use crate::numbers::{difference, modulo, product, quotient, sum};
use crate::reading::{number_answer, number_of_value, operands};
use obj_kinds::Value;
use std::alloc::Global;

/// `a + b`: the sum of two numbers.
pub fn op_add(alloc: Global, a: &Value, b: &Value) -> Result<Value, ValueError>
    ensures { Answers result (sum_of a.now b.now) }
{
    let (a, b) = operands(a, b)?;
    number_answer(alloc, sum(a, b))
}

/// `a - b`: the difference of two numbers.
pub fn op_subtract(alloc: Global, a: &Value, b: &Value) -> Result<Value, ValueError>
    ensures { Answers result (difference_of a.now b.now) }
{
    let (a, b) = operands(a, b)?;
    number_answer(alloc, difference(a, b))
}

/// `a * b`: the product of two numbers.
pub fn op_multiply(alloc: Global, a: &Value, b: &Value) -> Result<Value, ValueError>
    ensures { Answers result (product_of a.now b.now) }
{
    let (a, b) = operands(a, b)?;
    number_answer(alloc, product(a, b))
}

/// `a \ b`: the quotient, cut towards zero.
pub fn op_quotient(alloc: Global, a: &Value, b: &Value) -> Result<Value, ValueError>
    ensures { Answers result (quotient_of a.now b.now) }
{
    let (a, b) = operands(a, b)?;
    number_answer(alloc, quotient(a, b))
}

/// `a # b`: `a` minus `b` times the floor of `a` over `b`.
pub fn op_modulo(alloc: Global, a: &Value, b: &Value) -> Result<Value, ValueError>
    ensures { Answers result (modulo_of a.now b.now) }
{
    let (a, b) = operands(a, b)?;
    number_answer(alloc, modulo(a, b))
}

/// `+a`: the number.
pub fn op_plus(alloc: Global, a: &Value) -> Result<Value, ValueError>
    ensures { Answers result (plus a.now) }
{
    number_answer(alloc, number_of_value(a))
}

/// `-a`: the number with its sign turned.
pub fn op_minus(alloc: Global, a: &Value) -> Result<Value, ValueError>
    ensures { Answers result (minus a.now) }
{
    let number = number_of_value(a)?;
    number_answer(alloc, Ok(-number))
}
