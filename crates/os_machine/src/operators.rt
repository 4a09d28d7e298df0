ghost use Rattle.std.specs.Prelude.{Bool, Result};
ghost use Rattle.obj_kinds.specs.declared.error_name.ErrorName.{ErrorName};
ghost use Rattle.os_value.specs.Answers.{Answers};
ghost use Rattle.os_value.specs.Comparisons.{told};
ghost use Rattle.os_meaning.specs.Values.{operate, joins, opposite, sign_by, signs};

use crate::plain::Plain;
use obj_kinds::Value;
use os_kinds::{Operator, Sign, Val};
use os_value::{
    ValueError, op_add, op_and, op_at_least, op_at_most, op_contains, op_equal, op_follows,
    op_greater, op_join, op_less, op_minus, op_modulo, op_multiply, op_not, op_or, op_plus,
    op_quotient, op_subtract,
};
use std::alloc::Global;

/// The opposite of what a comparison told.
#[tactic(auto, using(crate::proofs::ValueLaws::denied))]
fn denied(alloc: Global, answer: Result<Value, ValueError>) -> Result<Value, ValueError>
    ensures { (meant : Result Bool ErrorName) → Answers answer (told meant) → Answers result (told (opposite meant)) }
{
    let value = answer?;
    op_not(alloc, &value)
}

fn operate(alloc: Global, op: Operator, a: &Value, b: &Value) -> Result<Value, ValueError>
    ensures { Answers result (operate op a.now b.now) }
{
    match op {
        Operator::Add => op_add(alloc, a, b),
        Operator::Subtract => op_subtract(alloc, a, b),
        Operator::Multiply => op_multiply(alloc, a, b),
        Operator::Quotient => op_quotient(alloc, a, b),
        Operator::Modulo => op_modulo(alloc, a, b),
        Operator::Join => op_join(alloc, a, b),
        Operator::Equal => op_equal(alloc, a, b),
        Operator::Less => op_less(alloc, a, b),
        Operator::Greater => op_greater(alloc, a, b),
        Operator::AtMost => op_at_most(alloc, a, b),
        Operator::AtLeast => op_at_least(alloc, a, b),
        Operator::Contains => op_contains(alloc, a, b),
        Operator::Follows => op_follows(alloc, a, b),
        Operator::And => op_and(alloc, a, b),
        Operator::Or => op_or(alloc, a, b),
        Operator::NotEqual => denied(alloc, op_equal(alloc, a, b)),
        Operator::NotLess => denied(alloc, op_less(alloc, a, b)),
        Operator::NotGreater => denied(alloc, op_greater(alloc, a, b)),
        Operator::NotContains => denied(alloc, op_contains(alloc, a, b)),
        Operator::NotFollows => denied(alloc, op_follows(alloc, a, b)),
        Operator::AndThen => op_and(alloc, a, b),
        Operator::OrElse => op_or(alloc, a, b),
    }
}

/// What an operator makes of two values.
#[tactic(auto, unfolding(os_meaning::specs::Values::joins))]
pub(crate) fn joined(alloc: Global, op: Operator, x: &Val, y: &Val) -> Result<Value, ValueError>
    ensures { Answers result (joins op x.now y.now) }
{
    let x = Plain::of(alloc, x)?;
    let y = Plain::of(alloc, y)?;
    operate(alloc, op, x.value(), y.value())
}

fn sign_by(alloc: Global, sign: Sign, a: &Value) -> Result<Value, ValueError>
    ensures { Answers result (sign_by sign a.now) }
{
    match sign {
        Sign::Plus => op_plus(alloc, a),
        Sign::Minus => op_minus(alloc, a),
        Sign::Not => op_not(alloc, a),
    }
}

/// What a sign makes of a value.
#[tactic(auto, unfolding(os_meaning::specs::Values::signs))]
pub(crate) fn signed(alloc: Global, sign: Sign, x: &Val) -> Result<Value, ValueError>
    ensures { Answers result (signs sign x.now) }
{
    let x = Plain::of(alloc, x)?;
    sign_by(alloc, sign, x.value())
}
