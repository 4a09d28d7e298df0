ghost use Rattle.std.specs.Prelude.{◌≡◌, neg_ℤ, pos, ◌≢◌};
ghost use Rattle.std.specs.Int.{int_rem_euclid};
ghost use Rattle.obj_kinds.specs.Subscript.{IsWhole};
ghost use Rattle.os_value.specs.Numbers.{sum, difference, product, quotient, rest, modulo};

use crate::reading::in_limits;
use obj_kinds::ErrorName;

/// The sum.
pub fn sum(a: i64, b: i64) -> Result<i64, ErrorName>
    requires left { IsWhole a }
    requires right { IsWhole b }
    ensures { result ≡ sum a b }
{
    in_limits(a + b)
}

/// The difference.
pub fn difference(a: i64, b: i64) -> Result<i64, ErrorName>
    requires left { IsWhole a }
    requires right { IsWhole b }
    ensures { result ≡ difference a b }
{
    in_limits(a - b)
}

/// The product.
pub fn product(a: i64, b: i64) -> Result<i64, ErrorName>
    ensures { result ≡ product a b }
{
    match a.checked_mul(b) {
        Some(number) => in_limits(number),
        None => Err(ErrorName::MaxNumber),
    }
}

/// The quotient, cut towards zero.
pub fn quotient(a: i64, b: i64) -> Result<i64, ErrorName>
    requires { IsWhole a }
    ensures { result ≡ quotient a b }
{
    if b == 0 {
        return Err(ErrorName::Divide);
    }
    Ok(a / b)
}

fn negated(number: i64) -> i64
    requires { IsWhole number }
    ensures turned { result ≡ neg_ℤ number }
    ensures small { IsWhole result }
{
    -number
}

fn rest_over(a: i64, b: i64) -> i64
    requires left { IsWhole a }
    requires right { IsWhole b }
    requires divides { b ≢ pos 0 }
    ensures rest { result ≡ int_rem_euclid a b }
    ensures small { IsWhole result }
{
    a.rem_euclid(b)
}

fn rest_under(a: i64, b: i64) -> i64
    requires left { IsWhole a }
    requires right { IsWhole b }
    requires divides { b ≢ pos 0 }
    ensures rest { result ≡ neg_ℤ (int_rem_euclid (neg_ℤ a) b) }
    ensures small { IsWhole result }
{
    let turned = negated(a);
    let rest = rest_over(turned, b);
    negated(rest)
}

#[tactic(auto, using(crate::proofs::RestLaws::over_positive, crate::proofs::RestLaws::over_negative))]
fn rest(a: i64, b: i64) -> i64
    requires left { IsWhole a }
    requires right { IsWhole b }
    requires divides { b ≢ pos 0 }
    ensures { result ≡ rest a b }
{
    if b > 0 {
        rest_over(a, b)
    } else {
        rest_under(a, b)
    }
}

/// What is left of `a` without `b` times the floor of `a` over `b`.
pub fn modulo(a: i64, b: i64) -> Result<i64, ErrorName>
    requires left { IsWhole a }
    requires right { IsWhole b }
    ensures { result ≡ modulo a b }
{
    if b == 0 {
        return Err(ErrorName::Divide);
    }
    Ok(rest(a, b))
}
