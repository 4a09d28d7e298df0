//! Trees from their parts.

ghost use Rattle.std.specs.Prelude.{◌≡◌, IfOk};
ghost use Rattle.os_expressions.specs.Trees as tree;

use crate::given::{Calling, Looked, Spot};
use obj_kinds::NoMemory;
use os_kinds::{Expression, Function, Member, Operation, Sign};
use script_tokens::Kind;
use sqlite_items::{Boxed, Items};
use std::alloc::Global;

/// An expression there may begin with any token.
pub fn plain(depth: usize) -> Spot
    ensures { result ≡ tree.plain depth }
{
    Spot {
        depth,
        barred: false,
    }
}

/// Any number of arguments.
pub fn free_args(depth: usize) -> Calling
    ensures { result ≡ tree.free_args depth }
{
    Calling {
        depth,
        fewest: 0,
        most: None,
    }
}

fn fewest_of(function: Function) -> usize
    ensures { result ≡ tree.fewest_of function }
{
    match function {
        Function::Piece | Function::Find => 2,
        _ => 1,
    }
}

fn most_of(function: Function) -> usize
    ensures { result ≡ tree.most_of function }
{
    match function {
        Function::Length | Function::Ascii | Function::List => 2,
        Function::Extract | Function::Find => 3,
        Function::Piece => 4,
        Function::Char => 16,
        Function::ListBuild => 200,
        Function::ListLength => 1,
    }
}

/// As many arguments as the function has.
pub fn counted(depth: usize, function: Function) -> Calling
    ensures { result ≡ tree.counted depth function }
{
    Calling {
        depth,
        fewest: fewest_of(function),
        most: Some(most_of(function)),
    }
}

fn boxed(alloc: Global, value: Option<Expression>) -> Result<Option<Boxed<Expression>>, NoMemory>
    ensures { IfOk result (λ kept. kept ≡ value) }
{
    match value {
        Some(value) => Ok(Some(Boxed::new(alloc, value)?)),
        None => Ok(None),
    }
}

/// The function of this word over its arguments.
pub fn looked_as(alloc: Global, kind: Kind, looked: Looked) -> Result<Expression, NoMemory>
    ensures { IfOk result (λ x. x ≡ tree.looked_as kind looked) }
{
    let Looked { place, second } = looked;
    match kind {
        Kind::Get => Ok(Expression::Get(place, boxed(alloc, second)?)),
        Kind::Increment => Ok(Expression::Increment(place, boxed(alloc, second)?)),
        _ => Ok(Expression::Data(place)),
    }
}

#[tactic(auto, unfolding(crate::specs::Trees::with_members))]
pub fn with_members(
    alloc: Global,
    object: Expression,
    members: Items<Member>,
) -> Result<Expression, NoMemory>
    ensures { IfOk result (λ x. x ≡ tree.with_members object members) }
{
    if members.is_empty() {
        return Ok(object);
    }
    Ok(Expression::Members(Boxed::new(alloc, object)?, members))
}

#[tactic(auto, unfolding(crate::specs::Trees::with_signs))]
fn with_signs(
    alloc: Global,
    signs: Items<Sign>,
    operand: Expression,
) -> Result<Expression, NoMemory>
    ensures { IfOk result (λ x. x ≡ tree.with_signs signs operand) }
{
    if signs.is_empty() {
        return Ok(operand);
    }
    Ok(Expression::Signed(signs, Boxed::new(alloc, operand)?))
}

#[tactic(auto, unfolding(crate::specs::Trees::with_operations))]
pub fn with_operations(
    alloc: Global,
    first: Expression,
    operations: Items<Operation>,
) -> Result<Expression, NoMemory>
    ensures { IfOk result (λ x. x ≡ tree.with_operations first operations) }
{
    if operations.is_empty() {
        return Ok(first);
    }
    Ok(Expression::Operations(Boxed::new(alloc, first)?, operations))
}

/// An operand with its signs and members.
pub fn operand_of(
    alloc: Global,
    signs: Items<Sign>,
    primary: Expression,
    members: Items<Member>,
) -> Result<Expression, NoMemory>
    ensures { IfOk result (λ x. x ≡ tree.operand_of signs primary members) }
{
    let object = with_members(alloc, primary, members)?;
    with_signs(alloc, signs, object)
}
