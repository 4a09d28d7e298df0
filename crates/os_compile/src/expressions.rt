//! The code of expressions.

ghost use Rattle.std.specs.Prelude.{◌≡◌, ◌+◌, ◌<◌, ◌∷◌, map, OnOk, IfOk};
ghost use Rattle.os_kinds.specs.declared.expression.Operator.TheVariants as op;
ghost use Rattle.os_meaning.specs.Syntax as syntax;
ghost use Rattle.os_meaning.specs.Tree.{exprs, expr_of, place_of, node_of, own_by};
ghost use Rattle.os_code.specs.Coding.{expr_size, expr_code, args_code, subs_code, steps_code};
ghost use Rattle.os_code.specs.declared.instruction.Instruction.TheVariants as i;
ghost use Rattle.os_compile.specs.Chains.{member_of, operation_of, method_first, if_none, place_code, code_before, read_by, call_by, member_code, members_code, signs_code, operation_code, operations_code};
ghost use Rattle.os_compile.specs.Steps.{step_at};

use crate::emitted::Emitted;
use crate::places::{put_defined, put_get, put_get_or, put_increment, put_increment_by, put_read};
use crate::receiver::Receiver;
use obj_kinds::{NoMemory, Text};
use os_code::Instruction;
use os_kinds::{Expression, GlobalReference, Member, Operation, Operator, Place, Sign};

/// Puts the code of an expression before what is there.
#[cycle(expressions)]
#[tactic(auto, using(crate::proofs::Chains::code_before_other))]
pub(crate) fn put_expression(
    out: &mut Emitted,
    line: u32,
    expression: &Expression,
) -> Result<(), NoMemory>
    ensures { OnOk result (out.new ≡ expr_code line (expr_of expression.now) out.old) }
{
    put_before(out, line, false, expression)
}

/// The same, where it is said whether a method of the expression follows: a property is then read as what the method is one of.
#[cycle(expressions)]
#[tactic(auto, using(crate::proofs::ExpressionKinds::function_before, crate::proofs::ExpressionKinds::class_call_before, crate::proofs::Chains::members_before, crate::proofs::Chains::signed_before, crate::proofs::Chains::operations_before))]
fn put_before(
    out: &mut Emitted,
    line: u32,
    method: bool,
    expression: &Expression,
) -> Result<(), NoMemory>
    ensures { OnOk result (out.new ≡ code_before line method (expr_of expression.now) out.old) }
{
    match expression {
        Expression::Literal(text) => {
            let text = out.copy(text)?;
            out.put(Instruction::Push(text))
        }
        Expression::Value(place) => {
            put_read(out, line, place)?;
            put_place(out, line, place)
        }
        Expression::Special(special) => out.put(Instruction::Special(*special, line)),
        Expression::This => out.put(Instruction::This(line)),
        Expression::Function(function, args) => {
            let count = args.len();
            out.put_drops(count)?;
            out.put(Instruction::Apply(*function, count, line))?;
            put_arguments(out, line, args.as_slice())
        }
        Expression::Get(place, None) => {
            put_get(out, line, place)?;
            put_place(out, line, place)
        }
        Expression::Get(place, Some(otherwise)) => {
            put_get_or(out, line, place)?;
            put_expression(out, line, otherwise.get())?;
            put_place(out, line, place)
        }
        Expression::Data(place) => {
            put_defined(out, line, place)?;
            put_place(out, line, place)
        }
        Expression::Order(global) => put_order(out, line, global),
        Expression::Increment(place, None) => {
            put_increment(out, line, place)?;
            put_place(out, line, place)
        }
        Expression::Increment(place, Some(step)) => {
            put_increment_by(out, line, place)?;
            put_expression(out, line, step.get())?;
            put_place(out, line, place)
        }
        Expression::ClassCall {
            class,
            member,
            args,
        } => {
            let count = args.len();
            out.put_drops(count)?;
            let class = class.copy(out.alloc())?;
            let member = out.copy(member)?;
            out.put(Instruction::CallClass {
                class,
                member,
                count,
                line,
            })?;
            put_arguments(out, line, args.as_slice())
        }
        Expression::Own(member) => put_own(out, line, method, member),
        Expression::Members(object, members) => {
            let receiver = Receiver::of(object.get(), out.alloc())?;
            put_members(out, line, method, &receiver, members.as_slice())?;
            put_before(
                out,
                line,
                is_method_first(members.as_slice(), method),
                object.get(),
            )
        }
        Expression::Signed(signs, operand) => {
            put_signs(out, line, signs.as_slice())?;
            put_before(out, line, if_none(signs.as_slice(), method), operand.get())
        }
        Expression::Operations(left, operations) => {
            put_operations(out, line, operations.as_slice())?;
            put_before(
                out,
                line,
                if_none(operations.as_slice(), method),
                left.get(),
            )
        }
    }
}

/// Puts the code of arguments, the last one first.
#[cycle(expressions)]
fn put_arguments(out: &mut Emitted, line: u32, args: &[Expression]) -> Result<(), NoMemory>
    ensures { OnOk result (out.new ≡ args_code line (exprs (map expr_of args.now)) out.old) }
{
    for arg in args.iter().rev() {
        put_expression(out, line, arg)?;
    }
    Ok(())
}

/// Puts the code of a place's subscripts.
#[cycle(expressions)]
#[tactic(auto, using(crate::proofs::Trees::variable_is, crate::proofs::Trees::global_is, crate::proofs::Trees::node_is))]
pub(crate) fn put_place(out: &mut Emitted, line: u32, place: &Place) -> Result<(), NoMemory>
    ensures { OnOk result (out.new ≡ place_code line (place_of place.now) out.old) }
{
    match place {
        Place::Variable(_) => Ok(()),
        Place::Global(global) => put_subscripts(out, line, global.subs.as_slice()),
    }
}

/// Puts the code of subscripts, the last one first. Each is tested as one behind so many others.
#[cycle(expressions)]
pub(crate) fn put_subscripts(
    out: &mut Emitted,
    line: u32,
    subs: &[Expression],
) -> Result<(), NoMemory>
    ensures { OnOk result (out.new ≡ subs_code line 0 (exprs (map expr_of subs.now)) out.old) }
{
    let mut others = subs.len();
    for sub in subs.iter().rev() {
        others -= 1;
        out.put(Instruction::TestSubscript(others, line))?;
        put_expression(out, line, sub)?;
    }
    Ok(())
}

/// Puts the code of `$ORDER`.
#[cycle(expressions)]
#[tactic(auto, using(crate::proofs::Trees::node_is, crate::proofs::Trees::count_is))]
fn put_order(out: &mut Emitted, line: u32, global: &GlobalReference) -> Result<(), NoMemory>
    ensures { OnOk result (out.new ≡ expr_code line (syntax.Order (node_of global.now).global (node_of global.now).subs) out.old) }
{
    let count = global.subs.len();
    out.put_drops(count)?;
    let name = out.copy(&global.name)?;
    out.put(Instruction::Order(name, count, line))?;
    put_steps(out, line, global.subs.as_slice())
}

/// Puts the code of the subscripts of `$ORDER`, the last one first; that one may be empty.
#[cycle(expressions)]
#[tactic(auto, using(crate::proofs::Steps::steps_none))]
fn put_steps(out: &mut Emitted, line: u32, subs: &[Expression]) -> Result<(), NoMemory>
    ensures { OnOk result (out.new ≡ steps_code line 0 (exprs (map expr_of subs.now)) out.old) }
{
    let count = subs.len();
    let mut at = count;
    while at > 0 {
        at -= 1;
        put_step_test(out, line, at, count)?;
        put_expression(out, line, &subs[at])?;
    }
    Ok(())
}

/// Puts the test of a subscript of `$ORDER` behind so many others, where there are so many in all.
fn put_step_test(out: &mut Emitted, line: u32, others: usize, count: usize) -> Result<(), NoMemory>
    requires { others < count }
    ensures { OnOk result (out.new ≡ step_at line others count ∷ out.old) }
{
    if others + 1 == count {
        out.put(Instruction::TestAfter(others, line))
    } else {
        out.put(Instruction::TestSubscript(others, line))
    }
}

/// Puts the code of a member of the object whose method runs.
#[cycle(expressions)]
#[tactic(auto, using(crate::proofs::Trees::member_is, crate::proofs::Trees::count_is))]
fn put_own(out: &mut Emitted, line: u32, method: bool, member: &Member) -> Result<(), NoMemory>
    ensures { OnOk result (out.new ≡ code_before line method (own_by (member_of member.now).name (member_of member.now).args) out.old) }
{
    let name = out.copy(&member.name)?;
    match &member.args {
        None if method => out.put(Instruction::ReadOwnSubject(name, line)),
        None => out.put(Instruction::ReadOwn(name, line)),
        Some(args) => {
            let count = args.len();
            out.put_drops(count)?;
            out.put(Instruction::CallOwn(name, count, line))?;
            put_arguments(out, line, args.as_slice())
        }
    }
}

/// Whether a method stands first, where it is said whether one stands behind them all.
#[tactic(auto, using(crate::proofs::Trees::member_is))]
fn is_method_first(members: &[Member], method: bool) -> bool
    ensures { result ≡ method_first (map member_of members.now) method }
{
    match members.split_first() {
        Some((first, _)) => first.args.is_some(),
        None => method,
    }
}

/// Puts the code of members, the last one first.
#[cycle(expressions)]
fn put_members(
    out: &mut Emitted,
    line: u32,
    method: bool,
    receiver: &Receiver,
    members: &[Member],
) -> Result<(), NoMemory>
    ensures { OnOk result (out.new ≡ members_code line receiver.now method (map member_of members.now) out.old) }
{
    let mut next = method;
    let mut at = members.len();
    while at > 0 {
        at -= 1;
        let member = &members[at];
        let before = receiver.behind(&members[..at], out.alloc())?;
        put_member(out, line, next, before, member)?;
        next = member.args.is_some();
    }
    Ok(())
}

/// Puts the code of a member of this receiver.
#[cycle(expressions)]
#[tactic(auto, using(crate::proofs::Trees::member_is, crate::proofs::Trees::count_is))]
fn put_member(
    out: &mut Emitted,
    line: u32,
    method: bool,
    receiver: Receiver,
    member: &Member,
) -> Result<(), NoMemory>
    ensures { OnOk result (out.new ≡ member_code line receiver method (member_of member.now) out.old) }
{
    let name = out.copy(&member.name)?;
    match &member.args {
        None => {
            out.put(Instruction::DropUnder)?;
            put_property(out, line, method, name)
        }
        Some(args) => {
            let count = args.len();
            out.put(Instruction::DropUnder)?;
            out.put_drops(count)?;
            put_call(out, line, receiver, name, count)?;
            put_arguments(out, line, args.as_slice())
        }
    }
}

/// Puts what reads a property of the top value.
fn put_property(out: &mut Emitted, line: u32, method: bool, name: Text) -> Result<(), NoMemory>
    ensures { OnOk result (out.new ≡ read_by line method name ∷ out.old) }
{
    if method {
        out.put(Instruction::ReadSubject(name, line))
    } else {
        out.put(Instruction::Read(name, line))
    }
}

/// Puts the call of a method with so many arguments.
fn put_call(
    out: &mut Emitted,
    line: u32,
    receiver: Receiver,
    member: Text,
    count: usize,
) -> Result<(), NoMemory>
    ensures { OnOk result (out.new ≡ call_by line receiver member count ∷ out.old) }
{
    match receiver {
        Receiver::Value => out.put(Instruction::CallMember(member, count, line)),
        Receiver::Property(property) => out.put(Instruction::CallSubject {
            property,
            member,
            count,
            line,
        }),
        Receiver::OwnProperty(property) => out.put(Instruction::CallOwnSubject {
            property,
            member,
            count,
            line,
        }),
    }
}

/// Puts the code of signs: the last one is applied first.
fn put_signs(out: &mut Emitted, line: u32, signs: &[Sign]) -> Result<(), NoMemory>
    ensures { OnOk result (out.new ≡ signs_code line signs.now out.old) }
{
    let mut rest = signs;
    while let Some((sign, more)) = rest.split_first() {
        out.put(Instruction::DropUnder)?;
        out.put(Instruction::Sign(*sign, line))?;
        rest = more;
    }
    Ok(())
}

/// What is said, where there are no items.
fn if_none<T>(items: &[T], method: bool) -> bool
    ensures { result ≡ if_none items.now method }
{
    match items.split_first() {
        Some(_) => false,
        None => method,
    }
}

/// Puts the code of operations, the last one first.
#[cycle(expressions)]
fn put_operations(out: &mut Emitted, line: u32, operations: &[Operation]) -> Result<(), NoMemory>
    ensures { OnOk result (out.new ≡ operations_code line (map operation_of operations.now) out.old) }
{
    for operation in operations.iter().rev() {
        put_operation(out, line, operation)?;
    }
    Ok(())
}

/// Puts the code of an operation on what has been evaluated.
#[cycle(expressions)]
#[tactic(auto, using(crate::proofs::Trees::operation_is))]
fn put_operation(out: &mut Emitted, line: u32, operation: &Operation) -> Result<(), NoMemory>
    ensures { OnOk result (out.new ≡ operation_code line (operation_of operation.now).operator (operation_of operation.now).right out.old) }
{
    match operation.operator {
        Operator::AndThen => put_and_then(out, line, &operation.right),
        Operator::OrElse => put_or_else(out, line, &operation.right),
        operator => {
            out.put(Instruction::DropUnder)?;
            out.put(Instruction::DropUnder)?;
            out.put(Instruction::Operate(operator, line))?;
            put_expression(out, line, &operation.right)
        }
    }
}

/// Puts the code of `&&` and its right operand, which is left out where the top value doesn't hold.
#[cycle(expressions)]
fn put_and_then(out: &mut Emitted, line: u32, right: &Expression) -> Result<(), NoMemory>
    ensures { OnOk result (out.new ≡ operation_code line op.AndThen (expr_of right.now) out.old) }
{
    out.put(Instruction::DropUnder)?;
    out.put(Instruction::PushTruth(false))?;
    let jump = put_truth(out, line, right)?;
    out.put(Instruction::SkipUnless(jump, line))
}

/// Puts the code of `||` and its right operand, which is left out where the top value holds.
#[cycle(expressions)]
fn put_or_else(out: &mut Emitted, line: u32, right: &Expression) -> Result<(), NoMemory>
    ensures { OnOk result (out.new ≡ operation_code line op.OrElse (expr_of right.now) out.old) }
{
    out.put(Instruction::DropUnder)?;
    out.put(Instruction::PushTruth(true))?;
    let jump = put_truth(out, line, right)?;
    out.put(Instruction::SkipWhere(jump, line))
}

/// Puts the code of whether the right operand holds, which passes one instruction, and says how many instructions that takes.
#[cycle(expressions)]
fn put_truth(out: &mut Emitted, line: u32, right: &Expression) -> Result<usize, NoMemory>
    ensures size { IfOk result (λ size. size ≡ expr_size (expr_of right.now) + 3) }
    ensures put { OnOk result (out.new ≡ expr_code line (expr_of right.now) (i.Truth line ∷ i.DropUnder ∷ i.Go 1 ∷ out.old)) }
{
    let behind = out.len();
    out.put(Instruction::Go(1))?;
    out.put(Instruction::DropUnder)?;
    out.put(Instruction::Truth(line))?;
    put_expression(out, line, right)?;
    let size = out.len() - behind;
    Ok(size)
}
