ghost use Rattle.std.specs.Prelude.{◌≡◌, pos, IfOk, reverse};
ghost use Rattle.obj_kinds.specs.declared.op.Op.TheVariants as ops;
ghost use Rattle.os_code.specs.declared.instruction.Instruction.TheVariants as i;
ghost use Rattle.os_machine.specs.Moves.{asks_next, asks_node, asks_op, moves, span};
ghost use Rattle.os_machine.specs.Plains.{node_by};

use crate::nodes::{after, node};
use crate::stepped::{Awaits, Stepped, Wanted};
use crate::values::{Checked, number_of, plain_copy};
use crate::work::Work;
use obj_kinds::{NoMemory, Node, Op, Text};
use os_kinds::{Call, Val};
use std::alloc::Global;

/// Asks for an operation of the store.
pub(crate) fn asks(op: Op, wanted: Wanted) -> Stepped
    ensures { result ≡ asks_op op wanted }
{
    Stepped::Asks(Call::Store(op), Awaits::Reply(wanted))
}

/// Asks for the next subscript: the last value says behind which it is sought.
fn order_in(alloc: Global, global: &Text, values: &[Val], line: u32) -> Result<Stepped, NoMemory>
    ensures { IfOk result (λ s. s ≡ asks_next global.now (reverse values.now) line) }
{
    match values.split_last() {
        None => Ok(Stepped::Halts),
        Some((last, others)) => match after(alloc, others.len(), last)? {
            Err(name) => Ok(Stepped::Fails(name, line)),
            Ok(after) => match node(alloc, global, others)? {
                Ok(node) => Ok(asks(Op::Order(node, after), Wanted::Next)),
                Err(name) => Ok(Stepped::Fails(name, line)),
            },
        },
    }
}

impl Work {
    /// The node of a global with so many subscripts below the others on top.
    pub(crate) fn node(
        &self,
        alloc: Global,
        global: &Text,
        others: usize,
        count: usize,
    ) -> Result<Checked<Node>, NoMemory>
        ensures { IfOk result (λ r. r ≡ node_by global.now (span others count self.now)) }
    {
        node(alloc, global, self.stack.span(others, count))
    }

    /// Asks for the value of a node.
    pub(crate) fn get(
        &self,
        alloc: Global,
        global: &Text,
        count: usize,
        line: u32,
        wanted: Wanted,
    ) -> Result<Stepped, NoMemory>
        ensures { IfOk result (λ s. s ≡ asks_node (node_by global.now (span 0 count self.now)) line ops.Get wanted) }
    {
        match self.node(alloc, global, 0, count)? {
            Ok(node) => Ok(asks(Op::Get(node), wanted)),
            Err(name) => Ok(Stepped::Fails(name, line)),
        }
    }

    pub(crate) fn get_or_skip(
        &self,
        alloc: Global,
        global: &Text,
        count: usize,
        line: u32,
    ) -> Result<Stepped, NoMemory>
        ensures { IfOk result (λ s. (s, self.now) ≡ moves (i.GetOrSkip global.now count line) self.now) }
    {
        if self.stack.top().is_none() {
            return Ok(Stepped::Halts);
        }
        match self.node(alloc, global, 1, count)? {
            Ok(node) => Ok(asks(Op::Get(node), Wanted::FoundOrSkip)),
            Err(name) => Ok(Stepped::Fails(name, line)),
        }
    }

    pub(crate) fn defined(
        &self,
        alloc: Global,
        global: &Text,
        count: usize,
        line: u32,
    ) -> Result<Stepped, NoMemory>
        ensures { IfOk result (λ s. (s, self.now) ≡ moves (i.Defined global.now count line) self.now) }
    {
        match self.node(alloc, global, 0, count)? {
            Ok(node) => Ok(asks(Op::Defined(node), Wanted::State)),
            Err(name) => Ok(Stepped::Fails(name, line)),
        }
    }

    pub(crate) fn order(
        &self,
        alloc: Global,
        global: &Text,
        count: usize,
        line: u32,
    ) -> Result<Stepped, NoMemory>
        ensures { IfOk result (λ s. (s, self.now) ≡ moves (i.Order global.now count line) self.now) }
    {
        order_in(alloc, global, self.stack.span(0, count), line)
    }

    pub(crate) fn incr(
        &self,
        alloc: Global,
        global: &Text,
        count: usize,
        line: u32,
    ) -> Result<Stepped, NoMemory>
        ensures { IfOk result (λ s. (s, self.now) ≡ moves (i.Incr global.now count line) self.now) }
    {
        match self.node(alloc, global, 0, count)? {
            Ok(node) => Ok(asks(Op::Incr(node, 1), Wanted::Counted(line))),
            Err(name) => Ok(Stepped::Fails(name, line)),
        }
    }

    pub(crate) fn incr_by(
        &self,
        alloc: Global,
        global: &Text,
        count: usize,
        line: u32,
    ) -> Result<Stepped, NoMemory>
        ensures { IfOk result (λ s. (s, self.now) ≡ moves (i.IncrBy global.now count line) self.now) }
    {
        match self.stack.top() {
            None => Ok(Stepped::Halts),
            Some(by) => match number_of(alloc, by)? {
                Err(name) => Ok(Stepped::Fails(name, line)),
                Ok(by) => match self.node(alloc, global, 1, count)? {
                    Ok(node) => Ok(asks(Op::Incr(node, by), Wanted::Counted(line))),
                    Err(name) => Ok(Stepped::Fails(name, line)),
                },
            },
        }
    }

    pub(crate) fn set(
        &self,
        alloc: Global,
        global: &Text,
        count: usize,
        line: u32,
    ) -> Result<Stepped, NoMemory>
        ensures { IfOk result (λ s. (s, self.now) ≡ moves (i.Set global.now count line) self.now) }
    {
        match self.stack.top() {
            None => Ok(Stepped::Halts),
            Some(value) => match self.node(alloc, global, 1, count)? {
                Ok(node) => Ok(asks(Op::Set(node, plain_copy(alloc, value)?), Wanted::Done)),
                Err(name) => Ok(Stepped::Fails(name, line)),
            },
        }
    }

    pub(crate) fn kill(
        &self,
        alloc: Global,
        global: &Text,
        count: usize,
        line: u32,
    ) -> Result<Stepped, NoMemory>
        ensures { IfOk result (λ s. (s, self.now) ≡ moves (i.Kill global.now count line) self.now) }
    {
        match self.node(alloc, global, 0, count)? {
            Ok(node) => Ok(asks(Op::Kill(node), Wanted::Done)),
            Err(name) => Ok(Stepped::Fails(name, line)),
        }
    }
}
