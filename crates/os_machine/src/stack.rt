ghost use Rattle.std.specs.Prelude.{◌≡◌, [], ◌∷◌, List, IfNone, IfOk, OnOk, OnErr, take, drop, reverse};
ghost use Rattle.std.specs.Option.{option_copied};
ghost use Rattle.os_machine.specs.Stacks.{top_of, without_under};
ghost use Rattle.os_machine.specs.Moves.{stored};

use crate::stepped::{Stepped, lost_some};
use crate::variables::Variables;
use obj_kinds::{NoMemory, Text};
use os_kinds::Val;
use sqlite_items::at;
use std::alloc::Global;
use std::marker::Model;

/// The values in progress, seen as the list of them, the last one first.
#[derive(Debug, Drop)]
pub(crate) struct Stack {
    values: Vec<Val>,
}

impl Model for Stack {
    ghost use Rattle.std.specs.Prelude.{List, reverse};
    ghost use Rattle.std.specs.Coded.{coded_list};
    ghost use Rattle.os_kinds.specs.declared.val.Val.{Val};
    ghost use Rattle.os_kinds.specs.contracts.val.Val as val;

    ghost Value = { List Val };

    ghost coded = { coded_list val.the_row.coded };

    ghost view = { λ s. reverse s.values.items };
}

impl Stack {
    pub(crate) fn new(alloc: Global) -> Stack
        ensures { result ≡ [] }
    {
        Stack {
            values: Vec::new(alloc),
        }
    }

    pub(crate) fn push(&mut self, value: Val) -> Result<(), NoMemory>
        ensures ok { OnOk result (self.new ≡ value ∷ self.old) }
        ensures err { OnErr result (self.new ≡ self.old) }
    {
        self.values.push(value)?;
        Ok(())
    }

    pub(crate) fn pop(&mut self) -> Option<Val>
        ensures value { result ≡ top_of self.old }
        ensures rest { self.new ≡ drop 1 self.old }
        ensures none { IfNone result (self.new ≡ self.old) }
    {
        self.values.pop()
    }

    pub(crate) fn top(&self) -> Option<&Val>
        ensures { option_copied result ≡ top_of self.now }
    {
        self.values.last()
    }

    /// The value below so many.
    pub(crate) fn below(&self, count: usize) -> Option<&Val>
        ensures { option_copied result ≡ top_of (drop count self.now) }
    {
        let len = self.values.len();
        if count < len {
            at(self.values.as_slice(), len - count - 1)
        } else {
            None
        }
    }

    /// Takes the value below the top one.
    pub(crate) fn take_under(&mut self) -> Option<Val>
        ensures value { result ≡ top_of (drop 1 self.old) }
        ensures rest { self.new ≡ without_under self.old }
        ensures none { IfNone result (self.new ≡ self.old) }
    {
        let count = self.values.len();
        if count < 2 {
            return None;
        }
        Some(self.values.swap_remove(count - 2))
    }

    /// So many values below the others on top, in the order in which they were put.
    pub(crate) fn span(&self, others: usize, count: usize) -> &[Val]
        ensures { result.now ≡ reverse (take count (drop others self.now)) }
    {
        let len = self.values.len();
        let end = if others < len { len - others } else { 0 };
        let start = if count < end { end - count } else { 0 };
        let (below, _) = self.values.as_slice().split_at(end);
        let (_, span) = below.split_at(start);
        span
    }

    /// Moves the top value into a variable; for want of memory nothing is changed.
    pub(crate) fn store(
        &mut self,
        alloc: Global,
        name: &Text,
        vars: &mut Variables,
    ) -> Result<Stepped, NoMemory>
        ensures ok { IfOk result (λ s. (s, (self.new, vars.new)) ≡ stored name.now self.old vars.old) }
        ensures err { OnErr result ((self.new ≡ self.old) × (vars.new ≡ vars.old)) }
    {
        match self.values.pop() {
            None => Ok(Stepped::Halts),
            Some(value) => match vars.set(alloc, name, value) {
                Ok(old) => Ok(lost_some(&old)),
                Err(value) => {
                    self.values.push_reserved(value);
                    Err(NoMemory)
                }
            },
        }
    }
}
