ghost use Rattle.std.specs.Prelude.{◌≡◌, [], ◌∷◌, IfNone, OnOk, OnErr, drop};
ghost use Rattle.std.specs.Option.{option_copied};
ghost use Rattle.os_machine.specs.Stacks.{top_of, without_third};

use obj_kinds::NoMemory;
use sqlite_items::at;
use std::alloc::Global;
use std::marker::Model;

/// The numbers that loops and properties keep, seen as the list of them, the last one first.
#[derive(Debug, Drop)]
pub(crate) struct Numbers {
    numbers: Vec<i64>,
}

impl Model for Numbers {
    ghost use Rattle.std.specs.Prelude.{List, ℤ, reverse};

    ghost Value = { List ℤ };

    ghost view = { λ n. reverse n.numbers.items };
}

impl Numbers {
    pub(crate) fn new(alloc: Global) -> Numbers
        ensures { result ≡ [] }
    {
        Numbers {
            numbers: Vec::new(alloc),
        }
    }

    pub(crate) fn push(&mut self, number: i64) -> Result<(), NoMemory>
        ensures ok { OnOk result (self.new ≡ number ∷ self.old) }
        ensures err { OnErr result (self.new ≡ self.old) }
    {
        self.numbers.push(number)?;
        Ok(())
    }

    pub(crate) fn pop(&mut self) -> Option<i64>
        ensures value { result ≡ top_of self.old }
        ensures rest { self.new ≡ drop 1 self.old }
        ensures none { IfNone result (self.new ≡ self.old) }
    {
        self.numbers.pop()
    }

    /// The number below so many.
    pub(crate) fn below(&self, count: usize) -> Option<i64>
        ensures { result ≡ top_of (drop count self.now) }
    {
        let len = self.numbers.len();
        if count < len {
            at(self.numbers.as_slice(), len - count - 1).copied()
        } else {
            None
        }
    }

    /// Takes the number below the two on top away, where there is one.
    pub(crate) fn drop_third(&mut self)
        ensures { self.new ≡ without_third self.old }
    {
        let len = self.numbers.len();
        if 2 < len {
            self.numbers.remove(len - 3);
        }
    }
}
