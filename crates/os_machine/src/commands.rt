ghost use Rattle.std.specs.Prelude.{◌≡◌, [], ◌∷◌, IfOk, OnErr, MatchOption};
ghost use Rattle.os_code.specs.declared.instruction.Instruction.TheVariants as i;
ghost use Rattle.os_machine.specs.Moves.{moves, shows_text};

use crate::nodes::{after, subscript};
use crate::stepped::{Sight, Stepped, lost, lost_some};
use crate::values::{text_of, truth};
use crate::work::Work;
use obj_kinds::{NoMemory, Text};
use std::alloc::Global;

/// A text is printed, where it isn't empty.
fn shows_text(text: Text) -> Stepped
    ensures { result ≡ shows_text text }
{
    if text.is_empty() {
        Stepped::Goes(0)
    } else {
        Stepped::Shows(Sight::Print(text), 0)
    }
}

/// Prints a line feed.
pub(crate) fn print_line(alloc: Global) -> Result<Stepped, NoMemory>
    ensures { IfOk result (λ s. s ≡ shows_text (10 ∷ [])) }
{
    let text = Text::from_slice(alloc, b"\n")?;
    Ok(Stepped::Shows(Sight::Print(text), 0))
}

impl Work {
    /// Takes the top value into a variable.
    pub(crate) fn store(&mut self, alloc: Global, name: &Text) -> Result<Stepped, NoMemory>
        ensures ok { IfOk result (λ s. (s, self.new) ≡ moves (i.Store name.now) self.old) }
        ensures err { OnErr result (self.new ≡ self.old) }
    {
        self.stack.store(alloc, name, &mut self.vars)
    }

    pub(crate) fn test_subscript(
        &self,
        alloc: Global,
        others: usize,
        line: u32,
    ) -> Result<Stepped, NoMemory>
        ensures { IfOk result (λ s. (s, self.now) ≡ moves (i.TestSubscript others line) self.now) }
    {
        match self.stack.top() {
            None => Ok(Stepped::Halts),
            Some(value) => match subscript(alloc, others, value)? {
                Ok(_) => Ok(Stepped::Goes(0)),
                Err(name) => Ok(Stepped::Fails(name, line)),
            },
        }
    }

    pub(crate) fn test_after(
        &self,
        alloc: Global,
        others: usize,
        line: u32,
    ) -> Result<Stepped, NoMemory>
        ensures { IfOk result (λ s. (s, self.now) ≡ moves (i.TestAfter others line) self.now) }
    {
        match self.stack.top() {
            None => Ok(Stepped::Halts),
            Some(value) => match after(alloc, others, value)? {
                Ok(_) => Ok(Stepped::Goes(0)),
                Err(name) => Ok(Stepped::Fails(name, line)),
            },
        }
    }

    pub(crate) fn print(&self, alloc: Global, line: u32) -> Result<Stepped, NoMemory>
        ensures { IfOk result (λ s. (s, self.now) ≡ moves (i.Print line) self.now) }
    {
        match self.stack.top() {
            None => Ok(Stepped::Halts),
            Some(value) => match text_of(alloc, value)? {
                Ok(text) => Ok(shows_text(text)),
                Err(name) => Ok(Stepped::Fails(name, line)),
            },
        }
    }

    /// Takes the top value away, and jumps where it doesn't hold.
    pub(crate) fn jump_unless(
        &mut self,
        alloc: Global,
        over: usize,
        line: u32,
    ) -> Result<Stepped, NoMemory>
        ensures ok { IfOk result (λ s. (s, self.new) ≡ moves (i.JumpUnless over line) self.old) }
        ensures err { OnErr result (self.new ≡ self.old) }
    {
        match self.stack.top() {
            None => Ok(Stepped::Halts),
            Some(value) => match truth(alloc, value)? {
                Err(name) => Ok(Stepped::Fails(name, line)),
                Ok(holds) => {
                    let stepped = lost(value, if holds { 0 } else { over });
                    self.stack.pop();
                    Ok(stepped)
                }
            },
        }
    }

    pub(crate) fn clear(&mut self, name: &Text) -> Stepped
        ensures { (result, self.new) ≡ moves (i.Clear name.now) self.old }
    {
        let old = self.vars.remove(name);
        lost_some(&old)
    }

    /// Takes all variables away, one with an object at a time.
    pub(crate) fn clear_all(&mut self) -> Stepped
        ensures { (result, self.new) ≡ moves i.ClearAll self.old }
    {
        match self.vars.drop_object() {
            Some(number) => Stepped::Stays(Sight::Less(number)),
            None => Stepped::Goes(0),
        }
    }

    /// Takes all variables away, and leaves the frame with the top value.
    pub(crate) fn leave(&mut self) -> Stepped
        ensures { (result, self.new) ≡ moves i.Return self.old }
    {
        if self.stack.top().is_none() {
            return Stepped::Halts;
        }
        match self.vars.drop_object() {
            Some(number) => Stepped::Stays(Sight::Less(number)),
            None => match self.stack.pop() {
                None => Stepped::Halts,
                Some(value) => Stepped::Leaves(value),
            },
        }
    }
}
