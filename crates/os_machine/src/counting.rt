ghost use Rattle.std.specs.Prelude.{◌≡◌, IfOk, OnErr, Some};
ghost use Rattle.std.specs.Option.{option_copied};
ghost use Rattle.os_code.specs.declared.instruction.Instruction.TheVariants as i;
ghost use Rattle.os_code.specs.Machine.{last_of};
ghost use Rattle.os_meaning.specs.Commands.{is_within};
ghost use Rattle.os_machine.specs.Moves.{advanced, counts, counts_on, moves, raised, raised_by};

use crate::stepped::{Stepped, lost, lost_some};
use crate::values::{Checked, current, number_of, number_val, sum};
use crate::work::Work;
use obj_kinds::{ErrorName, NoMemory, Text};
use os_kinds::Val;
use std::alloc::Global;

/// What an increment of a variable makes.
fn raised(alloc: Global, value: Option<&Val>, by: i64) -> Result<Checked<i64>, NoMemory>
    ensures { IfOk result (λ r. r ≡ raised (option_copied value.entry) by) }
{
    match current(alloc, value)? {
        Ok(number) => Ok(sum(number, by)),
        Err(name) => Ok(Err(name)),
    }
}

fn raised_by(alloc: Global, value: Option<&Val>, by: &Val) -> Result<Checked<i64>, NoMemory>
    ensures { IfOk result (λ r. r ≡ raised_by (option_copied value.entry) by.now) }
{
    match number_of(alloc, by)? {
        Ok(by) => raised(alloc, value, by),
        Err(name) => Ok(Err(name)),
    }
}

/// What the variable of a loop is next.
fn advanced(alloc: Global, value: Option<&Val>, by: i64) -> Result<Checked<i64>, NoMemory>
    ensures { IfOk result (λ r. r ≡ advanced (option_copied value.entry) by) }
{
    match value {
        None => Ok(Err(ErrorName::Undefined)),
        Some(value) => match number_of(alloc, value)? {
            Ok(number) => Ok(sum(number, by)),
            Err(name) => Ok(Err(name)),
        },
    }
}

/// Whether a number is within the last one of a loop, by the sign of the step; without a last one it is.
fn is_within(bounded: bool, last: i64, step: i64, number: i64) -> bool
    ensures { result ≡ is_within (last_of bounded last) step number }
{
    if !bounded {
        return true;
    }
    if step < 0 {
        last <= number
    } else {
        number <= last
    }
}

impl Work {
    /// Gives a variable a number.
    fn count(&mut self, alloc: Global, name: &Text, number: i64) -> Result<Stepped, NoMemory>
        ensures ok { IfOk result (λ s. (s, self.new) ≡ counts name.now number self.old) }
        ensures err { OnErr result (self.new ≡ self.old) }
    {
        let value = number_val(alloc, number)?;
        match self.vars.set(alloc, name, value) {
            Ok(old) => Ok(lost_some(&old)),
            Err(_) => Err(NoMemory),
        }
    }

    /// The same, and the number goes on the stack.
    fn count_on(&mut self, alloc: Global, name: &Text, number: i64) -> Result<Stepped, NoMemory>
        ensures ok { IfOk result (λ s. (s, self.new) ≡ counts_on name.now number self.old) }
        ensures err { OnErr result (self.new ≡ self.old) }
    {
        let value = number_val(alloc, number)?;
        self.stack.push(value)?;
        match self.count(alloc, name, number) {
            Ok(stepped) => Ok(stepped),
            Err(NoMemory) => {
                self.stack.pop();
                Err(NoMemory)
            }
        }
    }

    pub(crate) fn increment(
        &mut self,
        alloc: Global,
        name: &Text,
        line: u32,
    ) -> Result<Stepped, NoMemory>
        ensures ok { IfOk result (λ s. (s, self.new) ≡ moves (i.Increment name.now line) self.old) }
        ensures err { OnErr result (self.new ≡ self.old) }
    {
        match raised(alloc, self.vars.value(name), 1)? {
            Ok(number) => self.count_on(alloc, name, number),
            Err(name) => Ok(Stepped::Fails(name, line)),
        }
    }

    pub(crate) fn increment_by(
        &mut self,
        alloc: Global,
        name: &Text,
        line: u32,
    ) -> Result<Stepped, NoMemory>
        ensures ok { IfOk result (λ s. (s, self.new) ≡ moves (i.IncrementBy name.now line) self.old) }
        ensures err { OnErr result (self.new ≡ self.old) }
    {
        match self.stack.top() {
            None => Ok(Stepped::Halts),
            Some(by) => match raised_by(alloc, self.vars.value(name), by)? {
                Ok(number) => self.count_on(alloc, name, number),
                Err(name) => Ok(Stepped::Fails(name, line)),
            },
        }
    }

    /// Sets the variable of a loop to the first number.
    pub(crate) fn begin_for(&mut self, alloc: Global, name: &Text) -> Result<Stepped, NoMemory>
        ensures ok { IfOk result (λ s. (s, self.new) ≡ moves (i.BeginFor name.now) self.old) }
        ensures err { OnErr result (self.new ≡ self.old) }
    {
        match self.numbers.below(2) {
            None => Ok(Stepped::Halts),
            Some(first) => self.count(alloc, name, first),
        }
    }

    /// Tests the first number of a loop, and forgets it.
    pub(crate) fn first_test(&mut self, bounded: bool, over: usize) -> Stepped
        ensures { (result, self.new) ≡ moves (i.FirstTest bounded over) self.old }
    {
        match self.numbers.below(0) {
            None => Stepped::Halts,
            Some(last) => match self.numbers.below(1) {
                None => Stepped::Halts,
                Some(step) => match self.numbers.below(2) {
                    None => Stepped::Halts,
                    Some(first) => {
                        self.numbers.drop_third();
                        Stepped::Goes(if is_within(bounded, last, step, first) {
                            1
                        } else {
                            over
                        })
                    }
                },
            },
        }
    }

    /// Adds the step to the variable of a loop, as long as the sum is within the last number.
    pub(crate) fn advance(
        &mut self,
        alloc: Global,
        name: &Text,
        bounded: bool,
        over: usize,
        line: u32,
    ) -> Result<Stepped, NoMemory>
        ensures ok { IfOk result (λ s. (s, self.new) ≡ moves (i.Advance name.now bounded over line) self.old) }
        ensures err { OnErr result (self.new ≡ self.old) }
    {
        match self.numbers.below(0) {
            None => Ok(Stepped::Halts),
            Some(last) => match self.numbers.below(1) {
                None => Ok(Stepped::Halts),
                Some(step) => match advanced(alloc, self.vars.value(name), step)? {
                    Err(name) => Ok(Stepped::Fails(name, line)),
                    Ok(number) => {
                        if is_within(bounded, last, step, number) {
                            self.count(alloc, name, number)
                        } else {
                            Ok(Stepped::Goes(over))
                        }
                    }
                },
            },
        }
    }

    /// Forgets the step and the last number of a loop.
    pub(crate) fn end_for(&mut self) -> Stepped
        ensures { (result, self.new) ≡ moves i.EndFor self.old }
    {
        match self.numbers.below(1) {
            None => Stepped::Halts,
            Some(_) => {
                self.numbers.pop();
                self.numbers.pop();
                Stepped::Goes(0)
            }
        }
    }

    /// Keeps the number of the top value, which goes.
    pub(crate) fn take_number(&mut self, alloc: Global, line: u32) -> Result<Stepped, NoMemory>
        ensures ok { IfOk result (λ s. (s, self.new) ≡ moves (i.TakeNumber line) self.old) }
        ensures err { OnErr result (self.new ≡ self.old) }
    {
        match self.stack.top() {
            None => Ok(Stepped::Halts),
            Some(value) => match number_of(alloc, value)? {
                Err(name) => Ok(Stepped::Fails(name, line)),
                Ok(number) => {
                    let stepped = lost(value, 0);
                    self.numbers.push(number)?;
                    self.stack.pop();
                    Ok(stepped)
                }
            },
        }
    }

    /// Keeps a number in place of a last one.
    pub(crate) fn no_last(&mut self) -> Result<Stepped, NoMemory>
        ensures ok { IfOk result (λ s. (s, self.new) ≡ moves i.NoLast self.old) }
        ensures err { OnErr result (self.new ≡ self.old) }
    {
        self.numbers.push(0)?;
        Ok(Stepped::Goes(0))
    }
}
