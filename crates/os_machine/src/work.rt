ghost use Rattle.std.specs.Prelude.{◌≡◌, ◌∷◌, [], IfOk, OnErr, take, reverse};
ghost use Rattle.std.specs.Option.{option_copied};
ghost use Rattle.os_code.specs.declared.instruction.Instruction.TheVariants as i;
ghost use Rattle.os_meaning.specs.Values.{number_value};
ghost use Rattle.os_meaning.specs.Frames.{value_in};
ghost use Rattle.os_machine.specs.Moves.{holds_copy, move, moves, puts};

use crate::functions::applied;
use crate::numbers::Numbers;
use crate::operators::{joined, signed};
use crate::stack::Stack;
use crate::stepped::{Stepped, held, lost, lost_some};
use crate::values::{
    Checked, copy_val, current, empty_val, number_of, number_val, settled, sum, truth, truth_val,
};
use crate::variables::Variables;
use obj_kinds::{ErrorName, NoMemory, Text, Value};
use os_kinds::{Function, Operator, Sign, Val, Vals};
use std::alloc::Global;

/// What a frame has at one place of its code.
#[derive(Drop)]
pub(crate) struct Work {
    pub(crate) stack: Stack,
    pub(crate) numbers: Numbers,
    pub(crate) vars: Variables,
}

impl Work {
    /// Puts a copy of a value on the stack, which gives an object one more place.
    pub(crate) fn hold(&mut self, value: Val) -> Result<Stepped, NoMemory>
        ensures ok { IfOk result (λ s. (s, self.new) ≡ holds_copy value self.old) }
        ensures err { OnErr result (self.new ≡ self.old) }
    {
        let stepped = held(&value);
        self.stack.push(value)?;
        Ok(stepped)
    }

    fn put(&mut self, value: Checked<Value>, line: u32) -> Result<Stepped, NoMemory>
        ensures ok { IfOk result (λ s. (s, self.new) ≡ puts value line self.old) }
        ensures err { OnErr result (self.new ≡ self.old) }
    {
        match value {
            Ok(value) => {
                self.stack.push(Val::Data(value))?;
                Ok(Stepped::Goes(0))
            }
            Err(name) => Ok(Stepped::Fails(name, line)),
        }
    }

    pub(crate) fn push_text(&mut self, alloc: Global, text: &Text) -> Result<Stepped, NoMemory>
        ensures ok { IfOk result (λ s. (s, self.new) ≡ moves (i.Push text.now) self.old) }
        ensures err { OnErr result (self.new ≡ self.old) }
    {
        let value = Val::Data(Value::Str(text.copy(alloc)?));
        self.stack.push(value)?;
        Ok(Stepped::Goes(0))
    }

    pub(crate) fn push_truth(&mut self, alloc: Global, holds: bool) -> Result<Stepped, NoMemory>
        ensures ok { IfOk result (λ s. (s, self.new) ≡ moves (i.PushTruth holds) self.old) }
        ensures err { OnErr result (self.new ≡ self.old) }
    {
        let value = truth_val(alloc, holds)?;
        self.stack.push(value)?;
        Ok(Stepped::Goes(0))
    }

    pub(crate) fn is_set(&mut self, alloc: Global, name: &Text) -> Result<Stepped, NoMemory>
        ensures ok { IfOk result (λ s. (s, self.new) ≡ moves (i.IsSet name.now) self.old) }
        ensures err { OnErr result (self.new ≡ self.old) }
    {
        let value = truth_val(alloc, self.vars.value(name).is_some())?;
        self.stack.push(value)?;
        Ok(Stepped::Goes(0))
    }

    pub(crate) fn load(
        &mut self,
        alloc: Global,
        name: &Text,
        line: u32,
    ) -> Result<Stepped, NoMemory>
        ensures ok { IfOk result (λ s. (s, self.new) ≡ moves (i.Load name.now line) self.old) }
        ensures err { OnErr result (self.new ≡ self.old) }
    {
        match self.vars.value(name) {
            None => Ok(Stepped::Fails(ErrorName::Undefined, line)),
            Some(value) => {
                let copy = copy_val(alloc, value)?;
                self.hold(copy)
            }
        }
    }

    pub(crate) fn load_or_empty(&mut self, alloc: Global, name: &Text) -> Result<Stepped, NoMemory>
        ensures ok { IfOk result (λ s. (s, self.new) ≡ moves (i.LoadOrEmpty name.now) self.old) }
        ensures err { OnErr result (self.new ≡ self.old) }
    {
        match self.vars.value(name) {
            None => {
                self.stack.push(empty_val(alloc))?;
                Ok(Stepped::Goes(0))
            }
            Some(value) => {
                let copy = copy_val(alloc, value)?;
                self.hold(copy)
            }
        }
    }

    pub(crate) fn load_or_jump(
        &mut self,
        alloc: Global,
        name: &Text,
        over: usize,
    ) -> Result<Stepped, NoMemory>
        ensures ok { IfOk result (λ s. (s, self.new) ≡ moves (i.LoadOrJump name.now over) self.old) }
        ensures err { OnErr result (self.new ≡ self.old) }
    {
        match self.vars.value(name) {
            None => Ok(Stepped::Goes(over)),
            Some(value) => {
                let copy = copy_val(alloc, value)?;
                self.hold(copy)
            }
        }
    }

    pub(crate) fn this(
        &mut self,
        alloc: Global,
        this: &Option<Val>,
        line: u32,
    ) -> Result<Stepped, NoMemory>
        ensures ok { IfOk result (λ s. (s, self.new) ≡ move this.now (i.This line) self.old) }
        ensures err { OnErr result (self.new ≡ self.old) }
    {
        match this {
            None => Ok(Stepped::Fails(ErrorName::InvalidOref, line)),
            Some(value) => {
                let copy = copy_val(alloc, value)?;
                self.hold(copy)
            }
        }
    }

    pub(crate) fn test_this(&self, this: &Option<Val>, line: u32) -> Stepped
        ensures { (result, self.now) ≡ move this.now (i.TestThis line) self.now }
    {
        match this {
            None => Stepped::Fails(ErrorName::InvalidOref, line),
            Some(_) => Stepped::Goes(0),
        }
    }

    pub(crate) fn sign(&mut self, alloc: Global, sign: Sign, line: u32) -> Result<Stepped, NoMemory>
        ensures ok { IfOk result (λ s. (s, self.new) ≡ moves (i.Sign sign line) self.old) }
        ensures err { OnErr result (self.new ≡ self.old) }
    {
        match self.stack.top() {
            None => Ok(Stepped::Halts),
            Some(value) => {
                let value = settled(signed(alloc, sign, value))?;
                self.put(value, line)
            }
        }
    }

    pub(crate) fn operate(
        &mut self,
        alloc: Global,
        op: Operator,
        line: u32,
    ) -> Result<Stepped, NoMemory>
        ensures ok { IfOk result (λ s. (s, self.new) ≡ moves (i.Operate op line) self.old) }
        ensures err { OnErr result (self.new ≡ self.old) }
    {
        match self.stack.top() {
            None => Ok(Stepped::Halts),
            Some(right) => match self.stack.below(1) {
                None => Ok(Stepped::Halts),
                Some(left) => {
                    let value = settled(joined(alloc, op, left, right))?;
                    self.put(value, line)
                }
            },
        }
    }

    pub(crate) fn apply(
        &mut self,
        alloc: Global,
        function: Function,
        count: usize,
        line: u32,
    ) -> Result<Stepped, NoMemory>
        ensures ok { IfOk result (λ s. (s, self.new) ≡ moves (i.Apply function count line) self.old) }
        ensures err { OnErr result (self.new ≡ self.old) }
    {
        let args = self.stack.span(0, count);
        let value = settled(applied(alloc, function, args))?;
        self.put(value, line)
    }

    pub(crate) fn truth(&mut self, alloc: Global, line: u32) -> Result<Stepped, NoMemory>
        ensures ok { IfOk result (λ s. (s, self.new) ≡ moves (i.Truth line) self.old) }
        ensures err { OnErr result (self.new ≡ self.old) }
    {
        match self.stack.top() {
            None => Ok(Stepped::Halts),
            Some(value) => match truth(alloc, value)? {
                Ok(holds) => {
                    let value = truth_val(alloc, holds)?;
                    self.stack.push(value)?;
                    Ok(Stepped::Goes(0))
                }
                Err(name) => Ok(Stepped::Fails(name, line)),
            },
        }
    }

    pub(crate) fn skip_unless(
        &self,
        alloc: Global,
        over: usize,
        line: u32,
    ) -> Result<Stepped, NoMemory>
        ensures { IfOk result (λ s. (s, self.now) ≡ moves (i.SkipUnless over line) self.now) }
    {
        match self.stack.top() {
            None => Ok(Stepped::Halts),
            Some(value) => match truth(alloc, value)? {
                Ok(holds) => Ok(Stepped::Goes(if holds { 0 } else { over })),
                Err(name) => Ok(Stepped::Fails(name, line)),
            },
        }
    }

    pub(crate) fn skip_where(
        &self,
        alloc: Global,
        over: usize,
        line: u32,
    ) -> Result<Stepped, NoMemory>
        ensures { IfOk result (λ s. (s, self.now) ≡ moves (i.SkipWhere over line) self.now) }
    {
        match self.stack.top() {
            None => Ok(Stepped::Halts),
            Some(value) => match truth(alloc, value)? {
                Ok(holds) => Ok(Stepped::Goes(if holds { over } else { 0 })),
                Err(name) => Ok(Stepped::Fails(name, line)),
            },
        }
    }

    pub(crate) fn drop_under(&mut self) -> Stepped
        ensures { (result, self.new) ≡ moves i.DropUnder self.old }
    {
        match self.stack.take_under() {
            None => Stepped::Halts,
            Some(value) => lost(&value, 0),
        }
    }

    pub(crate) fn drop_top(&mut self) -> Stepped
        ensures { (result, self.new) ≡ moves i.DropTop self.old }
    {
        match self.stack.pop() {
            None => Stepped::Halts,
            Some(value) => lost(&value, 0),
        }
    }
}
