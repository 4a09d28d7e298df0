ghost use Rattle.std.specs.Prelude.{◌≡◌, IfOk, OnErr};
ghost use Rattle.os_code.specs.declared.instruction.Instruction.TheVariants as i;
ghost use Rattle.os_meaning.specs.Frames.{object_in};
ghost use Rattle.os_kinds.specs.declared.call.Call.TheVariants as call;
ghost use Rattle.os_machine.specs.Stacks.{top_of};
ghost use Rattle.os_machine.specs.declared.stepped.Awaits.TheVariants as awaits;
ghost use Rattle.os_machine.specs.Moves.{asks_object, calls_items, calls_of, is_value, move, moves, on, own_number};

use crate::stepped::{Awaits, Stepped};
use crate::values::{Checked, copy_val, copy_vals};
use crate::work::Work;
use obj_kinds::{ClassName, ErrorName, NoMemory, Text};
use os_kinds::{Call, Val};
use std::alloc::Global;

/// The number of an object.
fn object_in(value: &Val) -> Checked<u64>
    ensures { result ≡ object_in value.now }
{
    match value {
        Val::Data(_) => Err(ErrorName::InvalidOref),
        Val::Ref { number, .. } => Ok(*number),
    }
}

/// The number of the object whose method runs.
fn own_number(this: &Option<Val>) -> Checked<u64>
    ensures { result ≡ own_number this.now }
{
    match this {
        None => Err(ErrorName::InvalidOref),
        Some(value) => object_in(value),
    }
}

/// Whether a number says of a property that was read that it is a value, and no collection.
fn is_value(kind: i64) -> bool
    ensures { result ≡ is_value kind }
{
    kind == 0
}

/// Asks a method of an object.
fn call_of(
    alloc: Global,
    object: &Val,
    member: &Text,
    args: &[Val],
    line: u32,
) -> Result<Stepped, NoMemory>
    ensures { IfOk result (λ s. s ≡ calls_of object.now member.now args.now line) }
{
    match object_in(object) {
        Ok(on) => {
            let member = member.copy(alloc)?;
            let args = copy_vals(alloc, args)?;
            Ok(Stepped::Asks(Call::OnObject { on, member, args }, Awaits::Value(line)))
        }
        Err(name) => Ok(Stepped::Fails(name, line)),
    }
}

/// Asks a method of the collection that is a property of an object.
fn call_items(
    alloc: Global,
    object: Checked<u64>,
    property: &Text,
    member: &Text,
    args: &[Val],
    line: u32,
) -> Result<Stepped, NoMemory>
    ensures { IfOk result (λ s. s ≡ calls_items object property.now member.now args.now line) }
{
    match object {
        Ok(on) => {
            let prop = property.copy(alloc)?;
            let member = member.copy(alloc)?;
            let args = copy_vals(alloc, args)?;
            Ok(Stepped::Asks(
                Call::OnItems {
                    on,
                    prop,
                    member,
                    args,
                },
                Awaits::Value(line),
            ))
        }
        Err(name) => Ok(Stepped::Fails(name, line)),
    }
}

/// Asks a property of an object.
fn read(
    alloc: Global,
    object: Checked<u64>,
    property: &Text,
    line: u32,
    awaits: Awaits,
) -> Result<Stepped, NoMemory>
    ensures { IfOk result (λ s. s ≡ asks_object object line (λ number. call.Read number property.now) awaits) }
{
    match object {
        Ok(on) => {
            let prop = property.copy(alloc)?;
            Ok(Stepped::Asks(Call::Read { on, prop }, awaits))
        }
        Err(name) => Ok(Stepped::Fails(name, line)),
    }
}

/// Asks that a property of an object is set.
fn write(
    alloc: Global,
    object: Checked<u64>,
    property: &Text,
    value: &Val,
    line: u32,
) -> Result<Stepped, NoMemory>
    ensures { IfOk result (λ s. s ≡ asks_object object line (λ number. call.Write number property.now value.now) (awaits.Written line)) }
{
    match object {
        Ok(on) => {
            let prop = property.copy(alloc)?;
            let value = copy_val(alloc, value)?;
            Ok(Stepped::Asks(Call::Write { on, prop, value }, Awaits::Written(line)))
        }
        Err(name) => Ok(Stepped::Fails(name, line)),
    }
}

impl Work {
    pub(crate) fn call_class(
        &self,
        alloc: Global,
        class: &ClassName,
        member: &Text,
        count: usize,
        line: u32,
    ) -> Result<Stepped, NoMemory>
        ensures { IfOk result (λ s. (s, self.now) ≡ moves (i.CallClass class.now member.now count line) self.now) }
    {
        let class = class.copy(alloc)?;
        let member = member.copy(alloc)?;
        let args = copy_vals(alloc, self.stack.span(0, count))?;
        Ok(Stepped::Asks(
            Call::OnClass {
                class,
                member,
                args,
            },
            Awaits::Value(line),
        ))
    }

    pub(crate) fn call_member(
        &self,
        alloc: Global,
        member: &Text,
        count: usize,
        line: u32,
    ) -> Result<Stepped, NoMemory>
        ensures { IfOk result (λ s. (s, self.now) ≡ moves (i.CallMember member.now count line) self.now) }
    {
        match self.stack.below(count) {
            None => Ok(Stepped::Halts),
            Some(object) => call_of(alloc, object, member, self.stack.span(0, count), line),
        }
    }

    pub(crate) fn call_own(
        &self,
        alloc: Global,
        this: &Option<Val>,
        member: &Text,
        count: usize,
        line: u32,
    ) -> Result<Stepped, NoMemory>
        ensures { IfOk result (λ s. (s, self.now) ≡ move this.now (i.CallOwn member.now count line) self.now) }
    {
        let args = self.stack.span(0, count);
        match this {
            Some(object) => call_of(alloc, object, member, args, line),
            None => {
                let member = member.copy(alloc)?;
                let args = copy_vals(alloc, args)?;
                Ok(Stepped::Asks(Call::OnOwn { member, args }, Awaits::Value(line)))
            }
        }
    }

    /// Asks a property of the top value.
    pub(crate) fn read(
        &self,
        alloc: Global,
        property: &Text,
        line: u32,
        awaits: Awaits,
    ) -> Result<Stepped, NoMemory>
        ensures { IfOk result (λ s. (s, self.now) ≡ on (top_of self.now.stack) self.now (λ o. (asks_object (object_in o) line (λ number. call.Read number property.now) awaits, self.now))) }
    {
        match self.stack.top() {
            None => Ok(Stepped::Halts),
            Some(object) => read(alloc, object_in(object), property, line, awaits),
        }
    }

    /// Asks a property of the object whose method runs.
    pub(crate) fn read_own(
        &self,
        alloc: Global,
        this: &Option<Val>,
        property: &Text,
        line: u32,
        awaits: Awaits,
    ) -> Result<Stepped, NoMemory>
        ensures { IfOk result (λ s. s ≡ asks_object (own_number this.now) line (λ number. call.Read number property.now) awaits) }
    {
        read(alloc, own_number(this), property, line, awaits)
    }

    pub(crate) fn call_subject(
        &mut self,
        alloc: Global,
        property: &Text,
        member: &Text,
        count: usize,
        line: u32,
    ) -> Result<Stepped, NoMemory>
        ensures ok { IfOk result (λ s. (s, self.new) ≡ moves (i.CallSubject property.now member.now count line) self.old) }
        ensures err { OnErr result (self.new ≡ self.old) }
    {
        match self.numbers.below(0) {
            None => Ok(Stepped::Halts),
            Some(kind) => match self.stack.below(count) {
                None => Ok(Stepped::Halts),
                Some(object) => {
                    let args = self.stack.span(0, count);
                    let stepped = if is_value(kind) {
                        call_of(alloc, object, member, args, line)?
                    } else {
                        call_items(alloc, object_in(object), property, member, args, line)?
                    };
                    self.numbers.pop();
                    Ok(stepped)
                }
            },
        }
    }

    pub(crate) fn call_own_subject(
        &mut self,
        alloc: Global,
        this: &Option<Val>,
        property: &Text,
        member: &Text,
        count: usize,
        line: u32,
    ) -> Result<Stepped, NoMemory>
        ensures ok { IfOk result (λ s. (s, self.new) ≡ move this.now (i.CallOwnSubject property.now member.now count line) self.old) }
        ensures err { OnErr result (self.new ≡ self.old) }
    {
        match self.numbers.below(0) {
            None => Ok(Stepped::Halts),
            Some(kind) => match self.stack.below(count) {
                None => Ok(Stepped::Halts),
                Some(value) => {
                    let args = self.stack.span(0, count);
                    let stepped = if is_value(kind) {
                        call_of(alloc, value, member, args, line)?
                    } else {
                        call_items(alloc, own_number(this), property, member, args, line)?
                    };
                    self.numbers.pop();
                    Ok(stepped)
                }
            },
        }
    }

    pub(crate) fn write(
        &self,
        alloc: Global,
        property: &Text,
        line: u32,
    ) -> Result<Stepped, NoMemory>
        ensures { IfOk result (λ s. (s, self.now) ≡ moves (i.Write property.now line) self.now) }
    {
        match self.stack.top() {
            None => Ok(Stepped::Halts),
            Some(value) => match self.stack.below(1) {
                None => Ok(Stepped::Halts),
                Some(object) => write(alloc, object_in(object), property, value, line),
            },
        }
    }

    pub(crate) fn write_own(
        &self,
        alloc: Global,
        this: &Option<Val>,
        property: &Text,
        line: u32,
    ) -> Result<Stepped, NoMemory>
        ensures { IfOk result (λ s. (s, self.now) ≡ move this.now (i.WriteOwn property.now line) self.now) }
    {
        match self.stack.top() {
            None => Ok(Stepped::Halts),
            Some(value) => write(alloc, own_number(this), property, value, line),
        }
    }
}
