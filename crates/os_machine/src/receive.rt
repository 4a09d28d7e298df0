ghost use Rattle.std.specs.Prelude.{◌≡◌, [], ◌∷◌, Some, IfOk, OnErr};
ghost use Rattle.os_meaning.specs.Values.{text_value};
ghost use Rattle.os_code.specs.Machine.{as_value, as_items};
ghost use Rattle.os_machine.specs.declared.work.Work.{Work};
ghost use Rattle.os_machine.specs.Moves.{with_numbers};
ghost use Rattle.os_meaning.specs.Expressions.{next_value};
ghost use Rattle.os_machine.specs.Receiving.{takes, takes_value, takes_subject, takes_own_subject, takes_written, takes_tried, unfit, puts_value, replies, found_by, state_by, next_by, counted_by, done_by, given_back_by, begun_by, committed_by, undone_by};

use crate::stepped::{Awaits, Received, Wanted};
use crate::values::{empty_val, number_val};
use crate::work::Work;
use obj_kinds::{ErrorName, NoMemory, Reply, Sub, Value};
use os_kinds::{Answer, Val};
use std::alloc::Global;

/// A subscript as a value.
fn next_value(alloc: Global, sub: Sub) -> Result<Val, NoMemory>
    ensures { IfOk result (λ v. v ≡ next_value (Some sub)) }
{
    match sub {
        Sub::Num(number) => number_val(alloc, number),
        Sub::Str(text) => Ok(Val::Data(Value::Str(text))),
    }
}

fn done(reply: &Reply) -> Received
    ensures { (w : Work) → (result, w) ≡ done_by reply.now w }
{
    match reply {
        Reply::Done => Received::Goes(0),
        _ => Received::Halts,
    }
}

fn given_back(reply: &Reply) -> Received
    ensures { (w : Work) → (result, w) ≡ given_back_by reply.now w }
{
    match reply {
        Reply::NotHeld => Received::Goes(0),
        Reply::Done => Received::Goes(0),
        _ => Received::Halts,
    }
}

fn begun(reply: &Reply, line: u32) -> Received
    ensures { (w : Work) → (result, w) ≡ begun_by line reply.now w }
{
    match reply {
        Reply::Number(_) => Received::Goes(0),
        Reply::TooDeep => Received::Fails(ErrorName::TransactionLevel, line),
        _ => Received::Halts,
    }
}

fn committed(reply: &Reply, line: u32) -> Received
    ensures { (w : Work) → (result, w) ≡ committed_by line reply.now w }
{
    match reply {
        Reply::Number(_) => Received::Goes(0),
        Reply::NoTran => Received::Fails(ErrorName::Command, line),
        _ => Received::Halts,
    }
}

fn undone(reply: &Reply) -> Received
    ensures { (w : Work) → (result, w) ≡ undone_by reply.now w }
{
    match reply {
        Reply::Number(_) => Received::Goes(0),
        Reply::NoTran => Received::Goes(0),
        _ => Received::Halts,
    }
}

impl Work {
    fn put_value(&mut self, value: Val) -> Result<Received, NoMemory>
        ensures ok { IfOk result (λ r. (r, self.new) ≡ puts_value value self.old) }
        ensures err { OnErr result (self.new ≡ self.old) }
    {
        self.stack.push(value)?;
        Ok(Received::Goes(0))
    }

    /// An answer that doesn't fit. A value that it brings stays in the machine.
    fn refuse(&mut self, answer: Answer) -> Result<Received, NoMemory>
        ensures ok { IfOk result (λ r. (r, self.new) ≡ unfit answer self.old) }
        ensures err { OnErr result (self.new ≡ self.old) }
    {
        match answer {
            Answer::Got(value) => {
                self.stack.push(value)?;
                Ok(Received::Halts)
            }
            Answer::Reply(_) => Ok(Received::Halts),
            Answer::Items => Ok(Received::Halts),
            Answer::Done => Ok(Received::Halts),
            Answer::Error(_) => Ok(Received::Halts),
        }
    }

    fn take_value(&mut self, answer: Answer, line: u32) -> Result<Received, NoMemory>
        ensures ok { IfOk result (λ r. (r, self.new) ≡ takes_value line answer self.old) }
        ensures err { OnErr result (self.new ≡ self.old) }
    {
        match answer {
            Answer::Got(value) => self.put_value(value),
            Answer::Error(name) => Ok(Received::Fails(name, line)),
            Answer::Items => Ok(Received::Fails(ErrorName::InvalidOref, line)),
            Answer::Reply(_) => Ok(Received::Halts),
            Answer::Done => Ok(Received::Halts),
        }
    }

    /// A value and that it is one.
    fn put_subject(&mut self, value: Val) -> Result<Received, NoMemory>
        ensures ok { IfOk result (λ r. (r, self.new) ≡ puts_value value (with_numbers (as_value ∷ self.old.numbers) self.old)) }
        ensures err { OnErr result (self.new ≡ self.old) }
    {
        self.numbers.push(0)?;
        match self.stack.push(value) {
            Ok(()) => Ok(Received::Goes(0)),
            Err(NoMemory) => {
                self.numbers.pop();
                Err(NoMemory)
            }
        }
    }

    fn take_subject(&mut self, answer: Answer, line: u32) -> Result<Received, NoMemory>
        ensures ok { IfOk result (λ r. (r, self.new) ≡ takes_subject line answer self.old) }
        ensures err { OnErr result (self.new ≡ self.old) }
    {
        match answer {
            Answer::Got(value) => self.put_subject(value),
            Answer::Items => {
                self.numbers.push(1)?;
                Ok(Received::Goes(1))
            }
            Answer::Error(name) => Ok(Received::Fails(name, line)),
            Answer::Reply(_) => Ok(Received::Halts),
            Answer::Done => Ok(Received::Halts),
        }
    }

    /// The empty text in place of the value of a collection.
    fn put_own_items(&mut self, alloc: Global) -> Result<Received, NoMemory>
        ensures ok { IfOk result (λ r. (r, self.new) ≡ puts_value (text_value []) (with_numbers (as_items ∷ self.old.numbers) self.old)) }
        ensures err { OnErr result (self.new ≡ self.old) }
    {
        self.numbers.push(1)?;
        match self.stack.push(empty_val(alloc)) {
            Ok(()) => Ok(Received::Goes(0)),
            Err(NoMemory) => {
                self.numbers.pop();
                Err(NoMemory)
            }
        }
    }

    fn take_own_subject(
        &mut self,
        alloc: Global,
        answer: Answer,
        line: u32,
    ) -> Result<Received, NoMemory>
        ensures ok { IfOk result (λ r. (r, self.new) ≡ takes_own_subject line answer self.old) }
        ensures err { OnErr result (self.new ≡ self.old) }
    {
        match answer {
            Answer::Got(value) => self.put_subject(value),
            Answer::Items => self.put_own_items(alloc),
            Answer::Error(name) => Ok(Received::Fails(name, line)),
            Answer::Reply(_) => Ok(Received::Halts),
            Answer::Done => Ok(Received::Halts),
        }
    }

    fn take_written(&mut self, answer: Answer, line: u32) -> Result<Received, NoMemory>
        ensures ok { IfOk result (λ r. (r, self.new) ≡ takes_written line answer self.old) }
        ensures err { OnErr result (self.new ≡ self.old) }
    {
        match answer {
            Answer::Done => Ok(Received::Goes(0)),
            Answer::Error(name) => Ok(Received::Fails(name, line)),
            Answer::Got(value) => self.refuse(Answer::Got(value)),
            Answer::Items => Ok(Received::Halts),
            Answer::Reply(_) => Ok(Received::Halts),
        }
    }

    fn take_tried(&mut self, answer: Answer) -> Result<Received, NoMemory>
        ensures ok { IfOk result (λ r. (r, self.new) ≡ takes_tried answer self.old) }
        ensures err { OnErr result (self.new ≡ self.old) }
    {
        match answer {
            Answer::Done => Ok(Received::Goes(0)),
            Answer::Got(value) => self.refuse(Answer::Got(value)),
            Answer::Error(_) => Ok(Received::Halts),
            Answer::Items => Ok(Received::Halts),
            Answer::Reply(_) => Ok(Received::Halts),
        }
    }

    /// The value of a node, or what stands for none.
    fn found(&mut self, reply: Reply, absent: Received) -> Result<Received, NoMemory>
        ensures ok { IfOk result (λ r. (r, self.new) ≡ found_by reply (absent, self.old) self.old) }
        ensures err { OnErr result (self.new ≡ self.old) }
    {
        match reply {
            Reply::Found(value) => self.put_value(Val::Data(value)),
            Reply::Absent => Ok(absent),
            _ => Ok(Received::Halts),
        }
    }

    fn found_or_empty(&mut self, alloc: Global, reply: Reply) -> Result<Received, NoMemory>
        ensures ok { IfOk result (λ r. (r, self.new) ≡ found_by reply (puts_value (text_value []) self.old) self.old) }
        ensures err { OnErr result (self.new ≡ self.old) }
    {
        match reply {
            Reply::Found(value) => self.put_value(Val::Data(value)),
            Reply::Absent => self.put_value(empty_val(alloc)),
            _ => Ok(Received::Halts),
        }
    }

    fn state(&mut self, alloc: Global, reply: Reply) -> Result<Received, NoMemory>
        ensures ok { IfOk result (λ r. (r, self.new) ≡ state_by reply self.old) }
        ensures err { OnErr result (self.new ≡ self.old) }
    {
        match reply {
            Reply::State(state) => {
                let value = number_val(alloc, i64::from(state))?;
                self.put_value(value)
            }
            _ => Ok(Received::Halts),
        }
    }

    fn next(&mut self, alloc: Global, reply: Reply) -> Result<Received, NoMemory>
        ensures ok { IfOk result (λ r. (r, self.new) ≡ next_by reply self.old) }
        ensures err { OnErr result (self.new ≡ self.old) }
    {
        match reply {
            Reply::Next(sub) => {
                let value = next_value(alloc, sub)?;
                self.put_value(value)
            }
            Reply::NoNext => self.put_value(empty_val(alloc)),
            _ => Ok(Received::Halts),
        }
    }

    fn counted(&mut self, alloc: Global, reply: Reply, line: u32) -> Result<Received, NoMemory>
        ensures ok { IfOk result (λ r. (r, self.new) ≡ counted_by line reply self.old) }
        ensures err { OnErr result (self.new ≡ self.old) }
    {
        match reply {
            Reply::Number(number) => {
                let value = number_val(alloc, number)?;
                self.put_value(value)
            }
            Reply::NumberLimit => Ok(Received::Fails(ErrorName::MaxNumber, line)),
            _ => Ok(Received::Halts),
        }
    }

    fn take_reply(
        &mut self,
        alloc: Global,
        wanted: Wanted,
        reply: Reply,
    ) -> Result<Received, NoMemory>
        ensures ok { IfOk result (λ r. (r, self.new) ≡ replies wanted reply self.old) }
        ensures err { OnErr result (self.new ≡ self.old) }
    {
        match wanted {
            Wanted::Found(line) => self.found(reply, Received::Fails(ErrorName::Undefined, line)),
            Wanted::FoundOrEmpty => self.found_or_empty(alloc, reply),
            Wanted::FoundOrSkip => self.found(reply, Received::Goes(1)),
            Wanted::State => self.state(alloc, reply),
            Wanted::Next => self.next(alloc, reply),
            Wanted::Counted(line) => self.counted(alloc, reply, line),
            Wanted::Done => Ok(done(&reply)),
            Wanted::GivenBack => Ok(given_back(&reply)),
            Wanted::Begun(line) => Ok(begun(&reply, line)),
            Wanted::Committed(line) => Ok(committed(&reply, line)),
            Wanted::Undone => Ok(undone(&reply)),
        }
    }

    /// Does what an answer does.
    pub(crate) fn take(
        &mut self,
        alloc: Global,
        awaits: Awaits,
        answer: Answer,
    ) -> Result<Received, NoMemory>
        ensures ok { IfOk result (λ r. (r, self.new) ≡ takes awaits answer self.old) }
        ensures err { OnErr result (self.new ≡ self.old) }
    {
        match awaits {
            Awaits::Value(line) => self.take_value(answer, line),
            Awaits::Subject(line) => self.take_subject(answer, line),
            Awaits::OwnSubject(line) => self.take_own_subject(alloc, answer, line),
            Awaits::Written(line) => self.take_written(answer, line),
            Awaits::Tried => self.take_tried(answer),
            Awaits::Reply(wanted) => match answer {
                Answer::Reply(reply) => self.take_reply(alloc, wanted, reply),
                Answer::Got(value) => self.refuse(Answer::Got(value)),
                Answer::Items => Ok(Received::Halts),
                Answer::Done => Ok(Received::Halts),
                Answer::Error(_) => Ok(Received::Halts),
            },
        }
    }
}
