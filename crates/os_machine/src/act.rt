ghost use Rattle.std.specs.Prelude.{◌≡◌, IfOk, OnErr};
ghost use Rattle.os_machine.specs.Moves.{move};

use crate::commands::print_line;
use crate::stepped::{Awaits, Sight, Stepped, Wanted};
use crate::store::asks;
use crate::work::Work;
use obj_kinds::{NoMemory, Op, Owner};
use os_code::Instruction;
use os_kinds::{Call, Val};
use std::alloc::Global;

impl Work {
    /// Does what one instruction does, where `this` is the object whose method runs; for want of memory nothing is changed.
    pub(crate) fn act(
        &mut self,
        alloc: Global,
        this: &Option<Val>,
        instruction: &Instruction,
    ) -> Result<Stepped, NoMemory>
        ensures ok { IfOk result (λ s. (s, self.new) ≡ move this.now instruction.now self.old) }
        ensures err { OnErr result (self.new ≡ self.old) }
    {
        match instruction {
            Instruction::Push(text) => self.push_text(alloc, text),
            Instruction::PushTruth(holds) => self.push_truth(alloc, *holds),
            Instruction::Load(name, line) => self.load(alloc, name, *line),
            Instruction::LoadOrEmpty(name) => self.load_or_empty(alloc, name),
            Instruction::LoadOrJump(name, over) => self.load_or_jump(alloc, name, *over),
            Instruction::IsSet(name) => self.is_set(alloc, name),
            Instruction::This(line) => self.this(alloc, this, *line),
            Instruction::TestThis(line) => Ok(self.test_this(this, *line)),
            Instruction::Sign(sign, line) => self.sign(alloc, *sign, *line),
            Instruction::Operate(op, line) => self.operate(alloc, *op, *line),
            Instruction::Apply(function, count, line) => {
                self.apply(alloc, *function, *count, *line)
            }
            Instruction::SkipUnless(over, line) => self.skip_unless(alloc, *over, *line),
            Instruction::SkipWhere(over, line) => self.skip_where(alloc, *over, *line),
            Instruction::Truth(line) => self.truth(alloc, *line),
            Instruction::DropUnder => Ok(self.drop_under()),
            Instruction::DropTop => Ok(self.drop_top()),
            Instruction::Increment(name, line) => self.increment(alloc, name, *line),
            Instruction::IncrementBy(name, line) => self.increment_by(alloc, name, *line),
            Instruction::TestSubscript(others, line) => {
                self.test_subscript(alloc, *others, *line)
            }
            Instruction::TestAfter(others, line) => self.test_after(alloc, *others, *line),
            Instruction::Get(global, count, line) => {
                self.get(alloc, global, *count, *line, Wanted::Found(*line))
            }
            Instruction::GetOrEmpty(global, count, line) => {
                self.get(alloc, global, *count, *line, Wanted::FoundOrEmpty)
            }
            Instruction::GetOrSkip(global, count, line) => {
                self.get_or_skip(alloc, global, *count, *line)
            }
            Instruction::Defined(global, count, line) => self.defined(alloc, global, *count, *line),
            Instruction::Order(global, count, line) => self.order(alloc, global, *count, *line),
            Instruction::Incr(global, count, line) => self.incr(alloc, global, *count, *line),
            Instruction::IncrBy(global, count, line) => self.incr_by(alloc, global, *count, *line),
            Instruction::Set(global, count, line) => self.set(alloc, global, *count, *line),
            Instruction::Kill(global, count, line) => self.kill(alloc, global, *count, *line),
            Instruction::UnlockAll => Ok(asks(Op::UnlockAll(Owner::Script), Wanted::Done)),
            Instruction::Begin(line) => Ok(asks(Op::Begin, Wanted::Begun(*line))),
            Instruction::Commit(line) => Ok(asks(Op::Commit, Wanted::Committed(*line))),
            Instruction::RollbackAll => Ok(asks(Op::RollbackAll, Wanted::Done)),
            Instruction::RollbackOne => Ok(asks(Op::RollbackOne, Wanted::Undone)),
            Instruction::TestLock {
                global,
                count,
                timed,
                line,
            } => self.test_lock(alloc, global, *count, *timed, *line),
            Instruction::TryLock {
                global,
                count,
                mode,
                timed,
                line,
            } => self.try_lock(alloc, global, *count, *mode, *timed, *line),
            Instruction::Unlock {
                global,
                count,
                mode,
                timed,
                line,
            } => self.unlock(alloc, global, *count, *mode, *timed, *line),
            Instruction::Special(special, line) => Ok(Stepped::Asks(
                Call::Special(*special),
                Awaits::Value(*line),
            )),
            Instruction::CallClass {
                class,
                member,
                count,
                line,
            } => self.call_class(alloc, class, member, *count, *line),
            Instruction::CallMember(member, count, line) => {
                self.call_member(alloc, member, *count, *line)
            }
            Instruction::CallOwn(member, count, line) => {
                self.call_own(alloc, this, member, *count, *line)
            }
            Instruction::Read(property, line) => {
                self.read(alloc, property, *line, Awaits::Value(*line))
            }
            Instruction::ReadOwn(property, line) => {
                self.read_own(alloc, this, property, *line, Awaits::Value(*line))
            }
            Instruction::ReadSubject(property, line) => {
                self.read(alloc, property, *line, Awaits::Subject(*line))
            }
            Instruction::ReadOwnSubject(property, line) => {
                self.read_own(alloc, this, property, *line, Awaits::OwnSubject(*line))
            }
            Instruction::CallSubject {
                property,
                member,
                count,
                line,
            } => self.call_subject(alloc, property, member, *count, *line),
            Instruction::CallOwnSubject {
                property,
                member,
                count,
                line,
            } => self.call_own_subject(alloc, this, property, member, *count, *line),
            Instruction::Write(property, line) => self.write(alloc, property, *line),
            Instruction::WriteOwn(property, line) => self.write_own(alloc, this, property, *line),
            Instruction::Store(name) => self.store(alloc, name),
            Instruction::Unit => Ok(Stepped::Spends),
            Instruction::Point => Ok(Stepped::Shows(Sight::Point, 0)),
            Instruction::Print(line) => self.print(alloc, *line),
            Instruction::PrintLine => print_line(alloc),
            Instruction::Go(over) => Ok(Stepped::Goes(*over)),
            Instruction::JumpUnless(over, line) => self.jump_unless(alloc, *over, *line),
            Instruction::Again(back) => Ok(Stepped::Returns(*back)),
            Instruction::TakeNumber(line) => self.take_number(alloc, *line),
            Instruction::NoLast => self.no_last(),
            Instruction::BeginFor(name) => self.begin_for(alloc, name),
            Instruction::FirstTest(bounded, over) => Ok(self.first_test(*bounded, *over)),
            Instruction::Advance {
                variable,
                bounded,
                jump,
                line,
            } => self.advance(alloc, variable, *bounded, *jump, *line),
            Instruction::EndFor => Ok(self.end_for()),
            Instruction::Clear(name) => Ok(self.clear(name)),
            Instruction::ClearAll => Ok(self.clear_all()),
            Instruction::Return => Ok(self.leave()),
            Instruction::Halt => Ok(Stepped::Halts),
        }
    }
}
