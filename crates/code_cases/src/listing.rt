//! Prints code, one instruction a line. `@` stands before the line of a command, `+` before how many instructions a jump passes, `-`
//! before how many it goes back.

use crate::parts::{
    put_ahead, put_at, put_back, put_count, put_counted_at, put_jump_at, put_line, put_name,
    put_named, put_named_at, put_plain, put_test_at, put_word,
};
use obj_kinds::{Mode, NoMemory, Text};
use os_code::{Code, Instruction};
use os_kinds::{Function, Operator, Sign, Special};

fn function_name(function: Function) -> &'static [u8] {
    match function {
        Function::Length => b"$LENGTH".as_slice(),
        Function::Extract => b"$EXTRACT".as_slice(),
        Function::Piece => b"$PIECE".as_slice(),
        Function::Find => b"$FIND".as_slice(),
        Function::Ascii => b"$ASCII".as_slice(),
        Function::Char => b"$CHAR".as_slice(),
        Function::ListBuild => b"$LISTBUILD".as_slice(),
        Function::List => b"$LIST".as_slice(),
        Function::ListLength => b"$LISTLENGTH".as_slice(),
    }
}

fn operator_name(operator: Operator) -> &'static [u8] {
    match operator {
        Operator::Add => b"+".as_slice(),
        Operator::Subtract => b"-".as_slice(),
        Operator::Multiply => b"*".as_slice(),
        Operator::Quotient => b"\\".as_slice(),
        Operator::Modulo => b"#".as_slice(),
        Operator::Join => b"_".as_slice(),
        Operator::Equal => b"=".as_slice(),
        Operator::Less => b"<".as_slice(),
        Operator::Greater => b">".as_slice(),
        Operator::AtMost => b"<=".as_slice(),
        Operator::AtLeast => b">=".as_slice(),
        Operator::Contains => b"[".as_slice(),
        Operator::Follows => b"]".as_slice(),
        Operator::And => b"&".as_slice(),
        Operator::Or => b"!".as_slice(),
        Operator::NotEqual => b"'=".as_slice(),
        Operator::NotLess => b"'<".as_slice(),
        Operator::NotGreater => b"'>".as_slice(),
        Operator::NotContains => b"'[".as_slice(),
        Operator::NotFollows => b"']".as_slice(),
        Operator::AndThen => b"&&".as_slice(),
        Operator::OrElse => b"||".as_slice(),
    }
}

fn sign_name(sign: Sign) -> &'static [u8] {
    match sign {
        Sign::Plus => b"+".as_slice(),
        Sign::Minus => b"-".as_slice(),
        Sign::Not => b"'".as_slice(),
    }
}

fn special_name(special: Special) -> &'static [u8] {
    match special {
        Special::Test => b"$TEST".as_slice(),
        Special::Level => b"$TLEVEL".as_slice(),
        Special::LastError => b"%objlasterror".as_slice(),
    }
}

fn mode_name(mode: Mode) -> &'static [u8] {
    match mode {
        Mode::Shared => b" shared".as_slice(),
        Mode::Exclusive => b" exclusive".as_slice(),
    }
}

fn timed_name(timed: bool) -> &'static [u8] {
    if timed {
        b" timed".as_slice()
    } else {
        b"".as_slice()
    }
}

fn bounded_name(bounded: bool) -> &'static [u8] {
    if bounded {
        b" bounded".as_slice()
    } else {
        b"".as_slice()
    }
}

/// Puts an instruction on what is named by a word of the language.
fn put_operating(out: &mut Text, word: &[u8], name: &[u8], line: u32) -> Result<(), NoMemory> {
    put_word(out, word)?;
    out.push(b' ')?;
    out.push_slice(name)?;
    put_line(out, line)?;
    out.push(b'\n')
}

fn put_apply(out: &mut Text, function: Function, count: usize, line: u32) -> Result<(), NoMemory> {
    put_word(out, b"Apply ".as_slice())?;
    out.push_slice(function_name(function))?;
    put_count(out, count)?;
    put_line(out, line)?;
    out.push(b'\n')
}

fn put_push(out: &mut Text, text: &Text) -> Result<(), NoMemory> {
    put_word(out, b"Push \"".as_slice())?;
    out.push_slice(text.as_slice())?;
    out.push_slice(b"\"\n".as_slice())
}

fn put_truth(out: &mut Text, truth: bool) -> Result<(), NoMemory> {
    let word = if truth {
        b"PushTruth 1".as_slice()
    } else {
        b"PushTruth 0".as_slice()
    };
    put_plain(out, word)
}

/// Puts a call with two names before its arguments.
fn put_call(
    out: &mut Text,
    word: &[u8],
    of: &Text,
    member: &Text,
    count: usize,
) -> Result<(), NoMemory> {
    put_word(out, word)?;
    put_name(out, of)?;
    put_name(out, member)?;
    put_count(out, count)
}

fn put_lock(out: &mut Text, word: &[u8], global: &Text, count: usize) -> Result<(), NoMemory> {
    put_word(out, word)?;
    put_name(out, global)?;
    put_count(out, count)
}

fn end_lock(out: &mut Text, timed: bool, line: u32) -> Result<(), NoMemory> {
    out.push_slice(timed_name(timed))?;
    put_at_end(out, line)
}

fn put_first_test(out: &mut Text, bounded: bool, jump: usize) -> Result<(), NoMemory> {
    put_word(out, b"FirstTest".as_slice())?;
    out.push_slice(bounded_name(bounded))?;
    put_ahead(out, jump)?;
    out.push(b'\n')
}

fn put_advance(
    out: &mut Text,
    variable: &Text,
    bounded: bool,
    jump: usize,
    line: u32,
) -> Result<(), NoMemory> {
    put_word(out, b"Advance".as_slice())?;
    put_name(out, variable)?;
    out.push_slice(bounded_name(bounded))?;
    put_ahead(out, jump)?;
    put_line(out, line)?;
    out.push(b'\n')
}

fn put_go(out: &mut Text, jump: usize) -> Result<(), NoMemory> {
    put_word(out, b"Go".as_slice())?;
    put_ahead(out, jump)?;
    out.push(b'\n')
}

fn put_again(out: &mut Text, back: usize) -> Result<(), NoMemory> {
    put_word(out, b"Again".as_slice())?;
    put_back(out, back)?;
    out.push(b'\n')
}

fn put_load_or_jump(out: &mut Text, variable: &Text, jump: usize) -> Result<(), NoMemory> {
    put_word(out, b"LoadOrJump".as_slice())?;
    put_name(out, variable)?;
    put_ahead(out, jump)?;
    out.push(b'\n')
}

/// Ends a line with that of its command.
fn put_at_end(out: &mut Text, line: u32) -> Result<(), NoMemory> {
    put_line(out, line)?;
    out.push(b'\n')
}

fn put_instruction(out: &mut Text, instruction: &Instruction) -> Result<(), NoMemory> {
    match instruction {
        Instruction::Push(text) => put_push(out, text),
        Instruction::PushTruth(truth) => put_truth(out, *truth),
        Instruction::Load(x, line) => put_named_at(out, b"Load".as_slice(), x, *line),
        Instruction::LoadOrEmpty(x) => put_named(out, b"LoadOrEmpty".as_slice(), x),
        Instruction::LoadOrJump(x, jump) => put_load_or_jump(out, x, *jump),
        Instruction::IsSet(x) => put_named(out, b"IsSet".as_slice(), x),
        Instruction::This(line) => put_at(out, b"This".as_slice(), *line),
        Instruction::TestThis(line) => put_at(out, b"TestThis".as_slice(), *line),
        Instruction::Sign(sign, line) => {
            put_operating(out, b"Sign".as_slice(), sign_name(*sign), *line)
        }
        Instruction::Operate(operator, line) => {
            put_operating(out, b"Operate".as_slice(), operator_name(*operator), *line)
        }
        Instruction::Apply(function, count, line) => put_apply(out, *function, *count, *line),
        Instruction::SkipUnless(jump, line) => {
            put_jump_at(out, b"SkipUnless".as_slice(), *jump, *line)
        }
        Instruction::SkipWhere(jump, line) => {
            put_jump_at(out, b"SkipWhere".as_slice(), *jump, *line)
        }
        Instruction::Truth(line) => put_at(out, b"Truth".as_slice(), *line),
        Instruction::DropUnder => put_plain(out, b"DropUnder".as_slice()),
        Instruction::DropTop => put_plain(out, b"DropTop".as_slice()),
        Instruction::Increment(x, line) => put_named_at(out, b"Increment".as_slice(), x, *line),
        Instruction::IncrementBy(x, line) => {
            put_named_at(out, b"IncrementBy".as_slice(), x, *line)
        }
        Instruction::TestSubscript(others, line) => {
            put_test_at(out, b"TestSubscript".as_slice(), *others, *line)
        }
        Instruction::TestAfter(others, line) => {
            put_test_at(out, b"TestAfter".as_slice(), *others, *line)
        }
        Instruction::Special(special, line) => {
            put_operating(out, b"Special".as_slice(), special_name(*special), *line)
        }
        // ---- what is asked of the store and of objects
        Instruction::Get(g, count, line) => {
            put_counted_at(out, b"Get".as_slice(), g, *count, *line)
        }
        Instruction::GetOrEmpty(g, count, line) => {
            put_counted_at(out, b"GetOrEmpty".as_slice(), g, *count, *line)
        }
        Instruction::GetOrSkip(g, count, line) => {
            put_counted_at(out, b"GetOrSkip".as_slice(), g, *count, *line)
        }
        Instruction::Defined(g, count, line) => {
            put_counted_at(out, b"Defined".as_slice(), g, *count, *line)
        }
        Instruction::Order(g, count, line) => {
            put_counted_at(out, b"Order".as_slice(), g, *count, *line)
        }
        Instruction::Incr(g, count, line) => {
            put_counted_at(out, b"Incr".as_slice(), g, *count, *line)
        }
        Instruction::IncrBy(g, count, line) => {
            put_counted_at(out, b"IncrBy".as_slice(), g, *count, *line)
        }
        Instruction::Set(g, count, line) => {
            put_counted_at(out, b"Set".as_slice(), g, *count, *line)
        }
        Instruction::Kill(g, count, line) => {
            put_counted_at(out, b"Kill".as_slice(), g, *count, *line)
        }
        Instruction::CallMember(m, count, line) => {
            put_counted_at(out, b"CallMember".as_slice(), m, *count, *line)
        }
        Instruction::CallOwn(m, count, line) => {
            put_counted_at(out, b"CallOwn".as_slice(), m, *count, *line)
        }
        Instruction::CallClass {
            class,
            member,
            count,
            line,
        } => {
            put_call(out, b"CallClass".as_slice(), &class.0, member, *count)?;
            put_at_end(out, *line)
        }
        Instruction::CallSubject {
            property,
            member,
            count,
            line,
        } => {
            put_call(out, b"CallSubject".as_slice(), property, member, *count)?;
            put_at_end(out, *line)
        }
        Instruction::CallOwnSubject {
            property,
            member,
            count,
            line,
        } => {
            put_call(out, b"CallOwnSubject".as_slice(), property, member, *count)?;
            put_at_end(out, *line)
        }
        Instruction::Read(p, line) => put_named_at(out, b"Read".as_slice(), p, *line),
        Instruction::ReadOwn(p, line) => put_named_at(out, b"ReadOwn".as_slice(), p, *line),
        Instruction::ReadSubject(p, line) => {
            put_named_at(out, b"ReadSubject".as_slice(), p, *line)
        }
        Instruction::ReadOwnSubject(p, line) => {
            put_named_at(out, b"ReadOwnSubject".as_slice(), p, *line)
        }
        Instruction::Write(p, line) => put_named_at(out, b"Write".as_slice(), p, *line),
        Instruction::WriteOwn(p, line) => put_named_at(out, b"WriteOwn".as_slice(), p, *line),
        Instruction::TestLock {
            global,
            count,
            timed,
            line,
        } => {
            put_lock(out, b"TestLock".as_slice(), global, *count)?;
            end_lock(out, *timed, *line)
        }
        Instruction::TryLock {
            global,
            count,
            mode,
            timed,
            line,
        } => {
            put_lock(out, b"TryLock".as_slice(), global, *count)?;
            out.push_slice(mode_name(*mode))?;
            end_lock(out, *timed, *line)
        }
        Instruction::Unlock {
            global,
            count,
            mode,
            timed,
            line,
        } => {
            put_lock(out, b"Unlock".as_slice(), global, *count)?;
            out.push_slice(mode_name(*mode))?;
            end_lock(out, *timed, *line)
        }
        // ---- commands
        Instruction::Store(x) => put_named(out, b"Store".as_slice(), x),
        Instruction::Unit => put_plain(out, b"Unit".as_slice()),
        Instruction::Point => put_plain(out, b"Point".as_slice()),
        Instruction::Print(line) => put_at(out, b"Print".as_slice(), *line),
        Instruction::PrintLine => put_plain(out, b"PrintLine".as_slice()),
        Instruction::Go(jump) => put_go(out, *jump),
        Instruction::JumpUnless(jump, line) => {
            put_jump_at(out, b"JumpUnless".as_slice(), *jump, *line)
        }
        Instruction::Again(back) => put_again(out, *back),
        Instruction::TakeNumber(line) => put_at(out, b"TakeNumber".as_slice(), *line),
        Instruction::NoLast => put_plain(out, b"NoLast".as_slice()),
        Instruction::BeginFor(x) => put_named(out, b"BeginFor".as_slice(), x),
        Instruction::FirstTest(bounded, jump) => put_first_test(out, *bounded, *jump),
        Instruction::Advance {
            variable,
            bounded,
            jump,
            line,
        } => put_advance(out, variable, *bounded, *jump, *line),
        Instruction::EndFor => put_plain(out, b"EndFor".as_slice()),
        Instruction::Clear(x) => put_named(out, b"Clear".as_slice(), x),
        Instruction::ClearAll => put_plain(out, b"ClearAll".as_slice()),
        Instruction::UnlockAll => put_plain(out, b"UnlockAll".as_slice()),
        Instruction::Begin(line) => put_at(out, b"Begin".as_slice(), *line),
        Instruction::Commit(line) => put_at(out, b"Commit".as_slice(), *line),
        Instruction::RollbackAll => put_plain(out, b"RollbackAll".as_slice()),
        Instruction::RollbackOne => put_plain(out, b"RollbackOne".as_slice()),
        Instruction::Return => put_plain(out, b"Return".as_slice()),
        Instruction::Halt => put_plain(out, b"Halt".as_slice()),
    }
}

/// Prints each instruction.
pub fn put_code(out: &mut Text, code: &Code) -> Result<(), NoMemory> {
    for instruction in code.as_slice() {
        put_instruction(out, instruction)?;
    }
    Ok(())
}
