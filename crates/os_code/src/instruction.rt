//! Instructions.

use obj_kinds::{ClassName, Mode, Text};
use os_kinds::{Function, Operator, Sign, Special};
use sqlite_items::Items;

/// One instruction. Each shows at most one event: an operator leaves its operands below its result, and they are then taken away one
/// by one. A jump says how many of the following instructions it passes; a jump back, how many instructions it goes back, itself
/// included. One that can fail has the line of its command. Where an instruction takes `count` values, they are the arguments or
/// subscripts that were evaluated last.
#[derive(Debug, Drop)]
pub enum Instruction {
    // ---- values
    /// Puts a text on the stack.
    Push(Text),
    /// Puts 1 or 0 on the stack.
    PushTruth(bool),
    /// Puts a variable's value on the stack.
    Load(Text, u32),
    /// Puts a variable's value on the stack, and the empty text where it has none.
    LoadOrEmpty(Text),
    /// Puts a variable's value over the top value; where it has none it jumps.
    LoadOrJump(Text, usize),
    /// Puts 1 or 0 on the stack: whether a variable has a value.
    IsSet(Text),
    /// Puts the object whose method runs on the stack.
    This(u32),
    /// Tests that a method of an object runs.
    TestThis(u32),
    /// Puts the result of a sign over its operand.
    Sign(Sign, u32),
    /// Puts the result of an operator over its two operands.
    Operate(Operator, u32),
    /// Puts the result of a function over so many arguments.
    Apply(Function, usize, u32),
    /// Jumps where the top value doesn't hold, and leaves it.
    SkipUnless(usize, u32),
    /// Jumps where the top value holds, and leaves it.
    SkipWhere(usize, u32),
    /// Puts whether the top value holds over it.
    Truth(u32),
    /// Takes the value below the top one away.
    DropUnder,
    /// Takes the top value away.
    DropTop,
    /// Adds 1 to a variable, and puts the sum on the stack.
    Increment(Text, u32),
    /// Adds the top value to a variable, and puts the sum over it.
    IncrementBy(Text, u32),
    // ---- subscripts: tests of the one that was evaluated last, behind so many others
    TestSubscript(usize, u32),
    /// That behind which the next one is sought, which may be empty.
    TestAfter(usize, u32),
    // ---- what is asked of the store; the answer goes over so many subscripts
    Get(Text, usize, u32),
    /// The empty text where there is no value.
    GetOrEmpty(Text, usize, u32),
    /// The subscripts stand below the top value; where there is no value it passes one instruction instead.
    GetOrSkip(Text, usize, u32),
    Defined(Text, usize, u32),
    Order(Text, usize, u32),
    Incr(Text, usize, u32),
    /// By the top value; the subscripts stand below it.
    IncrBy(Text, usize, u32),
    /// To the top value; the subscripts stand below it.
    Set(Text, usize, u32),
    Kill(Text, usize, u32),
    UnlockAll,
    Begin(u32),
    Commit(u32),
    RollbackAll,
    RollbackOne,
    // ---- locks: so many subscripts, and over them the timeout where there is one
    /// Tests the timeout.
    TestLock {
        global: Text,
        count: usize,
        timed: bool,
        line: u32,
    },
    TryLock {
        global: Text,
        count: usize,
        mode: Mode,
        timed: bool,
        line: u32,
    },
    Unlock {
        global: Text,
        count: usize,
        mode: Mode,
        timed: bool,
        line: u32,
    },
    // ---- what is asked of objects and of the process
    /// A special variable goes on the stack.
    Special(Special, u32),
    /// A method of a class; the answer goes over so many arguments.
    CallClass {
        class: ClassName,
        member: Text,
        count: usize,
        line: u32,
    },
    /// A method of the object below the arguments.
    CallMember(Text, usize, u32),
    /// A method of the object whose method runs, or of its class.
    CallOwn(Text, usize, u32),
    /// A property of the top value goes over it.
    Read(Text, u32),
    /// A property of the object whose method runs goes on the stack.
    ReadOwn(Text, u32),
    /// A property of the top value, of which a method follows. A value goes over the object, and the next instruction takes the
    /// object away; for a collection that instruction is passed. Which of the two it is, is kept as a number.
    ReadSubject(Text, u32),
    /// The same of the object whose method runs; for a collection an empty text stands in place of the value.
    ReadOwnSubject(Text, u32),
    /// A method of what was read, below the arguments.
    CallSubject {
        property: Text,
        member: Text,
        count: usize,
        line: u32,
    },
    CallOwnSubject {
        property: Text,
        member: Text,
        count: usize,
        line: u32,
    },
    /// Sets a property of the object below the top value to that value.
    Write(Text, u32),
    /// Sets a property of the object whose method runs to the top value.
    WriteOwn(Text, u32),
    // ---- commands
    /// Takes the top value into a variable.
    Store(Text),
    /// Takes a unit.
    Unit,
    /// The end of a command argument, postcondition, header or loop test.
    Point,
    /// Prints the top value, and leaves it.
    Print(u32),
    PrintLine,
    Go(usize),
    /// Takes the top value away, and jumps where it doesn't hold.
    JumpUnless(usize, u32),
    /// Takes a unit and jumps back.
    Again(usize),
    /// Takes the top value away, and keeps its number.
    TakeNumber(u32),
    /// Keeps a number in place of a last one.
    NoLast,
    /// Sets a loop's variable to the first of the three numbers that were kept last.
    BeginFor(Text),
    /// Keeps the step and the last number, where there is one; where the first number is within them it passes one instruction, else it
    /// jumps.
    FirstTest(bool, usize),
    /// Adds the step to a loop's variable; where the sum is past the last number it jumps instead.
    Advance {
        variable: Text,
        bounded: bool,
        jump: usize,
        line: u32,
    },
    /// Forgets the step and the last number.
    EndFor,
    Clear(Text),
    ClearAll,
    /// Ends the frame with the top value.
    Return,
    Halt,
}

/// Flat code.
pub type Code = Items<Instruction>;
