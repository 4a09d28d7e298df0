//! Prints the trees of scripts. What is in square brackets is one operand.

use crate::show::{put_number, put_text};
use obj_kinds::{Mode, NoMemory, Text};
use os_kinds::{
    Action, Assignment, Branch, Claim, Command, Counting, Expression, Function, GlobalReference,
    LockAction, Member, Operation, Operator, Output, Place, Sign, Special, Target,
};
use sqlite_items::Items;

fn function_name(function: Function) -> &'static [u8] {
    match function {
        Function::Length => b"$LENGTH".as_slice(),
        Function::Extract => b"$EXTRACT".as_slice(),
        Function::Piece => b"$PIECE".as_slice(),
        Function::Find => b"$FIND".as_slice(),
        Function::Ascii => b"$ASCII".as_slice(),
        Function::Char => b"$CHAR".as_slice(),
        Function::ListBuild => b"$LISTBUILD".as_slice(),
        Function::List => b"$LIST".as_slice(),
        Function::ListLength => b"$LISTLENGTH".as_slice(),
    }
}

fn operator_name(operator: Operator) -> &'static [u8] {
    match operator {
        Operator::Add => b"+".as_slice(),
        Operator::Subtract => b"-".as_slice(),
        Operator::Multiply => b"*".as_slice(),
        Operator::Quotient => b"\\".as_slice(),
        Operator::Modulo => b"#".as_slice(),
        Operator::Join => b"_".as_slice(),
        Operator::Equal => b"=".as_slice(),
        Operator::Less => b"<".as_slice(),
        Operator::Greater => b">".as_slice(),
        Operator::AtMost => b"<=".as_slice(),
        Operator::AtLeast => b">=".as_slice(),
        Operator::Contains => b"[".as_slice(),
        Operator::Follows => b"]".as_slice(),
        Operator::And => b"&".as_slice(),
        Operator::Or => b"!".as_slice(),
        Operator::NotEqual => b"'=".as_slice(),
        Operator::NotLess => b"'<".as_slice(),
        Operator::NotGreater => b"'>".as_slice(),
        Operator::NotContains => b"'[".as_slice(),
        Operator::NotFollows => b"']".as_slice(),
        Operator::AndThen => b"&&".as_slice(),
        Operator::OrElse => b"||".as_slice(),
    }
}

fn sign_name(sign: Sign) -> u8 {
    match sign {
        Sign::Plus => b'+',
        Sign::Minus => b'-',
        Sign::Not => b'\'',
    }
}

fn special_name(special: Special) -> &'static [u8] {
    match special {
        Special::Test => b"$TEST".as_slice(),
        Special::Level => b"$TLEVEL".as_slice(),
        Special::LastError => b"%objlasterror".as_slice(),
    }
}

#[cycle(show)]
fn put_args(out: &mut Text, args: &Items<Expression>) -> Result<(), NoMemory> {
    out.push(b'(')?;
    let mut between = b"".as_slice();
    for arg in args.as_slice() {
        out.push_slice(between)?;
        put_expression(out, arg)?;
        between = b", ".as_slice();
    }
    out.push(b')')
}

#[cycle(show)]
fn put_global(out: &mut Text, global: &GlobalReference) -> Result<(), NoMemory> {
    out.push(b'^')?;
    out.push_slice(global.name.as_slice())?;
    if global.subs.is_empty() {
        return Ok(());
    }
    put_args(out, &global.subs)
}

#[cycle(show)]
fn put_place(out: &mut Text, place: &Place) -> Result<(), NoMemory> {
    match place {
        Place::Variable(name) => out.push_slice(name.as_slice()),
        Place::Global(global) => put_global(out, global),
    }
}

#[cycle(show)]
fn put_member(out: &mut Text, member: &Member) -> Result<(), NoMemory> {
    out.push_slice(member.name.as_slice())?;
    match &member.args {
        Some(args) => put_args(out, args),
        None => Ok(()),
    }
}

#[cycle(show)]
fn put_operation(out: &mut Text, operation: &Operation) -> Result<(), NoMemory> {
    out.push(b' ')?;
    out.push_slice(operator_name(operation.operator))?;
    out.push(b' ')?;
    put_expression(out, &operation.right)
}

#[cycle(show)]
fn put_looking(out: &mut Text, word: &[u8], place: &Place) -> Result<(), NoMemory> {
    out.push_slice(word)?;
    put_place(out, place)
}

#[cycle(show)]
fn put_expression(out: &mut Text, expression: &Expression) -> Result<(), NoMemory> {
    match expression {
        Expression::Literal(text) => {
            out.push(b'"')?;
            put_text(out, text.as_slice())?;
            out.push(b'"')
        }
        Expression::Value(place) => put_place(out, place),
        Expression::Special(special) => out.push_slice(special_name(*special)),
        Expression::This => out.push_slice(b"$THIS".as_slice()),
        Expression::Function(function, args) => {
            out.push_slice(function_name(*function))?;
            put_args(out, args)
        }
        Expression::Get(place, default) => {
            put_looking(out, b"$GET(".as_slice(), place)?;
            if let Some(default) = default {
                out.push_slice(b", ".as_slice())?;
                put_expression(out, default.get())?;
            }
            out.push(b')')
        }
        Expression::Data(place) => {
            put_looking(out, b"$DATA(".as_slice(), place)?;
            out.push(b')')
        }
        Expression::Order(global) => {
            out.push_slice(b"$ORDER(".as_slice())?;
            put_global(out, global)?;
            out.push(b')')
        }
        Expression::Increment(place, step) => {
            put_looking(out, b"$INCREMENT(".as_slice(), place)?;
            if let Some(step) = step {
                out.push_slice(b", ".as_slice())?;
                put_expression(out, step.get())?;
            }
            out.push(b')')
        }
        Expression::ClassCall {
            class,
            member,
            args,
        } => {
            out.push_slice(b"##class(".as_slice())?;
            out.push_slice(class.0.as_slice())?;
            out.push_slice(b").".as_slice())?;
            out.push_slice(member.as_slice())?;
            put_args(out, args)
        }
        Expression::Own(member) => {
            out.push_slice(b"..".as_slice())?;
            put_member(out, member)
        }
        Expression::Members(object, members) => {
            out.push(b'[')?;
            put_expression(out, object.get())?;
            for member in members.as_slice() {
                out.push(b'.')?;
                put_member(out, member)?;
            }
            out.push(b']')
        }
        Expression::Signed(signs, operand) => {
            out.push(b'[')?;
            for sign in signs.as_slice() {
                out.push(sign_name(*sign))?;
            }
            out.push(b' ')?;
            put_expression(out, operand.get())?;
            out.push(b']')
        }
        Expression::Operations(first, operations) => {
            out.push(b'[')?;
            put_expression(out, first.get())?;
            for operation in operations.as_slice() {
                put_operation(out, operation)?;
            }
            out.push(b']')
        }
    }
}

fn put_target(out: &mut Text, target: &Target) -> Result<(), NoMemory> {
    match target {
        Target::Place(place) => put_place(out, place),
        Target::OwnProperty(name) => {
            out.push_slice(b"..".as_slice())?;
            out.push_slice(name.as_slice())
        }
        Target::Property { object, member } => {
            put_expression(out, object)?;
            out.push_slice(b" . ".as_slice())?;
            out.push_slice(member.as_slice())
        }
    }
}

fn put_assignments(out: &mut Text, assignments: &[Assignment]) -> Result<(), NoMemory> {
    for assignment in assignments {
        out.push(b' ')?;
        put_target(out, &assignment.target)?;
        out.push_slice(b" := ".as_slice())?;
        put_expression(out, &assignment.value)?;
    }
    Ok(())
}

fn put_outputs(out: &mut Text, outputs: &[Output]) -> Result<(), NoMemory> {
    for output in outputs {
        out.push(b' ')?;
        match output {
            Output::NewLine => out.push(b'!')?,
            Output::Value(value) => put_expression(out, value)?,
        }
    }
    Ok(())
}

fn put_expressions(out: &mut Text, expressions: &[Expression]) -> Result<(), NoMemory> {
    for expression in expressions {
        out.push(b' ')?;
        put_expression(out, expression)?;
    }
    Ok(())
}

fn put_places(out: &mut Text, places: &[Place]) -> Result<(), NoMemory> {
    for place in places {
        out.push(b' ')?;
        put_place(out, place)?;
    }
    Ok(())
}

fn put_claims(out: &mut Text, claims: &[Claim]) -> Result<(), NoMemory> {
    for claim in claims {
        out.push_slice(match claim.action {
            LockAction::Renew => b" renew ".as_slice(),
            LockAction::Add => b" add ".as_slice(),
            LockAction::Remove => b" remove ".as_slice(),
        })?;
        put_global(out, &claim.global)?;
        if claim.mode == Mode::Shared {
            out.push_slice(b" shared".as_slice())?;
        }
        if let Some(timeout) = &claim.timeout {
            out.push_slice(b" within ".as_slice())?;
            put_expression(out, timeout)?;
        }
    }
    Ok(())
}

fn put_action(out: &mut Text, action: &Action) -> Result<(), NoMemory> {
    match action {
        Action::Set(assignments) => {
            out.push_slice(b"SET".as_slice())?;
            put_assignments(out, assignments.as_slice())
        }
        Action::Write(outputs) => {
            out.push_slice(b"WRITE".as_slice())?;
            put_outputs(out, outputs.as_slice())
        }
        Action::Do(calls) => {
            out.push_slice(b"DO".as_slice())?;
            put_expressions(out, calls.as_slice())
        }
        Action::Quit(None) => out.push_slice(b"QUIT".as_slice()),
        Action::Quit(Some(value)) => {
            out.push_slice(b"QUIT ".as_slice())?;
            put_expression(out, value)
        }
        Action::Kill(places) => {
            out.push_slice(b"KILL".as_slice())?;
            put_places(out, places.as_slice())
        }
        Action::KillAll => out.push_slice(b"KILL all".as_slice()),
        Action::Lock(claims) => {
            out.push_slice(b"LOCK".as_slice())?;
            put_claims(out, claims.as_slice())
        }
        Action::UnlockAll => out.push_slice(b"LOCK none".as_slice()),
        Action::TStart => out.push_slice(b"TSTART".as_slice()),
        Action::TCommit => out.push_slice(b"TCOMMIT".as_slice()),
        Action::TRollback => out.push_slice(b"TROLLBACK".as_slice()),
        Action::TRollbackOne => out.push_slice(b"TROLLBACK 1".as_slice()),
        Action::Halt => out.push_slice(b"HALT".as_slice()),
    }
}

/// Blanks by how many blocks are open.
fn put_blanks(out: &mut Text, deep: u8) -> Result<(), NoMemory> {
    for _ in 0..deep {
        out.push_slice(b"    ".as_slice())?;
    }
    Ok(())
}

/// The start of a line, with the line of the command's word.
fn put_head(out: &mut Text, deep: u8, line: u32) -> Result<(), NoMemory> {
    put_blanks(out, deep)?;
    put_number(out, line)?;
    out.push(b' ')
}

fn put_counting(out: &mut Text, counting: &Counting) -> Result<(), NoMemory> {
    out.push(b' ')?;
    out.push_slice(counting.variable.as_slice())?;
    out.push_slice(b" from ".as_slice())?;
    put_expression(out, &counting.first)?;
    out.push_slice(b" by ".as_slice())?;
    put_expression(out, &counting.step)?;
    if let Some(last) = &counting.last {
        out.push_slice(b" to ".as_slice())?;
        put_expression(out, last)?;
    }
    Ok(())
}

#[cycle(commands)]
fn put_branch(out: &mut Text, branch: &Branch, deep: u8) -> Result<(), NoMemory> {
    put_head(out, deep, branch.line)?;
    out.push_slice(b"IF".as_slice())?;
    put_expressions(out, branch.conditions.as_slice())?;
    out.push(b'\n')?;
    put_block(out, &branch.block, deeper(deep))
}

fn deeper(deep: u8) -> u8 {
    deep.saturating_add(1)
}

#[cycle(commands)]
fn put_command(out: &mut Text, command: &Command, deep: u8) -> Result<(), NoMemory> {
    match command {
        Command::Plain {
            line,
            condition,
            action,
        } => {
            put_head(out, deep, *line)?;
            if let Some(condition) = condition {
                out.push_slice(b"when ".as_slice())?;
                put_expression(out, condition)?;
                out.push(b' ')?;
            }
            put_action(out, action)?;
            out.push(b'\n')
        }
        Command::If {
            branches,
            otherwise,
        } => {
            for branch in branches.as_slice() {
                put_branch(out, branch, deep)?;
            }
            let Some(block) = otherwise else {
                return Ok(());
            };
            put_blanks(out, deep)?;
            out.push_slice(b"ELSE\n".as_slice())?;
            put_block(out, block, deeper(deep))
        }
        Command::For {
            line,
            counting,
            block,
        } => {
            put_head(out, deep, *line)?;
            out.push_slice(b"FOR".as_slice())?;
            if let Some(counting) = counting {
                put_counting(out, counting)?;
            }
            out.push(b'\n')?;
            put_block(out, block, deeper(deep))
        }
        Command::While {
            line,
            conditions,
            block,
        } => {
            put_head(out, deep, *line)?;
            out.push_slice(b"WHILE".as_slice())?;
            put_expressions(out, conditions.as_slice())?;
            out.push(b'\n')?;
            put_block(out, block, deeper(deep))
        }
    }
}

/// Prints commands, each on lines of its own.
#[cycle(commands)]
pub fn put_block(out: &mut Text, block: &Items<Command>, deep: u8) -> Result<(), NoMemory> {
    for command in block.as_slice() {
        put_command(out, command, deep)?;
    }
    Ok(())
}
