ghost use Rattle.std.specs.Prelude.{◌≢◌, IfOk, IfSome};
ghost use Rattle.obj_kinds.specs.declared.op.Op.TheVariants.{End};

use crate::failure::Failure;
use obj_kinds::{Keep, Mode, Node, Op, Owner, Sub, Subs, Text, Value};
use sqlite_items::Items;
use std::alloc::Global;

/// The words of one line.
pub type Words<'a> = Vec<&'a str>;

/// The word at a place of a line.
pub fn word<'a>(words: &Words<'a>, at: usize) -> Result<&'a str, Failure> {
    match words.get(at) {
        Some(word) => Ok(*word),
        None => Err(Failure::Line),
    }
}

fn number(words: &Words<'_>, at: usize) -> Result<i64, Failure> {
    match word(words, at)?.parse::<i64>() {
        Ok(number) => Ok(number),
        Err(_) => Err(Failure::Line),
    }
}

/// Subscripts with commas between them.
fn subs(alloc: Global, text: &str) -> Result<Subs, Failure> {
    let mut subs = Items::new(alloc);
    for part in text.split(',') {
        subs.push(Sub::from_text(alloc, part.as_bytes())?)?;
    }
    Ok(subs)
}

/// A node as `^name` or `^name(1,x)`.
fn node(alloc: Global, words: &Words<'_>, at: usize) -> Result<Node, Failure> {
    let text = word(words, at)?;
    let name = match text.strip_prefix('^') {
        Some(name) => name,
        None => return Err(Failure::Line),
    };
    let (global, subs) = match name.split_once('(') {
        None => (name, Items::new(alloc)),
        Some((global, rest)) => (global, inner(alloc, rest)?),
    };
    let global = Text::from_slice(alloc, global.as_bytes())?;
    Ok(Node { global, subs })
}

fn inner(alloc: Global, rest: &str) -> Result<Subs, Failure> {
    match rest.strip_suffix(')') {
        Some(inside) => subs(alloc, inside),
        None => Err(Failure::Line),
    }
}

/// A text, or a list of texts as `[x;y]`.
fn value(alloc: Global, words: &Words<'_>, at: usize) -> Result<Value, Failure> {
    let text = word(words, at)?;
    match text.strip_prefix('[') {
        None => Ok(Value::Str(Text::from_slice(alloc, text.as_bytes())?)),
        Some(rest) => list(alloc, rest),
    }
}

fn list(alloc: Global, rest: &str) -> Result<Value, Failure> {
    let inside = match rest.strip_suffix(']') {
        Some(inside) => inside,
        None => return Err(Failure::Line),
    };
    let mut values = Items::new(alloc);
    for part in inside.split(';') {
        values.push(Value::Str(Text::from_slice(alloc, part.as_bytes())?))?;
    }
    Ok(Value::List(values))
}

fn mode(words: &Words<'_>, at: usize) -> Result<Mode, Failure> {
    match word(words, at)? {
        "shared" => Ok(Mode::Shared),
        "exclusive" => Ok(Mode::Exclusive),
        _ => Err(Failure::Line),
    }
}

fn owner(words: &Words<'_>, at: usize) -> Result<Owner, Failure> {
    match word(words, at)? {
        "script" => Ok(Owner::Script),
        "object" => Ok(Owner::Object),
        _ => Err(Failure::Line),
    }
}

fn keep(words: &Words<'_>, at: usize) -> Result<Keep, Failure> {
    match word(words, at)? {
        "counted" => Ok(Keep::Counted),
        "to_end" => Ok(Keep::ToEnd),
        _ => Err(Failure::Line),
    }
}

fn after(alloc: Global, words: &Words<'_>, at: usize) -> Result<Option<Sub>, Failure> {
    match words.get(at) {
        Some(word) => Ok(Some(Sub::from_text(alloc, word.as_bytes())?)),
        None => Ok(None),
    }
}

/// The operation that the words of a line name, behind the process; none where it is the end.
pub fn operation(alloc: Global, words: &Words<'_>) -> Result<Option<Op>, Failure>
    ensures { IfOk result (λ op. IfSome op (λ op. op ≢ End)) }
{
    if word(words, 1)? == "end" {
        return Ok(None);
    }
    Ok(Some(of_process(alloc, words)?))
}

fn of_process(alloc: Global, words: &Words<'_>) -> Result<Op, Failure>
    ensures { IfOk result (λ op. op ≢ End) }
{
    match word(words, 1)? {
        "get" => Ok(Op::Get(node(alloc, words, 2)?)),
        "defined" => Ok(Op::Defined(node(alloc, words, 2)?)),
        "order" => Ok(Op::Order(node(alloc, words, 2)?, after(alloc, words, 3)?)),
        "set" => Ok(Op::Set(node(alloc, words, 2)?, value(alloc, words, 3)?)),
        "kill" => Ok(Op::Kill(node(alloc, words, 2)?)),
        "incr" => Ok(Op::Incr(node(alloc, words, 2)?, number(words, 3)?)),
        "lock" => lock(alloc, words),
        "unlock" => unlock(alloc, words),
        _ => of_levels(words),
    }
}

fn lock(alloc: Global, words: &Words<'_>) -> Result<Op, Failure>
    ensures { IfOk result (λ op. op ≢ End) }
{
    let place = node(alloc, words, 2)?;
    let (mode, owner, keep) = (mode(words, 3)?, owner(words, 4)?, keep(words, 5)?);
    Ok(Op::Lock(place, mode, owner, keep))
}

fn unlock(alloc: Global, words: &Words<'_>) -> Result<Op, Failure>
    ensures { IfOk result (λ op. op ≢ End) }
{
    let place = node(alloc, words, 2)?;
    let (mode, owner) = (mode(words, 3)?, owner(words, 4)?);
    Ok(Op::Unlock(place, mode, owner))
}

fn of_levels(words: &Words<'_>) -> Result<Op, Failure>
    ensures { IfOk result (λ op. op ≢ End) }
{
    match word(words, 1)? {
        "unlock_all" => Ok(Op::UnlockAll(owner(words, 2)?)),
        "begin" => Ok(Op::Begin),
        "commit" => Ok(Op::Commit),
        "rollback_one" => Ok(Op::RollbackOne),
        "rollback_all" => Ok(Op::RollbackAll),
        _ => Err(Failure::Line),
    }
}

/// A number without a sign.
pub fn count(words: &Words<'_>, at: usize) -> Result<u64, Failure> {
    match word(words, at)?.parse::<u64>() {
        Ok(number) => Ok(number),
        Err(_) => Err(Failure::Line),
    }
}
