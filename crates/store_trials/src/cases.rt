ghost use Rattle.std.specs.Prelude.{◌≡◌, ◌≢◌, true};
ghost use Rattle.obj_kinds.specs.declared.op.Op.TheVariants.{End};
ghost use Rattle.obj_kinds.specs.Limits.{is_legal_op};
ghost use Rattle.store_core.specs.Machine.{is_live};
ghost use Rattle.store_core.specs.Ledger.{state_of};

use crate::failure::Failure;
use crate::names::{Words, count, operation, word};
use crate::tell::reply_text;
use obj_kinds::{Op, Pid, Text};
use sqlite_items::Items;
use std::alloc::Global;
use std::str;
use store_core::{ApplyError, Store};

/// Carries out the lines of the cases one by one, and prints each with what it answers.
pub fn run_cases(rt: &HostRuntime, text: &str) -> Result<(), Failure> {
    let mut store = new_store(rt.alloc(), 1, 0)?;
    for line in text.lines() {
        run_line(rt, &mut store, line)?;
    }
    Ok(())
}

fn new_store(alloc: Global, pids: u64, room: u64) -> Result<Store, Failure> {
    match u32::try_from(pids) {
        Ok(pids) if 1 <= pids && pids <= 64 => {
            Ok(Store::new(alloc, pids, Items::new(alloc), room)?)
        }
        _ => Err(Failure::Line),
    }
}

fn words_of<'a>(alloc: Global, line: &'a str) -> Result<Words<'a>, Failure> {
    let mut words = Vec::new(alloc);
    for word in line.split(' ') {
        words.push(word)?;
    }
    Ok(words)
}

fn run_line(rt: &HostRuntime, store: &mut Store, line: &str) -> Result<(), Failure> {
    if line.is_empty() || line.starts_with('#') {
        println!(rt; "{line}")?;
        return Ok(());
    }
    let words = words_of(rt.alloc(), line)?;
    match word(&words, 0)? {
        "store" => {
            *store = new_store(rt.alloc(), count(&words, 1)?, count(&words, 2)?)?;
            println!(rt; "{line}")?;
        }
        "history" => println!(rt; "{line}: {}", store.history().len())?,
        _ => {
            let told = answer(rt.alloc(), store, &words)?;
            let text = str::from_utf8(told.as_slice()).unwrap_or("?");
            println!(rt; "{line}: {text}")?;
        }
    }
    Ok(())
}

/// What the store replies to the operation of a line, or what refuses it.
fn answer(alloc: Global, store: &mut Store, words: &Words<'_>) -> Result<Text, Failure> {
    let pid = match u32::try_from(count(words, 0)?) {
        Ok(number) => Pid(number),
        Err(_) => return Err(Failure::Line),
    };
    let op = operation(alloc, words)?;
    if !store.is_live(pid) {
        return Ok(Text::from_slice(alloc, b"no such process")?);
    }
    match op {
        None => reply_text(alloc, &store.apply_end(pid)),
        Some(op) if op.is_legal() => applied(alloc, store, pid, op),
        Some(_) => Ok(Text::from_slice(alloc, b"beyond the limits")?),
    }
}

fn applied(alloc: Global, store: &mut Store, pid: Pid, op: Op) -> Result<Text, Failure>
    requires live { is_live (state_of store.old) pid ≡ true }
    requires op { op ≢ End }
    requires limits { is_legal_op op ≡ true }
{
    match store.apply(pid, op) {
        Ok(reply) => reply_text(alloc, &reply),
        Err(ApplyError::Volume) => Ok(Text::from_slice(alloc, b"no volume")?),
        Err(ApplyError::NoMemory) => Err(Failure::Room),
    }
}
