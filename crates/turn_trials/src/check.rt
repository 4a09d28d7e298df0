use crate::failure::Failure;
use crate::plan::Asks;
use obj_kinds::{NoMemory, Op, Pid, Reply};
use plain_store::{Ask, Plain};
use std::alloc::Global;
use store_core::Entry;

/// How a history stands to what its processes were to ask, and to the plain model.
#[derive(Clone, Copy, Debug, PartialEq, Eq)]
pub enum Verdict {
    /// Each process asked its operations, each once and in order, and ended; and each reply is the plain
    /// model's.
    Agrees,
    /// The entries of the process are others than its operations and its end.
    OtherEntries(u32),
    /// The entry at this place, from 0, has another reply than the plain model's.
    OtherReply(usize),
}

/// A copy of the entries of one process.
fn own_entries(alloc: Global, history: &[Entry], pid: Pid) -> Result<Vec<Entry>, NoMemory> {
    let mut own = Vec::new(alloc);
    for entry in history {
        if entry.pid == pid {
            own.push(entry.copy(alloc)?)?;
        }
    }
    Ok(own)
}

fn is_end(entry: &Entry) -> bool {
    matches!(entry.op, Op::End)
}

/// Whether these are the operations of a process, in their order, and its end.
fn are_asked(own: &[Entry], asks: &[Ask]) -> bool {
    match own.split_last() {
        Some((last, rest)) => {
            let same = rest
                .iter()
                .zip(asks.iter())
                .all(|pair| pair.1.is(&pair.0.op));
            rest.len() == asks.len() && same && is_end(last)
        }
        None => false,
    }
}

/// The first process whose entries are others than it was to ask.
fn other_process(
    alloc: Global,
    history: &[Entry],
    lists: &[Asks],
) -> Result<Option<u32>, NoMemory> {
    let mut number = 0u32;
    for asks in lists {
        number = number.saturating_add(1);
        let own = own_entries(alloc, history, Pid(number))?;
        if !are_asked(own.as_slice(), asks.as_slice()) {
            return Ok(Some(number));
        }
    }
    Ok(None)
}

/// The operation of a process that comes after so many, if there is one.
fn ask_at(lists: &[Asks], process: usize, at: usize) -> Option<Ask> {
    match lists.get(process) {
        Some(asks) => asks.get(at).copied(),
        None => None,
    }
}

/// Whether the plain model replies to the entry as the store did.
fn agrees(
    plain: &mut Plain,
    lists: &[Asks],
    taken: &mut [usize],
    entry: &Entry,
) -> Result<bool, Failure> {
    let process = match u8::try_from(entry.pid.0) {
        Ok(number) if number > 0 => number - 1,
        _ => return Err(Failure::Process),
    };
    if is_end(entry) {
        plain.end(process);
        return Ok(matches!(entry.reply, Reply::Done));
    }
    let at = match taken.get_mut(usize::from(process)) {
        Some(count) => {
            let at = *count;
            *count = at.saturating_add(1);
            at
        }
        None => return Err(Failure::Process),
    };
    match ask_at(lists, usize::from(process), at) {
        Some(ask) => match plain.answer(process, ask)? {
            Some(want) => Ok(want.is(&entry.reply)),
            None => Err(Failure::Process),
        },
        None => Ok(false),
    }
}

/// The first entry that has another reply than the plain model's.
fn other_reply(
    alloc: Global,
    history: &[Entry],
    lists: &[Asks],
    processes: u8,
) -> Result<Option<usize>, Failure> {
    let mut plain = Plain::new(alloc, processes)?;
    let mut taken = vec![in alloc; 0usize; usize::from(processes)]?;
    for at in 0..history.len() {
        if !agrees(&mut plain, lists, taken.as_mut_slice(), &history[at])? {
            return Ok(Some(at));
        }
    }
    Ok(None)
}

/// Looks at a whole history.
pub fn check_history(
    alloc: Global,
    history: &[Entry],
    lists: &[Asks],
    processes: u8,
) -> Result<Verdict, Failure> {
    if let Some(number) = other_process(alloc, history, lists)? {
        return Ok(Verdict::OtherEntries(number));
    }
    match other_reply(alloc, history, lists, processes)? {
        Some(at) => Ok(Verdict::OtherReply(at)),
        None => Ok(Verdict::Agrees),
    }
}
