use crate::asked::{asked, empty_store, ended};
use crate::failure::Failure;
use plain_store::{Ask, Dice, PLACES, Plain};
use std::alloc::Global;
use store_core::Store;

/// Whether the store replies to the process as the plain model does.
fn agrees(
    store: &mut Store,
    plain: &mut Plain,
    alloc: Global,
    process: u8,
    ask: Ask,
) -> Result<bool, Failure> {
    let reply = asked(store, alloc, u32::from(process) + 1, ask)?;
    match plain.answer(process, ask)? {
        Some(want) => Ok(want.is(&reply)),
        None => Err(Failure::Process),
    }
}

/// Lets the processes take these turns, the second one only before it has ended, and answers the
/// first turn at which the store and the plain model don't agree.
fn turns(
    store: &mut Store,
    plain: &mut Plain,
    dice: &mut Dice,
    alloc: Global,
    from: u32,
    to: u32,
    has_ended: bool,
) -> Result<Option<u32>, Failure> {
    for turn in from..to {
        let process = if has_ended {
            dice.roll(2) * 2
        } else {
            dice.roll(3)
        };
        let ask = dice.ask();
        if !agrees(store, plain, alloc, process, ask)? {
            return Ok(Some(turn));
        }
    }
    Ok(None)
}

/// Whether the end of the process agrees.
fn end(store: &mut Store, plain: &mut Plain, process: u8) -> bool {
    plain.end(process);
    ended(store, u32::from(process) + 1)
}

/// The first place at which the values don't agree, as the third process gets them.
fn values(store: &mut Store, plain: &mut Plain, alloc: Global) -> Result<Option<u32>, Failure> {
    for place in 0..PLACES {
        if !agrees(store, plain, alloc, 2, Ask::Get(place))? {
            return Ok(Some(u32::from(place)));
        }
    }
    Ok(None)
}

/// Runs three processes for 300 turns; the second one ends after 200, the first one at last. It
/// answers the first turn that doesn't agree.
pub fn replay(alloc: Global, seed: u64) -> Result<Option<u32>, Failure> {
    let mut store = empty_store(alloc, 3, 1_000_000)?;
    let mut plain = Plain::new(alloc, 3)?;
    let mut dice = Dice::new(seed);
    let early = turns(&mut store, &mut plain, &mut dice, alloc, 0, 200, false)?;
    if early.is_some() {
        return Ok(early);
    }
    if !end(&mut store, &mut plain, 1) {
        return Ok(Some(200));
    }
    let late = turns(&mut store, &mut plain, &mut dice, alloc, 200, 300, true)?;
    if late.is_some() {
        return Ok(late);
    }
    if !end(&mut store, &mut plain, 0) {
        return Ok(Some(300));
    }
    values(&mut store, &mut plain, alloc)
}
