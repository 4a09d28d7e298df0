use crate::ask::{Ask, PLACES, Want, way};
use crate::holds::{PlainHolds, covers};
use crate::levels::{Level, Values, begin, commit, note, set_value, undo, undo_all, value};
use obj_kinds::NoMemory;
use std::alloc::Global;

/// A store as plainly as can be: lists of values, of holds and of levels.
#[derive(Drop)]
pub struct Plain {
    alloc: Global,
    values: Values,
    holds: PlainHolds,
    levels: Vec<Vec<Level>>,
}

fn no_levels(alloc: Global, processes: u8) -> Result<Vec<Vec<Level>>, NoMemory> {
    let mut levels = Vec::new(alloc);
    for _ in 0..processes {
        levels.push(Vec::new(alloc))?;
    }
    Ok(levels)
}

fn no_values(alloc: Global) -> Result<Values, NoMemory> {
    let mut values = Vec::new(alloc);
    for _ in 0..PLACES {
        values.push(None)?;
    }
    Ok(values)
}

fn found(value: Option<i64>) -> Want {
    match value {
        Some(number) => Want::Found(number),
        None => Want::Absent,
    }
}

fn state(values: &Values, place: u8) -> Want {
    let own = u8::from(value(values, place).is_some());
    for lower in 0..PLACES {
        if lower != place && covers(place, lower) && value(values, lower).is_some() {
            return Want::State(own + 10);
        }
    }
    Want::State(own)
}

fn next(values: &Values, place: u8, after: i64) -> Want {
    for lower in 0..PLACES {
        let sub = way(lower).1;
        let below = lower != place && covers(place, lower) && (after == 0 || sub > after);
        if below && value(values, lower).is_some() {
            return Want::Next(sub);
        }
    }
    Want::NoNext
}

fn kill(levels: &mut Vec<Level>, values: &mut Values, place: u8) -> Result<Want, NoMemory> {
    for lower in 0..PLACES {
        let before = value(values, lower);
        if covers(place, lower) && before.is_some() {
            note(levels, lower, before)?;
            set_value(values, lower, None);
        }
    }
    Ok(Want::Done)
}

fn increment(values: &mut Values, place: u8, step: i64) -> Want {
    let before = match value(values, place) {
        Some(number) => number,
        None => 0,
    };
    let sum = before.wrapping_add(step);
    set_value(values, place, Some(sum));
    Want::Number(sum)
}

/// What a level's end answers, and whether the outermost one ended.
fn left(was_open: bool, levels: &Vec<Level>) -> Want {
    if was_open {
        Want::Number(levels.len() as i64)
    } else {
        Want::NoTran
    }
}

/// What an operation on values or levels answers; none where it is one of locks.
fn turn(
    alloc: Global,
    values: &mut Values,
    levels: &mut Vec<Level>,
    ask: Ask,
) -> Result<Want, NoMemory> {
    match ask {
        Ask::Get(place) => Ok(found(value(values, place))),
        Ask::Defined(place) => Ok(state(values, place)),
        Ask::Order(place, after) => Ok(next(values, place, after)),
        Ask::Set(place, number) => {
            note(levels, place, value(values, place))?;
            set_value(values, place, Some(number));
            Ok(Want::Done)
        }
        Ask::Kill(place) => kill(levels, values, place),
        Ask::Incr(place, step) => Ok(increment(values, place, step)),
        Ask::Begin => {
            begin(alloc, levels)?;
            Ok(left(true, levels))
        }
        Ask::Commit => {
            let was_open = commit(levels)?;
            Ok(left(was_open, levels))
        }
        Ask::RollbackOne => {
            let was_open = undo(levels, values);
            Ok(left(was_open, levels))
        }
        _ => {
            undo_all(levels, values);
            Ok(Want::Done)
        }
    }
}

fn locked(holds: &mut PlainHolds, process: u8, ask: Ask, open: bool) -> Option<Want> {
    match ask {
        Ask::Lock(place, mode, owner, keep) => Some(holds.ask(process, place, mode, owner, keep)),
        Ask::Unlock(place, mode, owner) => Some(holds.release(process, place, mode, owner, open)),
        Ask::UnlockAll(owner) => Some(holds.release_all(process, owner, open)),
        _ => None,
    }
}

impl Plain {
    /// A store without nodes, of so many processes, which are numbered from 0.
    pub fn new(alloc: Global, processes: u8) -> Result<Plain, NoMemory> {
        Ok(Plain {
            alloc,
            values: no_values(alloc)?,
            holds: PlainHolds::new(alloc, processes)?,
            levels: no_levels(alloc, processes)?,
        })
    }

    /// Carries the operation out and answers what the store is to reply, or none where there is no
    /// such process.
    pub fn answer(&mut self, process: u8, ask: Ask) -> Result<Option<Want>, NoMemory> {
        let levels = match self.levels.get_mut(usize::from(process)) {
            Some(levels) => levels,
            None => return Ok(None),
        };
        let was_open = !levels.is_empty();
        if let Some(want) = locked(&mut self.holds, process, ask, was_open) {
            return Ok(Some(want));
        }
        let want = turn(self.alloc, &mut self.values, levels, ask)?;
        if was_open && levels.is_empty() {
            self.holds.end_tran(process);
        }
        Ok(Some(want))
    }

    /// Ends a process.
    pub fn end(&mut self, process: u8) {
        if let Some(levels) = self.levels.get_mut(usize::from(process)) {
            undo_all(levels, &mut self.values);
        }
        self.holds.drop_all(process);
    }
}
