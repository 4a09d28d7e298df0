use obj_kinds::NoMemory;
use std::alloc::Global;

/// The values of all places.
pub type Values = Vec<Option<i64>>;

/// The places that a level has written, each with the value before.
pub type Level = Vec<(u8, Option<i64>)>;

pub fn value(values: &Values, place: u8) -> Option<i64> {
    match values.get(usize::from(place)) {
        Some(value) => *value,
        None => None,
    }
}

pub fn set_value(values: &mut Values, place: u8, value: Option<i64>) {
    if let Some(slot) = values.get_mut(usize::from(place)) {
        *slot = value;
    }
}

fn has(level: &Level, place: u8) -> bool {
    level.iter().any(|pair| pair.0 == place)
}

fn note_in(level: &mut Level, place: u8, before: Option<i64>) -> Result<(), NoMemory> {
    if !has(level, place) {
        level.push((place, before))?;
    }
    Ok(())
}

/// Keeps the value that a place had before it was written, in the top level.
pub fn note(levels: &mut Vec<Level>, place: u8, before: Option<i64>) -> Result<(), NoMemory> {
    match levels.last_mut() {
        Some(top) => note_in(top, place, before),
        None => Ok(()),
    }
}

pub fn begin(alloc: Global, levels: &mut Vec<Level>) -> Result<(), NoMemory> {
    levels.push(Vec::new(alloc))?;
    Ok(())
}

/// Ends the top level and keeps its writes; false where there is none.
pub fn commit(levels: &mut Vec<Level>) -> Result<bool, NoMemory> {
    match levels.pop() {
        None => Ok(false),
        Some(top) => {
            for pair in &top {
                note(levels, pair.0, pair.1)?;
            }
            Ok(true)
        }
    }
}

/// Undoes the top level; false where there is none.
pub fn undo(levels: &mut Vec<Level>, values: &mut Values) -> bool {
    match levels.pop() {
        None => false,
        Some(top) => {
            for pair in &top {
                set_value(values, pair.0, pair.1);
            }
            true
        }
    }
}

/// Undoes all levels, and tells whether there was one.
pub fn undo_all(levels: &mut Vec<Level>, values: &mut Values) -> bool {
    let mut any = false;
    for _ in 0..levels.len() {
        any = undo(levels, values) || any;
    }
    any
}
