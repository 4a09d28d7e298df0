use load_plan::{LoadCall, RaiseCall};
use obj_kinds::{ClassName, Id, NoMemory, Text};
use schema_kinds::{Key, Schema};
use std::alloc::Global;
use std::str::SplitWhitespace;

/// A call that is played, and how often its lock is refused.
#[derive(Drop)]
pub enum Call {
    Load(LoadCall, u32),
    Raise(RaiseCall, u32),
}

fn number(word: Option<&str>) -> Option<u32> {
    word?.parse::<u32>().ok()
}

fn level(word: Option<&str>) -> Option<u8> {
    word?.parse::<u8>().ok()
}

// The key of an id of the class.
fn key_of(
    alloc: Global,
    schema: &Schema,
    class: &ClassName,
    id: &str,
) -> Result<Option<Key>, NoMemory> {
    match (schema.extent(class), Id::from_text(id.as_bytes())) {
        (Some(extent), Some(id)) => Ok(Some(Key {
            extent: extent.copy(alloc)?,
            id,
        })),
        _ => Ok(None),
    }
}

// The class and the key of the next two words.
fn object(
    alloc: Global,
    schema: &Schema,
    words: &mut SplitWhitespace<'_>,
) -> Result<Option<(ClassName, Key)>, NoMemory> {
    let (Some(class), Some(id)) = (words.next(), words.next()) else {
        return Ok(None);
    };
    let class = ClassName(Text::from_slice(alloc, class.as_bytes())?);
    match key_of(alloc, schema, &class, id)? {
        Some(key) => Ok(Some((class, key))),
        None => Ok(None),
    }
}

fn load_of(object: (ClassName, Key), touch: bool, words: &mut SplitWhitespace<'_>) -> Option<Call> {
    let (class, key) = object;
    let level = level(words.next())?;
    let tries = number(words.next())?;
    let refusals = number(words.next())?;
    let load = LoadCall {
        key,
        class,
        level,
        tries,
        touch,
    };
    Some(Call::Load(load, refusals))
}

fn raise_of(key: Key, words: &mut SplitWhitespace<'_>) -> Option<Call> {
    let from = level(words.next())?;
    let to = level(words.next())?;
    let tries = number(words.next())?;
    let refusals = number(words.next())?;
    let raise = RaiseCall {
        key,
        from,
        to,
        tries,
    };
    Some(Call::Raise(raise, refusals))
}

/// The call of a line; none where it is none.
pub fn call_of(alloc: Global, schema: &Schema, line: &str) -> Result<Option<Call>, NoMemory> {
    let mut words = line.split_whitespace();
    let word = words.next();
    let Some(object) = object(alloc, schema, &mut words)? else {
        return Ok(None);
    };
    match word {
        Some("load") => Ok(load_of(object, false, &mut words)),
        Some("touch") => Ok(load_of(object, true, &mut words)),
        Some("raise") => Ok(raise_of(object.1, &mut words)),
        _ => Ok(None),
    }
}
