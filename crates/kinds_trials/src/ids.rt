use crate::words::{number_in, split_blank};
use obj_kinds::{Id, NoMemory, Text};
use std::alloc::Global;
use std::cmp::Ordering;

fn id_text(alloc: Global, id: Option<Id>) -> Result<Text, NoMemory> {
    let Some(id) = id else {
        return Text::from_slice(alloc, b"none");
    };
    let count: &[u8] = match id.len() {
        1 => b"one number, ",
        2 => b"two numbers, ",
        _ => b"three numbers, ",
    };
    let mut text = Text::from_slice(alloc, count)?;
    text.push_slice(id.text(alloc)?.as_slice())?;
    Ok(text)
}

/// The id that a text is.
pub fn answer_id(alloc: Global, rest: &[u8]) -> Result<Text, NoMemory> {
    id_text(alloc, Id::from_text(rest))
}

/// The id of some numbers.
pub fn answer_numbers(alloc: Global, rest: &[u8]) -> Result<Text, NoMemory> {
    let mut numbers = Vec::new(alloc);
    let mut rest = rest;
    for _ in 0..rest.len() {
        if rest.is_empty() {
            break;
        }
        let (number, others) = split_blank(rest);
        numbers.push(number_in(number))?;
        rest = others;
    }
    id_text(alloc, Id::from_numbers(numbers.as_slice()))
}

/// How two ids stand to each other, and whether they are the same.
pub fn answer_order(alloc: Global, rest: &[u8]) -> Result<Text, NoMemory> {
    let (first, second) = split_blank(rest);
    let (Some(first), Some(second)) = (Id::from_text(first), Id::from_text(second)) else {
        return Text::from_slice(alloc, b"none");
    };
    let order: &[u8] = match first.compare(&second) {
        Ordering::Less => b"less",
        Ordering::Equal => b"equal",
        Ordering::Greater => b"greater",
    };
    let mut text = Text::from_slice(alloc, order)?;
    if first.is_same(&second) {
        text.push_slice(b", the same")?;
    }
    if first.part(1).is_some() {
        text.push_slice(b", has a second number")?;
    }
    Ok(text)
}
