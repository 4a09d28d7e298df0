use obj_kinds::{NoMemory, Sub, Text};
use schema_kinds::{Field, FieldPairs, Fields};
use sqlite_items::Items;
use std::alloc::Global;

/// What a generated object has many of.
#[derive(Clone, Copy, Debug, PartialEq, Eq)]
pub enum Shape {
    /// Text properties, each third one with an index, 50 at most.
    Props,
    /// Elements of one array of texts.
    Keys,
}

impl Shape {
    /// The most that an object may have of it: a class has 200 properties at most.
    pub fn most(self) -> u32 {
        match self {
            Shape::Props => 200,
            Shape::Keys => 1_000_000,
        }
    }
}

fn put(text: &mut Vec<u8>, bytes: &[u8]) -> Result<(), NoMemory> {
    text.extend_from_slice(bytes)?;
    Ok(())
}

// A letter and a number written in letters: three of them.
fn put_name(text: &mut Vec<u8>, letter: u8, number: u32) -> Result<(), NoMemory> {
    text.push(letter)?;
    text.push(b'a' + ((number / 676) % 26) as u8)?;
    text.push(b'a' + ((number / 26) % 26) as u8)?;
    text.push(b'a' + (number % 26) as u8)?;
    Ok(())
}

fn put_prop(text: &mut Vec<u8>, number: u32) -> Result<(), NoMemory> {
    put(text, b"Property ")?;
    put_name(text, b'P', number)?;
    put(text, b" As %String;\n")
}

fn put_index(text: &mut Vec<u8>, number: u32) -> Result<(), NoMemory> {
    put(text, b"Index ")?;
    put_name(text, b'I', number)?;
    put(text, b" On ")?;
    put_name(text, b'P', number)?;
    put(text, b";\n")
}

fn put_props(text: &mut Vec<u8>, parts: u32) -> Result<(), NoMemory> {
    for number in 0..parts {
        put_prop(text, number)?;
        if number % 3 == 0 && number < 150 {
            put_index(text, number)?;
        }
    }
    Ok(())
}

/// The text of the class, `Bench.Thing`, of objects with so many parts.
pub fn draft(alloc: Global, shape: Shape, parts: u32) -> Result<Vec<u8>, NoMemory> {
    let mut text = Vec::new(alloc);
    put(&mut text, b"Class Bench.Thing Extends %Persistent\n{\n")?;
    match shape {
        Shape::Props => put_props(&mut text, parts)?,
        Shape::Keys => put(&mut text, b"Property Notes As array Of %String;\n")?,
    }
    put(&mut text, b"}\n")?;
    Ok(text)
}

// A text that tells the number and begins with the letter.
fn plain(alloc: Global, letter: u8, number: u32) -> Result<Field, NoMemory> {
    let mut text = Vec::new(alloc);
    put_name(&mut text, letter, number)?;
    Ok(Field::Plain(Text::from_slice(alloc, text.as_slice())?))
}

// The letter of a part: every second one has another where the object was changed.
fn letter_of(number: u32, is_changed: bool) -> u8 {
    if is_changed && number % 2 == 1 {
        b'w'
    } else {
        b'v'
    }
}

fn plains(alloc: Global, parts: u32, is_changed: bool) -> Result<Fields, NoMemory> {
    let mut fields = Items::new(alloc);
    for number in 0..parts {
        fields.push(plain(alloc, letter_of(number, is_changed), number)?)?;
    }
    Ok(fields)
}

// The elements under the numbers from 0 on; each fifth one is missing where the object was changed.
fn pairs(alloc: Global, parts: u32, is_changed: bool) -> Result<FieldPairs, NoMemory> {
    let mut pairs = Items::new(alloc);
    for number in 0..parts {
        if !is_changed || number % 5 != 4 {
            let field = plain(alloc, letter_of(number, is_changed), number)?;
            pairs.push((Sub::Num(i64::from(number)), field))?;
        }
    }
    Ok(pairs)
}

/// The fields of an object with so many parts, before it was changed or behind that.
pub fn fields(
    alloc: Global,
    shape: Shape,
    parts: u32,
    is_changed: bool,
) -> Result<Fields, NoMemory> {
    match shape {
        Shape::Props => plains(alloc, parts, is_changed),
        Shape::Keys => {
            let mut fields = Items::new(alloc);
            fields.push(Field::Map(pairs(alloc, parts, is_changed)?))?;
            Ok(fields)
        }
    }
}
