ghost use Rattle.std.specs.Prelude.{◌≤◌};

use obj_kinds::NoMemory;
use std::alloc::Global;

/// How the generated classes hang together.
#[derive(Clone, Copy, Debug, PartialEq, Eq)]
pub enum Shape {
    /// Each class is a root, with references to the next one.
    Flat,
    /// Chains of ten classes, each with a tenth of the properties, and with indexes.
    Heirs,
    /// All classes are in one extent, and two and two they have sides that answer each other.
    Sides,
}

fn put(text: &mut Vec<u8>, bytes: &[u8]) -> Result<(), NoMemory> {
    text.extend_from_slice(bytes)?;
    Ok(())
}

// A letter and a number written in letters: three of them.
fn put_name(text: &mut Vec<u8>, letter: u8, number: u32) -> Result<(), NoMemory> {
    text.push(letter)?;
    text.push(b'a' + ((number / 676) % 26) as u8)?;
    text.push(b'a' + ((number / 26) % 26) as u8)?;
    text.push(b'a' + (number % 26) as u8)?;
    Ok(())
}

fn put_class(text: &mut Vec<u8>, number: u32) -> Result<(), NoMemory> {
    put(text, b"Bench.")?;
    put_name(text, b'C', number)
}

fn put_prop(text: &mut Vec<u8>, number: u32, next: u32) -> Result<(), NoMemory> {
    put(text, b"Property ")?;
    put_name(text, b'P', number)?;
    match number % 4 {
        0 => put(text, b" As ")?,
        1 => put(text, b" As %Integer(MINVAL = 0);\n")?,
        2 => put(text, b" As list Of %String;\n")?,
        _ => put(text, b" As %String(MAXLEN = 80) [ Required ];\n")?,
    }
    if number % 4 == 0 {
        put_class(text, next)?;
        put(text, b";\n")?;
    }
    Ok(())
}

fn put_flat(text: &mut Vec<u8>, class: u32, next: u32, members: u32) -> Result<(), NoMemory> {
    put(text, b"Class ")?;
    put_class(text, class)?;
    put(text, b" Extends %Persistent\n{\n")?;
    for member in 0..members {
        put_prop(text, member, next)?;
    }
    put(text, b"}\n")
}

fn put_index(text: &mut Vec<u8>, number: u32, prop: u32) -> Result<(), NoMemory> {
    put(text, b"Index ")?;
    put_name(text, b'I', number)?;
    put(text, b" On ")?;
    put_name(text, b'P', prop)?;
    put(text, b";\n")
}

fn put_heir(text: &mut Vec<u8>, class: u32, next: u32, members: u32) -> Result<(), NoMemory>
    requires { members ≤ 2000 }
{
    let step = class % 10;
    let tenth = members / 10;
    put(text, b"Class ")?;
    put_class(text, class)?;
    put(text, b" Extends ")?;
    if step > 0 && class > 0 {
        put_class(text, class - 1)?;
    } else {
        put(text, b"%Persistent")?;
    }
    put(text, b"\n{\n")?;
    for member in 0..tenth {
        let number = step * tenth + member;
        put_prop(text, number, next)?;
        if number % 4 == 1 {
            put_index(text, number, number)?;
        }
    }
    put(text, b"}\n")
}

fn put_side(
    text: &mut Vec<u8>,
    class: u32,
    other: u32,
    is_one: bool,
    member: u32,
) -> Result<(), NoMemory> {
    put(text, b"Relationship ")?;
    put_name(text, b'R', class)?;
    put_name(text, b'P', member)?;
    put(text, b" As ")?;
    put_class(text, other)?;
    put(text, b" [ Cardinality = ")?;
    put(
        text,
        if is_one {
            b"one".as_slice()
        } else {
            b"many".as_slice()
        },
    )?;
    put(text, b", Inverse = ")?;
    put_name(text, b'R', other)?;
    put_name(text, b'P', member)?;
    put(text, b" ];\n")
}

// The first class is the root; behind it each two classes answer each other.
fn put_sides(text: &mut Vec<u8>, class: u32, classes: u32, members: u32) -> Result<(), NoMemory> {
    put(text, b"Class ")?;
    put_class(text, class)?;
    put(text, b" Extends ")?;
    if class == 0 {
        put(text, b"%Persistent\n{\n}\n")?;
        return Ok(());
    }
    put(text, b"Bench.Caaa\n{\n")?;
    let place = class - 1;
    let other = (place ^ 1).saturating_add(1);
    if other < classes {
        for member in 0..members {
            put_side(text, class, other, place % 2 == 1, member)?;
        }
    }
    put(text, b"}\n")
}

/// The text of so many classes of this shape with so many members, at most 17,575 classes and 2,000 members.
pub fn draft(alloc: Global, shape: Shape, classes: u32, members: u32) -> Result<Vec<u8>, NoMemory> {
    let mut text = Vec::new(alloc);
    if classes > 17_575 || members > 2_000 {
        return Ok(text);
    }
    for class in 0..classes {
        let next = if class + 1 == classes { 0 } else { class + 1 };
        match shape {
            Shape::Flat => put_flat(&mut text, class, next, members)?,
            Shape::Heirs => put_heir(&mut text, class, next, members)?,
            Shape::Sides => put_sides(&mut text, class, classes, members)?,
        }
    }
    Ok(text)
}
