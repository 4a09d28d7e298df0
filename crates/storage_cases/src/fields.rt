use crate::cases::{Case, Told};
use crate::failure::Failure;
use obj_kinds::{ClassName, Id, Sub, Text};
use schema_kinds::{Field, FieldPairs, Fields, Key, Record};
use sqlite_items::Items;
use std::alloc::Global;

fn plain(alloc: Global, text: &[u8]) -> Result<Field, Failure> {
    Ok(Field::Plain(Text::from_slice(alloc, text)?))
}

fn letters(alloc: Global, count: usize) -> Result<Field, Failure> {
    let mut text = Text::new(alloc);
    for _ in 0..count {
        text.push(b'a')?;
    }
    Ok(Field::Plain(text))
}

fn plains(alloc: Global, texts: &[&[u8]]) -> Result<Fields, Failure> {
    let mut fields = Items::new(alloc);
    for text in texts {
        fields.push(plain(alloc, text)?)?;
    }
    Ok(fields)
}

fn part_in_part(alloc: Global, name: &[u8], inner: &[&[u8]]) -> Result<Field, Failure> {
    let mut fields = Items::new(alloc);
    fields.push(plain(alloc, name)?)?;
    fields.push(Field::Part(Some(plains(alloc, inner)?)))?;
    Ok(Field::Part(Some(fields)))
}

fn map(alloc: Global, told: &[(&[u8], &[u8])]) -> Result<FieldPairs, Failure> {
    let mut pairs = Items::new(alloc);
    for (key, text) in told {
        let key = Sub::from_text(alloc, key)?;
        pairs.push((key, plain(alloc, text)?))?;
    }
    Ok(pairs)
}

fn map_of_parts(alloc: Global, told: &[(&[u8], &[&[u8]])]) -> Result<FieldPairs, Failure> {
    let mut pairs = Items::new(alloc);
    for (key, texts) in told {
        let key = Sub::from_text(alloc, key)?;
        pairs.push((key, Field::Part(Some(plains(alloc, texts)?))))?;
    }
    Ok(pairs)
}

fn field(alloc: Global, told: &Told) -> Result<Field, Failure> {
    match told {
        Told::Text(text) => plain(alloc, text),
        Told::Letters(count) => letters(alloc, *count),
        Told::Target(id) => Ok(Field::Target(Id::from_numbers(&[*id]))),
        Told::NoTarget => Ok(Field::Target(None)),
        Told::NoPart => Ok(Field::Part(None)),
        Told::PartInPart(name, inner) => part_in_part(alloc, name, inner),
        Told::List(texts) => Ok(Field::List(plains(alloc, texts)?)),
        Told::Map(pairs) => Ok(Field::Map(map(alloc, pairs)?)),
        Told::MapOfParts(pairs) => Ok(Field::Map(map_of_parts(alloc, pairs)?)),
    }
}

/// The name of a class.
pub fn class_name(alloc: Global, name: &[u8]) -> Result<ClassName, Failure> {
    Ok(ClassName(Text::from_slice(alloc, name)?))
}

/// The key of a case.
pub fn key_of(alloc: Global, case: &Case) -> Result<Key, Failure> {
    let extent = class_name(alloc, case.extent)?;
    match Id::from_numbers(&[case.id]) {
        Some(id) => Ok(Key { extent, id }),
        None => Err(Failure::Cases),
    }
}

/// Its record.
pub fn record_of(alloc: Global, case: &Case) -> Result<Record, Failure> {
    let class = class_name(alloc, case.class)?;
    let mut fields = Items::new(alloc);
    for told in case.fields {
        fields.push(field(alloc, told)?)?;
    }
    Ok(Record { class, fields })
}
