ghost use Rattle.std.specs.Prelude.{◌≡◌, IfOk, IsTrue, ◌↔◌, map};
ghost use Rattle.std.specs.Ordering.{eq_by_cmp};
ghost use Rattle.obj_kinds.specs.SubOrder.{text_cmp, sub_cmp};
ghost use Rattle.schema_kinds.specs.SameFields.{same_target, each_same, each_pair_same, same_field, same_record};

use crate::key::Key;
use obj_kinds::{ClassName, Id, NoMemory, Sub, Text};
use sqlite_items::Items;
use std::alloc::Global;

/// What a record has of one property of its class; a many side has no field.
#[derive(Debug, Drop)]
pub enum Field {
    /// Of a text, a whole number or a truth value: its text.
    Plain(Text),
    /// Of a reference or a one side: the id of the target in the extent of the declared class, or nothing.
    Target(Option<Id>),
    /// Of a serial part: one field for each property of the serial class, or nothing.
    Part(Option<Fields>),
    /// Of a list: its elements by position.
    List(Fields),
    /// Of an array: its elements by key.
    Map(FieldPairs),
}

/// The fields of a record or of a part in the order of the properties, or the elements of a list.
pub type Fields = Items<Field>;

/// The elements of an array with their keys, in the order of subscripts, each key once.
pub type FieldPairs = Items<(Sub, Field)>;

/// What is stored of one object: its class, and one field for each property that isn't a many side, in order.
#[derive(Debug, Drop)]
pub struct Record {
    pub class: ClassName,
    pub fields: Fields,
}

/// One step of a change of the stored objects.
#[derive(Debug, Drop)]
pub enum Part {
    /// The object of the key has this record from now on, whether it had one before or not.
    Put(Key, Record),
    /// The key has no object from now on.
    Del(Key),
}

/// The steps of a change, the first one first.
pub type Change = Items<Part>;

fn same_targets(left: &Option<Id>, right: &Option<Id>) -> bool
    ensures { result ≡ same_target left.now right.now }
{
    match (left, right) {
        (None, None) => true,
        (Some(left), Some(right)) => *left == *right,
        _ => false,
    }
}

#[cycle(same_field)]
fn same_fields(left: &[Field], right: &[Field]) -> bool
    ensures { result ≡ each_same (map same_field left.now) right.now }
{
    if left.len() != right.len() {
        return false;
    }
    for (at, field) in left.iter().enumerate() {
        if !same_fields_at(field, &right[at]) {
            return false;
        }
    }
    true
}

#[cycle(same_field)]
fn same_pairs(left: &[(Sub, Field)], right: &[(Sub, Field)]) -> bool
    ensures { result ≡ each_pair_same (map (λ p. (p.0, same_field p.1)) left.now) right.now }
{
    if left.len() != right.len() {
        return false;
    }
    for (at, pair) in left.iter().enumerate() {
        let other = &right[at];
        if !(pair.0 == other.0 && same_fields_at(&pair.1, &other.1)) {
            return false;
        }
    }
    true
}

#[cycle(same_field)]
fn same_fields_at(left: &Field, right: &Field) -> bool
    ensures { result ≡ same_field left.now right.now }
{
    match (left, right) {
        (Field::Plain(left), Field::Plain(right)) => left.is_same(right),
        (Field::Target(left), Field::Target(right)) => same_targets(left, right),
        (Field::Part(None), Field::Part(None)) => true,
        (Field::Part(Some(left)), Field::Part(Some(right))) => {
            same_fields(left.as_slice(), right.as_slice())
        }
        (Field::List(left), Field::List(right)) => same_fields(left.as_slice(), right.as_slice()),
        (Field::Map(left), Field::Map(right)) => same_pairs(left.as_slice(), right.as_slice()),
        _ => false,
    }
}

impl Field {
    /// Whether both are the same.
    #[tactic(auto, using(crate::proofs::FieldLaws::field_is_same))]
    pub fn is_same(&self, other: &Field) -> bool
        ensures { IsTrue result ↔ (self.now ≡ other.now) }
    {
        same_fields_at(self, other)
    }

    /// The same again; it fails only for want of memory.
    #[cycle(field_copy)]
    pub fn copy(&self, alloc: Global) -> Result<Field, NoMemory>
        ensures { IfOk result (λ field. field ≡ self.now) }
    {
        match self {
            Field::Plain(text) => Ok(Field::Plain(text.copy(alloc)?)),
            Field::Target(id) => Ok(Field::Target(*id)),
            Field::Part(None) => Ok(Field::Part(None)),
            Field::Part(Some(fields)) => {
                Ok(Field::Part(Some(copy_fields(alloc, fields.as_slice())?)))
            }
            Field::List(fields) => Ok(Field::List(copy_fields(alloc, fields.as_slice())?)),
            Field::Map(pairs) => Ok(Field::Map(copy_field_pairs(alloc, pairs.as_slice())?)),
        }
    }
}

/// The same fields again; it fails only for want of memory.
#[cycle(field_copy)]
pub fn copy_fields(alloc: Global, fields: &[Field]) -> Result<Fields, NoMemory>
    ensures { IfOk result (λ copy. copy ≡ fields.now) }
{
    let mut copy = Items::new(alloc);
    for field in fields {
        copy.push(field.copy(alloc)?)?;
    }
    Ok(copy)
}

/// The same elements again; it fails only for want of memory.
#[cycle(field_copy)]
pub fn copy_field_pairs(alloc: Global, pairs: &[(Sub, Field)]) -> Result<FieldPairs, NoMemory>
    ensures { IfOk result (λ copy. copy ≡ pairs.now) }
{
    let mut copy = Items::new(alloc);
    for pair in pairs {
        let key = pair.0.copy(alloc)?;
        let field = pair.1.copy(alloc)?;
        copy.push((key, field))?;
    }
    Ok(copy)
}

/// The same change again; it fails only for want of memory.
pub fn copy_change(alloc: Global, parts: &[Part]) -> Result<Change, NoMemory>
    ensures { IfOk result (λ copy. copy ≡ parts.now) }
{
    let mut copy = Items::new(alloc);
    for part in parts {
        copy.push(part.copy(alloc)?)?;
    }
    Ok(copy)
}

fn same_records(left: &Record, right: &Record) -> bool
    ensures { result ≡ same_record left.now right.now }
{
    left.class == right.class && same_fields(left.fields.as_slice(), right.fields.as_slice())
}

impl Record {
    /// Whether both have the same class and the same fields.
    #[tactic(auto, using(crate::proofs::FieldLaws::record_is_same))]
    pub fn is_same(&self, other: &Record) -> bool
        ensures { IsTrue result ↔ (self.now ≡ other.now) }
    {
        same_records(self, other)
    }

    /// The same again; it fails only for want of memory.
    pub fn copy(&self, alloc: Global) -> Result<Record, NoMemory>
        ensures { IfOk result (λ copied. copied ≡ self.now) }
    {
        let class = self.class.copy(alloc)?;
        let fields = copy_fields(alloc, self.fields.as_slice())?;
        Ok(Record { class, fields })
    }
}

impl Part {
    /// The same again; it fails only for want of memory.
    pub fn copy(&self, alloc: Global) -> Result<Part, NoMemory>
        ensures { IfOk result (λ part. part ≡ self.now) }
    {
        match self {
            Part::Put(key, record) => {
                let key = key.copy(alloc)?;
                let record = record.copy(alloc)?;
                Ok(Part::Put(key, record))
            }
            Part::Del(key) => Ok(Part::Del(key.copy(alloc)?)),
        }
    }
}
