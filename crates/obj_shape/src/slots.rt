ghost use Rattle.std.specs.Prelude.{◌≡◌, ◌++◌, IfOk, List, map};
ghost use Rattle.obj_kinds.specs.declared.value.Value.TheVariants.{Str};
ghost use Rattle.oref_table.specs.declared.slot.Slot.TheVariants.{Plain};
ghost use Rattle.obj_shape.specs.Slots.{empty_slots as all_empty, fields_left, initial_slots as all_initial, next_slot as slot_next, slot_of as slot_for, slot_with as slot_for_kind, slots_of as slots_for};

use item_rows::Rows;
use obj_kinds::{NoMemory, Sub, Text, Value};
use oref_table::{Slot, SlotPairs, Slots};
use schema_kinds::{Field, Kind, Prop};
use std::alloc::Global;

fn plain_slot(alloc: Global, text: &[u8]) -> Result<Slot, NoMemory>
    ensures { IfOk result (λ slot. slot ≡ Plain (Str text.now)) }
{
    Ok(Slot::Plain(Value::Str(Text::from_slice(alloc, text)?)))
}

// The slot of a property that holds nothing; a value has the text.
fn slot_with(alloc: Global, text: &[u8], kind: &Kind) -> Result<Slot, NoMemory>
    ensures { IfOk result (λ slot. slot ≡ slot_for_kind text.now kind.now) }
{
    match kind {
        Kind::Text => plain_slot(alloc, text),
        Kind::Whole => plain_slot(alloc, text),
        Kind::Truth => plain_slot(alloc, text),
        Kind::Ref(_) => Ok(Slot::Target(None)),
        Kind::Serial(_) => Ok(Slot::Target(None)),
        Kind::ListOf(_) => Ok(Slot::Items(Rows::new(alloc))),
        Kind::ArrayOf(_) => Ok(Slot::Map(Rows::new(alloc))),
        Kind::Many(_, _) => Ok(Slot::Members(Rows::new(alloc))),
        Kind::One(_, _) => Ok(Slot::Target(None)),
    }
}

/// The slots of a new object with these properties: its values are the initial ones, and all else is empty. It fails
/// only for want of memory.
pub fn initial_slots(alloc: Global, props: &[Prop]) -> Result<Slots, NoMemory>
    ensures { IfOk result (λ slots. slots ≡ all_initial props.now) }
{
    let mut slots = Rows::new(alloc);
    for prop in props {
        slots.push(slot_with(alloc, prop.initial.as_slice(), &prop.kind)?)?;
    }
    Ok(slots)
}

/// The slots of a part with these properties that was read where there was none: all of it is empty. It fails only for
/// want of memory.
pub fn empty_slots(alloc: Global, props: &[Prop]) -> Result<Slots, NoMemory>
    ensures { IfOk result (λ slots. slots ≡ all_empty props.now) }
{
    let mut slots = Rows::new(alloc);
    for prop in props {
        slots.push(slot_with(alloc, &[], &prop.kind)?)?;
    }
    Ok(slots)
}

// What stands where the field was read.
#[cycle(slot)]
fn slot_of(alloc: Global, field: &Field) -> Result<Slot, NoMemory>
    ensures { IfOk result (λ slot. slot ≡ slot_for field.now) }
{
    match field {
        Field::Plain(text) => plain_slot(alloc, text.as_slice()),
        Field::Target(id) => Ok(Slot::Target(*id)),
        Field::Part(None) => Ok(Slot::Target(None)),
        Field::Part(Some(fields)) => Ok(Slot::Items(list_slots(alloc, fields.as_slice())?)),
        Field::List(fields) => Ok(Slot::Items(list_slots(alloc, fields.as_slice())?)),
        Field::Map(pairs) => Ok(Slot::Map(array_slots(alloc, pairs.as_slice())?)),
    }
}

#[cycle(slot)]
fn list_slots(alloc: Global, fields: &[Field]) -> Result<Slots, NoMemory>
    ensures { IfOk result (λ slots. slots ≡ map slot_for fields.now) }
{
    let mut slots = Rows::new(alloc);
    for field in fields {
        slots.push(slot_of(alloc, field)?)?;
    }
    Ok(slots)
}

#[cycle(slot)]
fn array_slots(alloc: Global, pairs: &[(Sub, Field)]) -> Result<SlotPairs, NoMemory>
    ensures { IfOk result (λ slots. slots ≡ map (λ p. (p.0, slot_for p.1)) pairs.now) }
{
    let mut slots = Rows::new(alloc);
    for pair in pairs {
        let key = pair.0.copy(alloc)?;
        let slot = slot_of(alloc, &pair.1)?;
        slots.push((key, slot))?;
    }
    Ok(slots)
}

// The slot of the next property, and the fields of those behind it.
fn next_slot<'a>(
    alloc: Global,
    kind: &Kind,
    fields: &'a [Field],
) -> Result<(Slot, &'a [Field]), NoMemory>
    ensures slot { IfOk result (λ next. next.0 ≡ slot_next kind.now fields.now) }
    ensures left { IfOk result (λ next. next.1.now ≡ fields_left kind.now fields.now) }
{
    if let Kind::Many(_, _) = kind {
        return Ok((Slot::Members(Rows::new(alloc)), fields));
    }
    match fields.split_first() {
        None => Ok((slot_with(alloc, &[], kind)?, &[])),
        Some((field, more)) => Ok((slot_of(alloc, field)?, more)),
    }
}

/// The slots of an object that was read: one for each property, from the fields of its record; a part's fields stand in
/// its place without an object, a reference is its id, and a many side has no members yet. It fails only for want of
/// memory.
pub fn slots_of(alloc: Global, props: &[Prop], fields: &[Field]) -> Result<Slots, NoMemory>
    ensures { IfOk result (λ slots. slots ≡ slots_for props.now fields.now) }
{
    let mut slots = Rows::new(alloc);
    let mut rest = fields;
    for prop in props {
        let (slot, more) = next_slot(alloc, &prop.kind, rest)?;
        slots.push(slot)?;
        rest = more;
    }
    Ok(slots)
}
