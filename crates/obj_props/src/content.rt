ghost use Rattle.std.specs.Prelude.{◌≡◌, IfOk};
ghost use Rattle.oref_table.specs.declared.slot.Slot.TheViews.{out-Slot};
ghost use Rattle.schema_kinds.specs.Classes.{class_of, props_of as props_in};
ghost use Rattle.obj_props.specs.declared.content.Content.TheVariants.{Part};
ghost use Rattle.obj_shape.specs.Slots.{empty_slots as all_empty};
ghost use Rattle.obj_props.specs.Properties.{element_content as content_of_element, key_of as key_for, kind_content as content_of_kind, part_content as content_of_part, prop_place as place_for, reference_content as content_of_reference, value_of as value_for};

use crate::copies::copy_slots;
use obj_kinds::{ClassName, Id, NoMemory, Text, Value};
use obj_shape::{empty_slots, props_of};
use oref_table::{Oref, Slot, Slots};
use schema_kinds::{Item, Key, Kind, Prop, Schema};
use std::alloc::Global;

/// What a slot or an element holds, as a read of it needs it.
#[derive(Drop)]
pub enum Content {
    Value(Value),
    Object(Oref),
    /// An id that isn't opened, by its key, and the declared class.
    Stored(Key, ClassName),
    /// A part that has no object yet, by its class and its slots.
    Part(ClassName, Slots),
    Collection,
}

/// The place of the property of that name.
pub fn prop_place(props: &[Prop], name: &[u8]) -> Option<usize>
    ensures { result ≡ place_for name.now props.now }
{
    props.iter().position(|prop| prop.name.as_slice() == name)
}

fn value_of(alloc: Global, slot: &Slot) -> Result<Value, NoMemory>
    ensures { IfOk result (λ value. value ≡ value_for (out-Slot slot.now)) }
{
    match slot {
        Slot::Plain(value) => value.copy(alloc),
        Slot::Target(_) => Ok(Value::Str(Text::new(alloc))),
        Slot::To(_) => Ok(Value::Str(Text::new(alloc))),
        Slot::Items(_) => Ok(Value::Str(Text::new(alloc))),
        Slot::Map(_) => Ok(Value::Str(Text::new(alloc))),
        Slot::Members(_) => Ok(Value::Str(Text::new(alloc))),
    }
}

fn key_of(alloc: Global, schema: &Schema, class: &ClassName, id: Id) -> Result<Key, NoMemory>
    ensures { IfOk result (λ key. key ≡ key_for schema.now class.now id) }
{
    let extent = match schema.extent(class) {
        Some(extent) => extent.copy(alloc)?,
        None => class.copy(alloc)?,
    };
    Ok(Key { extent, id })
}

fn reference_content(
    alloc: Global,
    schema: &Schema,
    class: &ClassName,
    slot: &Slot,
) -> Result<Content, NoMemory>
    ensures { IfOk result (λ content. content ≡ content_of_reference schema.now class.now (out-Slot slot.now)) }
{
    match slot {
        Slot::To(oref) => Ok(Content::Object(*oref)),
        Slot::Target(Some(id)) => {
            let key = key_of(alloc, schema, class, *id)?;
            Ok(Content::Stored(key, class.copy(alloc)?))
        }
        Slot::Target(None) => Ok(Content::Value(Value::Str(Text::new(alloc)))),
        Slot::Plain(_) => Ok(Content::Value(Value::Str(Text::new(alloc)))),
        Slot::Items(_) => Ok(Content::Value(Value::Str(Text::new(alloc)))),
        Slot::Map(_) => Ok(Content::Value(Value::Str(Text::new(alloc)))),
        Slot::Members(_) => Ok(Content::Value(Value::Str(Text::new(alloc)))),
    }
}

fn empty_part(alloc: Global, schema: &Schema, class: &ClassName) -> Result<Content, NoMemory>
    ensures { IfOk result (λ content. content ≡ Part class.now (all_empty (props_in (class_of schema.now class.now)))) }
{
    let slots = empty_slots(alloc, props_of(schema, class))?;
    Ok(Content::Part(class.copy(alloc)?, slots))
}

fn part_content(
    alloc: Global,
    schema: &Schema,
    class: &ClassName,
    slot: &Slot,
) -> Result<Content, NoMemory>
    ensures { IfOk result (λ content. content ≡ content_of_part schema.now class.now (out-Slot slot.now)) }
{
    match slot {
        Slot::To(oref) => Ok(Content::Object(*oref)),
        Slot::Items(slots) => {
            let slots = copy_slots(alloc, slots.as_slice())?;
            Ok(Content::Part(class.copy(alloc)?, slots))
        }
        Slot::Plain(_) => empty_part(alloc, schema, class),
        Slot::Target(_) => empty_part(alloc, schema, class),
        Slot::Map(_) => empty_part(alloc, schema, class),
        Slot::Members(_) => empty_part(alloc, schema, class),
    }
}

/// What an element holds. It fails only for want of memory.
pub fn element_content(
    alloc: Global,
    schema: &Schema,
    item: &Item,
    slot: &Slot,
) -> Result<Content, NoMemory>
    ensures { IfOk result (λ content. content ≡ content_of_element schema.now item.now (out-Slot slot.now)) }
{
    match item {
        Item::Text => Ok(Content::Value(value_of(alloc, slot)?)),
        Item::Whole => Ok(Content::Value(value_of(alloc, slot)?)),
        Item::Truth => Ok(Content::Value(value_of(alloc, slot)?)),
        Item::Ref(class) => reference_content(alloc, schema, class, slot),
        Item::Serial(class) => part_content(alloc, schema, class, slot),
    }
}

/// What a property of the kind holds. It fails only for want of memory.
pub fn kind_content(
    alloc: Global,
    schema: &Schema,
    kind: &Kind,
    slot: &Slot,
) -> Result<Content, NoMemory>
    ensures { IfOk result (λ content. content ≡ content_of_kind schema.now kind.now (out-Slot slot.now)) }
{
    match kind {
        Kind::Text => Ok(Content::Value(value_of(alloc, slot)?)),
        Kind::Whole => Ok(Content::Value(value_of(alloc, slot)?)),
        Kind::Truth => Ok(Content::Value(value_of(alloc, slot)?)),
        Kind::Ref(class) => reference_content(alloc, schema, class, slot),
        Kind::Serial(class) => part_content(alloc, schema, class, slot),
        Kind::ListOf(_) => Ok(Content::Collection),
        Kind::ArrayOf(_) => Ok(Content::Collection),
        Kind::Many(_, _) => Ok(Content::Collection),
        Kind::One(class, _) => reference_content(alloc, schema, class, slot),
    }
}
