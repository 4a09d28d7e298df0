ghost use Rattle.std.specs.Prelude.{◌≡◌, ◌++◌, IfOk, OnOk, Some, map, option_map, option_to_list};
ghost use Rattle.oref_table.specs.Memory.{IsLive, object_of};
ghost use Rattle.oref_table.specs.declared.slot.Slot.TheViews.{out-Slot};
ghost use Rattle.record_layout.specs.Shapes.{form_of};
ghost use Rattle.schema_kinds.specs.declared.record.Field.TheVariants.{Plain};
ghost use Rattle.obj_shape.specs.Records.{element_field as field_of_element, field_by, fields_by, id_at, id_part, part_fields, part_slots, part_with, record_at, target_of, text_of};

use crate::classes::props_of;
use crate::contents::{part_in, slot_items, slot_pairs, slot_text};
use obj_kinds::{ClassName, Id, NoMemory, Sub, Text};
use oref_table::{Oref, Slot, Table};
use schema_kinds::{Field, FieldPairs, Fields, Item, Kind, Prop, Record, Schema};
use sqlite_items::Items;
use std::alloc::Global;
use std::collections::BTreeMap;

/// Ids that were drawn for objects that don't have them yet, by the numbers of the objects.
pub type DrawnIds = BTreeMap<u64, Id>;

/// What a record is read from.
#[derive(Clone, Copy)]
pub struct RecordSource<'a> {
    pub table: &'a Table,
    pub schema: &'a Schema,
    /// The ids that are to stand for some objects in place of their own.
    pub drawn: &'a DrawnIds,
}

/// How deep serial parts nest at most.
pub const PART_DEPTH: usize = 4;

fn plain_field(alloc: Global, slot: &Slot) -> Result<Field, NoMemory>
    ensures { IfOk result (λ field. field ≡ Plain (text_of (out-Slot slot.now))) }
{
    Ok(Field::Plain(Text::from_slice(alloc, slot_text(slot))?))
}

#[tactic(auto, using(crate::proofs::KeptLaws::id_kept, crate::proofs::KeptLaws::no_id))]
fn own_id(table: &Table, oref: Oref) -> Option<Id>
    ensures { result ≡ id_part (object_of oref.0 table.now.objects) }
{
    match table.get(oref) {
        Some(obj) => obj.id,
        None => None,
    }
}

fn id_of(from: &RecordSource<'_>, oref: Oref) -> Option<Id>
    ensures { result ≡ id_at from.now.table.now from.now.drawn.now.entries oref.0 }
{
    match from.drawn.get(&oref.0) {
        Some(id) => Some(*id),
        None => own_id(from.table, oref),
    }
}

fn target_in(from: &RecordSource<'_>, slot: &Slot) -> Option<Id>
    ensures { result ≡ target_of from.now.table.now from.now.drawn.now.entries (out-Slot slot.now) }
{
    match slot {
        Slot::Plain(_) => None,
        Slot::Target(id) => *id,
        Slot::To(oref) => id_of(from, *oref),
        Slot::Items(_) => None,
        Slot::Map(_) => None,
        Slot::Members(_) => None,
    }
}

#[cycle(record)]
fn part_fields_of(
    alloc: Global,
    from: &RecordSource<'_>,
    depth: usize,
    class: &ClassName,
    slots: &[Slot],
) -> Result<Option<Fields>, NoMemory>
    ensures { IfOk result (λ part. part ≡ part_fields depth from.now.schema.now from.now.table.now from.now.drawn.now.entries class.now slots.now) }
{
    if depth == 0 {
        return Ok(None);
    }
    let props = props_of(from.schema, class);
    Ok(Some(fields_of(alloc, from, depth - 1, props, slots)?))
}

#[cycle(record)]
fn part_field(
    alloc: Global,
    from: &RecordSource<'_>,
    depth: usize,
    class: &ClassName,
    slot: &Slot,
) -> Result<Option<Fields>, NoMemory>
    ensures { IfOk result (λ part. part ≡ part_with (part_fields depth from.now.schema.now from.now.table.now from.now.drawn.now.entries class.now) (part_slots from.now.table.now (out-Slot slot.now))) }
{
    match part_in(from.table, slot) {
        None => Ok(None),
        Some(slots) => part_fields_of(alloc, from, depth, class, slots),
    }
}

#[cycle(record)]
fn element_field(
    alloc: Global,
    from: &RecordSource<'_>,
    depth: usize,
    item: &Item,
    slot: &Slot,
) -> Result<Field, NoMemory>
    ensures { IfOk result (λ field. field ≡ field_of_element from.now.table.now from.now.drawn.now.entries (part_fields depth from.now.schema.now from.now.table.now from.now.drawn.now.entries) item.now (out-Slot slot.now)) }
{
    match item {
        Item::Text => plain_field(alloc, slot),
        Item::Whole => plain_field(alloc, slot),
        Item::Truth => plain_field(alloc, slot),
        Item::Ref(_) => Ok(Field::Target(target_in(from, slot))),
        Item::Serial(class) => Ok(Field::Part(part_field(alloc, from, depth, class, slot)?)),
    }
}

#[cycle(record)]
fn list_fields(
    alloc: Global,
    from: &RecordSource<'_>,
    depth: usize,
    item: &Item,
    slots: &[Slot],
) -> Result<Fields, NoMemory>
    ensures { IfOk result (λ fields. fields ≡ map (λ t. field_of_element from.now.table.now from.now.drawn.now.entries (part_fields depth from.now.schema.now from.now.table.now from.now.drawn.now.entries) item.now (out-Slot t)) slots.now) }
{
    let mut fields = Items::new(alloc);
    for slot in slots {
        fields.push(element_field(alloc, from, depth, item, slot)?)?;
    }
    Ok(fields)
}

#[cycle(record)]
fn array_fields(
    alloc: Global,
    from: &RecordSource<'_>,
    depth: usize,
    item: &Item,
    pairs: &[(Sub, Slot)],
) -> Result<FieldPairs, NoMemory>
    ensures { IfOk result (λ fields. fields ≡ map (λ p. (p.0, field_of_element from.now.table.now from.now.drawn.now.entries (part_fields depth from.now.schema.now from.now.table.now from.now.drawn.now.entries) item.now (out-Slot p.1))) pairs.now) }
{
    let mut fields = Items::new(alloc);
    for pair in pairs {
        let key = pair.0.copy(alloc)?;
        let field = element_field(alloc, from, depth, item, &pair.1)?;
        fields.push((key, field))?;
    }
    Ok(fields)
}

// The field of a property; a many side has none.
#[cycle(record)]
fn field_of(
    alloc: Global,
    from: &RecordSource<'_>,
    depth: usize,
    kind: &Kind,
    slot: &Slot,
) -> Result<Option<Field>, NoMemory>
    ensures { IfOk result (λ field. field ≡ option_map (λ form. field_by from.now.table.now from.now.drawn.now.entries (part_fields depth from.now.schema.now from.now.table.now from.now.drawn.now.entries) form (out-Slot slot.now)) (form_of kind.now)) }
{
    match kind {
        Kind::Text => Ok(Some(plain_field(alloc, slot)?)),
        Kind::Whole => Ok(Some(plain_field(alloc, slot)?)),
        Kind::Truth => Ok(Some(plain_field(alloc, slot)?)),
        Kind::Ref(_) => Ok(Some(Field::Target(target_in(from, slot)))),
        Kind::Serial(class) => Ok(Some(Field::Part(part_field(alloc, from, depth, class, slot)?))),
        Kind::ListOf(item) => Ok(Some(Field::List(list_fields(
            alloc,
            from,
            depth,
            item,
            slot_items(slot),
        )?))),
        Kind::ArrayOf(item) => Ok(Some(Field::Map(array_fields(
            alloc,
            from,
            depth,
            item,
            slot_pairs(slot),
        )?))),
        Kind::Many(_, _) => Ok(None),
        Kind::One(_, _) => Ok(Some(Field::Target(target_in(from, slot)))),
    }
}

fn push_some(fields: &mut Fields, field: Option<Field>) -> Result<(), NoMemory>
    ensures { OnOk result (fields.new ≡ fields.old ++ option_to_list field) }
{
    if let Some(field) = field {
        fields.push(field)?;
    }
    Ok(())
}

#[cycle(record)]
fn fields_of(
    alloc: Global,
    from: &RecordSource<'_>,
    depth: usize,
    props: &[Prop],
    slots: &[Slot],
) -> Result<Fields, NoMemory>
    ensures { IfOk result (λ fields. fields ≡ fields_by from.now.table.now from.now.drawn.now.entries (part_fields depth from.now.schema.now from.now.table.now from.now.drawn.now.entries) props.now slots.now) }
{
    let mut fields = Items::new(alloc);
    let mut rest = slots;
    for prop in props {
        let Some((slot, more)) = rest.split_first() else {
            return Ok(fields);
        };
        push_some(&mut fields, field_of(alloc, from, depth, &prop.kind, slot)?)?;
        rest = more;
    }
    Ok(fields)
}

/// The record of a live object: its class, and one field for each property that isn't a many side. An OREF is the id of
/// its object, the drawn one where there is one, or none; a part is its fields. It fails only for want of memory.
#[tactic(auto, using(crate::proofs::RecordLaws::record_told))]
pub fn record_of(alloc: Global, from: &RecordSource<'_>, oref: Oref) -> Result<Record, NoMemory>
    requires { IsLive from.now.table.now oref.0 }
    ensures { IfOk result (λ record_. record_at from.now.schema.now from.now.table.now from.now.drawn.now.entries oref.0 ≡ Some record_) }
{
    let obj = from.table.get(oref).unwrap();
    let class = obj.class.copy(alloc)?;
    let props = props_of(from.schema, &obj.class);
    let fields = fields_of(alloc, from, PART_DEPTH, props, obj.slots.as_slice())?;
    Ok(Record { class, fields })
}
