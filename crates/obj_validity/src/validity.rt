ghost use Rattle.std.specs.Prelude.{◌≡◌, ◌≤◌, length};
ghost use Rattle.std.specs.Option.{option_copied};
ghost use Rattle.oref_table.specs.declared.slot.Slot.TheViews.{out-Slot};
ghost use Rattle.obj_kinds.specs.declared.value.Value.TheViews.{out-Value};
ghost use Rattle.record_layout.specs.Shapes.{form_of};
ghost use Rattle.schema_kinds.specs.Classes.{class_of};
ghost use Rattle.obj_shape.specs.Wholeness.{IsWhole};
ghost use Rattle.obj_shape.specs.Records.{pairs_of, part_slots, text_in};
ghost use Rattle.obj_validity.specs.Faults.{class_indexes, element_fault as fault_of_element, first_broken, first_fault, is_empty_text, is_indexed, is_unset as unset, kind_fault as fault_of_kind, lacks_kind, object_fault as fault_of_object, part_fault as fault_of_part, part_fault_in, place_fault as fault_of_places, prop_fault as fault_of_prop, props_fault as fault_of_props};

use crate::fault::Fault;
use crate::row::{Weighed, row_fits};
use crate::value::{text_fault, truth_fault, whole_fault};
use crate::weight::Objects;
use obj_kinds::{ClassName, Sub, Value, Why};
use obj_shape::{PART_DEPTH, part_in, props_of, slot_items, slot_pairs, slot_text};
use oref_table::{Obj, Oref, Slot, Table};
use schema_kinds::{Index, Item, Kind, Prop, Schema};

/// Where properties are looked at: the objects, and the indexes that may have them in their keys.
#[derive(Clone, Copy)]
struct Checked<'a> {
    of: Objects<'a>,
    indexes: &'a [Index],
}

fn is_unset_value(value: &Value) -> bool
    ensures { result ≡ is_empty_text (text_in (out-Value value.now)) }
{
    match value {
        Value::Str(text) => text.is_empty(),
        Value::List(_) => true,
    }
}

fn is_unset(slot: &Slot) -> bool
    ensures { result ≡ unset (out-Slot slot.now) }
{
    match slot {
        Slot::Plain(value) => is_unset_value(value),
        Slot::Target(id) => id.is_none(),
        Slot::To(_) => false,
        Slot::Items(_) => false,
        Slot::Map(_) => false,
        Slot::Members(_) => false,
    }
}

// Whether nothing is there of what is required.
fn is_lacking(kind: &Kind, slot: &Slot) -> bool
    ensures { result ≡ lacks_kind (form_of kind.now) (out-Slot slot.now) }
{
    match kind {
        Kind::Text => is_unset(slot),
        Kind::Whole => is_unset(slot),
        Kind::Truth => is_unset(slot),
        Kind::Ref(_) => is_unset(slot),
        Kind::Serial(_) => is_unset(slot),
        Kind::ListOf(_) => slot_items(slot).is_empty(),
        Kind::ArrayOf(_) => slot_pairs(slot).is_empty(),
        Kind::Many(_, _) => false,
        Kind::One(_, _) => is_unset(slot),
    }
}

#[cycle(valid)]
fn part_fault(of: &Objects<'_>, depth: usize, class: &ClassName, slots: &[Slot]) -> Option<Why>
    ensures { result ≡ fault_of_part depth of.now.schema.now of.now.table.now class.now slots.now }
{
    if depth == 0 {
        return None;
    }
    props_fault(of, depth - 1, props_of(of.schema, class), slots)
}

#[cycle(valid)]
fn serial_fault(of: &Objects<'_>, depth: usize, class: &ClassName, slot: &Slot) -> Option<Why>
    ensures { result ≡ part_fault_in (fault_of_part depth of.now.schema.now of.now.table.now class.now) (part_slots of.now.table.now (out-Slot slot.now)) }
{
    match part_in(of.table, slot) {
        None => None,
        Some(slots) => part_fault(of, depth, class, slots),
    }
}

#[cycle(valid)]
fn element_fault(
    at: &Checked<'_>,
    depth: usize,
    prop: &Prop,
    item: &Item,
    slot: &Slot,
) -> Option<Why>
    ensures { result ≡ fault_of_element at.now.of.table.now (fault_of_part depth at.now.of.schema.now at.now.of.table.now) prop.now (is_indexed at.now.indexes.now prop.now) item.now (out-Slot slot.now) }
{
    match item {
        Item::Text => text_fault(prop, at.indexes, slot_text(slot)),
        Item::Whole => whole_fault(prop, slot_text(slot)),
        Item::Truth => truth_fault(slot_text(slot)),
        Item::Ref(_) => None,
        Item::Serial(class) => serial_fault(&at.of, depth, class, slot),
    }
}

#[cycle(valid)]
fn list_fault(
    at: &Checked<'_>,
    depth: usize,
    prop: &Prop,
    item: &Item,
    slots: &[Slot],
) -> Option<Why>
    ensures { result ≡ first_broken (λ t. fault_of_element at.now.of.table.now (fault_of_part depth at.now.of.schema.now at.now.of.table.now) prop.now (is_indexed at.now.indexes.now prop.now) item.now (out-Slot t)) slots.now }
{
    for slot in slots {
        if let Some(why) = element_fault(at, depth, prop, item, slot) {
            return Some(why);
        }
    }
    None
}

#[cycle(valid)]
fn array_fault(
    at: &Checked<'_>,
    depth: usize,
    prop: &Prop,
    item: &Item,
    pairs: &[(Sub, Slot)],
) -> Option<Why>
    ensures { result ≡ first_broken (λ e. fault_of_element at.now.of.table.now (fault_of_part depth at.now.of.schema.now at.now.of.table.now) prop.now (is_indexed at.now.indexes.now prop.now) item.now (out-Slot e.1)) pairs.now }
{
    for pair in pairs {
        if let Some(why) = element_fault(at, depth, prop, item, &pair.1) {
            return Some(why);
        }
    }
    None
}

#[cycle(valid)]
fn pairs_fault(at: &Checked<'_>, depth: usize, prop: &Prop, item: &Item, slot: &Slot) -> Option<Why>
    ensures { result ≡ first_broken (λ e. fault_of_element at.now.of.table.now (fault_of_part depth at.now.of.schema.now at.now.of.table.now) prop.now (is_indexed at.now.indexes.now prop.now) item.now (out-Slot e.1)) (pairs_of (out-Slot slot.now)) }
{
    array_fault(at, depth, prop, item, slot_pairs(slot))
}

// Of what is there.
#[cycle(valid)]
fn kind_fault(at: &Checked<'_>, depth: usize, prop: &Prop, slot: &Slot) -> Option<Why>
    ensures { result ≡ fault_of_kind at.now.of.table.now (fault_of_part depth at.now.of.schema.now at.now.of.table.now) prop.now (is_indexed at.now.indexes.now prop.now) (out-Slot slot.now) (form_of prop.now.kind) }
{
    match &prop.kind {
        Kind::Text => text_fault(prop, at.indexes, slot_text(slot)),
        Kind::Whole => whole_fault(prop, slot_text(slot)),
        Kind::Truth => truth_fault(slot_text(slot)),
        Kind::Ref(_) => None,
        Kind::Serial(class) => serial_fault(&at.of, depth, class, slot),
        Kind::ListOf(item) => list_fault(at, depth, prop, item, slot_items(slot)),
        Kind::ArrayOf(item) => pairs_fault(at, depth, prop, item, slot),
        Kind::Many(_, _) => None,
        Kind::One(_, _) => None,
    }
}

#[cycle(valid)]
fn prop_fault(at: &Checked<'_>, depth: usize, prop: &Prop, slot: &Slot) -> Option<Why>
    ensures { result ≡ fault_of_prop at.now.of.table.now (fault_of_part depth at.now.of.schema.now at.now.of.table.now) prop.now (is_indexed at.now.indexes.now prop.now) (out-Slot slot.now) }
{
    if prop.required && is_lacking(&prop.kind, slot) {
        return Some(Why::Required);
    }
    kind_fault(at, depth, prop, slot)
}

// Of the properties of a part, which no index has.
#[cycle(valid)]
fn props_fault(of: &Objects<'_>, depth: usize, props: &[Prop], slots: &[Slot]) -> Option<Why>
    ensures { result ≡ fault_of_props of.now.table.now (fault_of_part depth of.now.schema.now of.now.table.now) props.now slots.now }
{
    let at = Checked {
        of: *of,
        indexes: &[],
    };
    let mut rest = slots;
    for prop in props {
        let (slot, more) = rest.split_first()?;
        if let Some(why) = prop_fault(&at, depth, prop, slot) {
            return Some(why);
        }
        rest = more;
    }
    None
}

// Of the properties of an object, with the place of the first that isn't in order.
fn place_fault(at: &Checked<'_>, props: &[Prop], slots: &[Slot]) -> Option<Fault>
    requires { length props.now ≤ 200 }
    ensures { result ≡ fault_of_places at.now.of.table.now (fault_of_part 4 at.now.of.schema.now at.now.of.table.now) at.now.indexes.now 0 props.now slots.now }
{
    let mut rest = slots;
    let mut place = 0;
    for prop in props {
        let (slot, more) = rest.split_first()?;
        if let Some(why) = prop_fault(at, PART_DEPTH, prop, slot) {
            return Some(Fault {
                prop: Some(place),
                why,
            });
        }
        rest = more;
        place += 1;
    }
    None
}

fn indexes_of<'a>(schema: &'a Schema, class: &ClassName) -> &'a [Index]
    ensures { result.now ≡ class_indexes (class_of schema.now class.now) }
{
    match schema.class(class) {
        Some(class) => class.indexes.as_slice(),
        None => &[],
    }
}

#[tactic(auto, unfolding(crate::specs::Faults::object_fault))]
fn object_fault(of: &Objects<'_>, obj: &Obj) -> Option<Fault>
    requires { IsWhole of.now.schema.now }
    ensures { result ≡ fault_of_object of.now.schema.now of.now.table.now obj.now }
{
    let indexes = indexes_of(of.schema, &obj.class);
    let props = props_of(of.schema, &obj.class);
    let at = Checked { of: *of, indexes };
    if let Some(fault) = place_fault(&at, props, obj.slots.as_slice()) {
        return Some(fault);
    }
    if row_fits(&Weighed { of: *of, obj }) {
        return None;
    }
    Some(Fault {
        prop: None,
        why: Why::RowTooLong,
    })
}

/// The first rule that the object breaks, by the order of its properties; `None` where it breaks none. Of a property it
/// is the first of these: it is empty and required, a value is no whole number, no truth value, too long, too small or too
/// large, or the text of a key is too long. Elements and the fields of parts are looked at one by one by the same rules,
/// but that an element may be empty, and count for the object's own property. After all properties the row comes: a list
/// of it, or an element of an array, that weighs more than a value may, with 64 for each reference. It takes no memory.
pub fn valid(table: &Table, schema: &Schema, oref: Oref) -> Option<Fault>
    requires { IsWhole schema.now }
    ensures { result ≡ first_fault schema.now table.now oref.0 }
{
    match table.get(oref) {
        None => None,
        Some(obj) => object_fault(&Objects { table, schema }, obj),
    }
}
