ghost use Rattle.std.specs.Prelude.{◌≡◌, length, get_or, None};
ghost use Rattle.std.specs.List.{list_all};
ghost use Rattle.oref_table.specs.declared.slot.Slot.TheViews.{out-Slot};
ghost use Rattle.record_layout.specs.Shapes.{form_of};
ghost use Rattle.schema_kinds.specs.Hierarchy.{chain, firsts_of, place_of};
ghost use Rattle.schema_kinds.specs.Classes.{class_names, headers_of};
ghost use Rattle.obj_validity.specs.Weights.{room_after};
ghost use Rattle.obj_validity.specs.Faults.{arrays_fit as all_arrays_fit, between as between_places, count_at as count_of, element_fits as fits_element, form_fits, line_up, list_fits as fits_list, lists_fit as all_lists_fit, marker_of, root_fits as fits_root, row_fits as fits_row, span_share};

use crate::weight::{Objects, element_room, fields_room, taken};
use obj_kinds::Sub;
use obj_shape::{PART_DEPTH, props_of, slot_pairs};
use oref_table::{Obj, Slot};
use schema_kinds::{Item, Kind, Prop, Schema};

/// An object whose row is weighed.
#[derive(Clone, Copy)]
pub struct Weighed<'a> {
    pub of: Objects<'a>,
    pub obj: &'a Obj,
}

/// The most that a value weighs.
const MAX_WEIGHT: usize = 32_767;

fn between<T>(items: &[T], from: usize, to: usize) -> &[T]
    ensures { result.now ≡ between_places from to items.now }
{
    let items = if to < items.len() {
        items.split_at(to).0
    } else {
        items
    };
    if from < items.len() {
        items.split_at(from).1
    } else {
        &[]
    }
}

// What is left of a room for the fields of the properties from one place up to another.
fn span_room(row: &Weighed<'_>, from: usize, to: usize, room: usize) -> Option<usize>
    ensures { result ≡ room_after room (span_share row.now.of.schema.now row.now.of.table.now row.now.obj.now from to) }
{
    let props = between(props_of(row.of.schema, &row.obj.class), from, to);
    let slots = between(row.obj.slots.as_slice(), from, to);
    fields_room(&row.of, PART_DEPTH, props, slots, room)
}

fn count_at(schema: &Schema, place: usize) -> usize
    ensures { result ≡ count_of schema.now place }
{
    match schema.classes().get(place) {
        Some(class) => class.props.len(),
        None => 0,
    }
}

#[tactic(auto, using(crate::proofs::MarkerLaws::marker_length))]
fn marker_len(obj: &Obj) -> usize
    ensures { result ≡ length (marker_of obj.now obj.now.extent) }
{
    match &obj.extent {
        None => 0,
        Some(extent) => {
            if obj.class == *extent {
                0
            } else {
                obj.class.0.as_slice().len() + 2
            }
        }
    }
}

#[tactic(auto, unfolding(crate::specs::Faults::root_fits), using(crate::proofs::RoomLaws::root_room, crate::proofs::RoomLaws::root_over))]
fn root_fits(row: &Weighed<'_>, place: usize) -> bool
    ensures { result ≡ fits_root row.now.of.schema.now row.now.of.table.now row.now.obj.now place }
{
    match taken(MAX_WEIGHT - 4, marker_len(row.obj)) {
        None => false,
        Some(room) => span_room(row, 0, count_at(row.of.schema, place), room).is_some(),
    }
}

#[tactic(auto, unfolding(crate::specs::Faults::list_fits), using(crate::proofs::RoomLaws::below_room))]
fn list_fits(row: &Weighed<'_>, above: usize, place: usize) -> bool
    ensures { result ≡ fits_list row.now.of.schema.now row.now.of.table.now row.now.obj.now above place }
{
    let from = count_at(row.of.schema, above);
    let to = count_at(row.of.schema, place);
    span_room(row, from, to, MAX_WEIGHT - 2).is_some()
}

#[tactic(auto, using(record_layout::proofs::LineLaws::first_above))]
fn place_above(schema: &Schema, place: usize) -> Option<usize>
    ensures { result ≡ get_or (firsts_of (headers_of schema.now)) place None }
{
    match schema.classes().get(place) {
        Some(class) => match class.supers.as_slice().first() {
            Some(first) => schema.place(first),
            None => None,
        },
        None => None,
    }
}

#[tactic(auto, using(crate::proofs::RowLaws::fit_alone, crate::proofs::RowLaws::fit_last, crate::proofs::RowLaws::fit_under))]
// The lists of the class at the place and of those above it. The depth is that of superclasses, 16 at most.
fn lists_fit(row: &Weighed<'_>, most: usize, place: usize) -> bool
    ensures { result ≡ all_lists_fit row.now.of.schema.now row.now.of.table.now row.now.obj.now (chain most (firsts_of (headers_of row.now.of.schema.now)) place) }
{
    if most == 0 {
        return root_fits(row, place);
    }
    match place_above(row.of.schema, place) {
        None => root_fits(row, place),
        Some(above) => list_fits(row, above, place) && lists_fit(row, most - 1, above),
    }
}

fn line_fits(row: &Weighed<'_>) -> bool
    ensures { result ≡ all_lists_fit row.now.of.schema.now row.now.of.table.now row.now.obj.now (line_up row.now.of.schema.now (place_of (class_names row.now.of.schema.now) row.now.obj.now.class)) }
{
    match row.of.schema.place(&row.obj.class) {
        None => true,
        Some(place) => lists_fit(row, row.of.schema.classes().len(), place),
    }
}

#[tactic(auto, using(crate::proofs::RoomLaws::room_fits))]
fn element_fits(of: &Objects<'_>, item: &Item, pair: &(Sub, Slot)) -> bool
    ensures { result ≡ fits_element of.now.schema.now of.now.table.now item.now pair.now }
{
    element_room(of, PART_DEPTH, item, &pair.1, MAX_WEIGHT + 2).is_some()
}

fn elements_fit(of: &Objects<'_>, item: &Item, pairs: &[(Sub, Slot)]) -> bool
    ensures { result ≡ list_all (fits_element of.now.schema.now of.now.table.now item.now) pairs.now }
{
    pairs.iter().all(|pair| element_fits(of, item, pair))
}

fn array_fits(of: &Objects<'_>, kind: &Kind, slot: &Slot) -> bool
    ensures { result ≡ form_fits of.now.schema.now of.now.table.now (form_of kind.now) (out-Slot slot.now) }
{
    match kind {
        Kind::Text => true,
        Kind::Whole => true,
        Kind::Truth => true,
        Kind::Ref(_) => true,
        Kind::Serial(_) => true,
        Kind::ListOf(_) => true,
        Kind::ArrayOf(item) => elements_fit(of, item, slot_pairs(slot)),
        Kind::Many(_, _) => true,
        Kind::One(_, _) => true,
    }
}

fn arrays_fit(of: &Objects<'_>, props: &[Prop], slots: &[Slot]) -> bool
    ensures { result ≡ all_arrays_fit of.now.schema.now of.now.table.now props.now slots.now }
{
    let mut rest = slots;
    for prop in props {
        let Some((slot, more)) = rest.split_first() else {
            return true;
        };
        if !array_fits(of, &prop.kind, slot) {
            return false;
        }
        rest = more;
    }
    true
}

/// Whether no list of the object's row, and no element of its arrays, would weigh more than a value may, where each
/// reference counts 64. It takes no memory.
pub fn row_fits(row: &Weighed<'_>) -> bool
    ensures { result ≡ fits_row row.now.of.schema.now row.now.of.table.now row.now.obj.now }
{
    let props = props_of(row.of.schema, &row.obj.class);
    line_fits(row) && arrays_fit(&row.of, props, row.obj.slots.as_slice())
}
