ghost use Rattle.std.specs.Prelude.{◌≡◌, [], map, option_map, option_to_list};
ghost use Rattle.record_layout.specs.Shapes.{form_of};
ghost use Rattle.oref_table.specs.declared.slot.Slot.TheViews.{out-Slot};
ghost use Rattle.schema_kinds.specs.declared.record.Field.TheVariants as field;
ghost use Rattle.obj_shape.specs.Records.{element_field, field_by, fields_by, part_fields, part_slots, part_with, text_of};
ghost use Rattle.obj_validity.specs.Weights.{room_after, share, total};

use obj_kinds::ClassName;
use obj_shape::{part_in, props_of, slot_items, slot_text};
use oref_table::{Slot, Table};
use schema_kinds::{Item, Kind, Prop, Schema};

/// Where objects and their classes are looked up.
#[derive(Clone, Copy)]
pub struct Objects<'a> {
    pub table: &'a Table,
    pub schema: &'a Schema,
}

/// What a reference counts as an item of a list.
const REFERENCE: usize = 66;

/// What is left of the room, if it has so much.
#[tactic(auto, unfolding(crate::specs::Weights::room_after))]
pub fn taken(room: usize, n: usize) -> Option<usize>
    ensures { result ≡ room_after room n }
{
    if n <= room { Some(room - n) } else { None }
}

// A text is an item.
#[tactic(auto, using(crate::proofs::RoomLaws::room_then, crate::proofs::RoomLaws::room_stop, crate::proofs::ShareLaws::share_plain))]
fn text_room(slot: &Slot, room: usize) -> Option<usize>
    ensures { result ≡ room_after room (share (field.Plain (text_of (out-Slot slot.now)))) }
{
    let room = taken(room, 2)?;
    taken(room, slot_text(slot).len())
}

// The slots of a part of the class.
#[tactic(auto, using(crate::proofs::StepLaws::part_then, crate::proofs::StepLaws::part_stop, crate::proofs::ShareLaws::share_no_part))]
#[cycle(weight)]
fn slots_room(
    of: &Objects<'_>,
    depth: usize,
    class: &ClassName,
    slots: &[Slot],
    room: usize,
) -> Option<usize>
    ensures { result ≡ room_after room (share (field.Part (part_fields depth of.now.schema.now of.now.table.now [] class.now slots.now))) }
{
    if depth == 0 {
        return taken(room, 2);
    }
    let room = taken(room, 4)?;
    fields_room(of, depth - 1, props_of(of.schema, class), slots, room)
}

// The part that stands in the slot, if there is one.
#[tactic(auto, using(crate::proofs::ShareLaws::share_no_part))]
#[cycle(weight)]
fn part_room(
    of: &Objects<'_>,
    depth: usize,
    class: &ClassName,
    slot: &Slot,
    room: usize,
) -> Option<usize>
    ensures { result ≡ room_after room (share (field.Part (part_with (part_fields depth of.now.schema.now of.now.table.now [] class.now) (part_slots of.now.table.now (out-Slot slot.now))))) }
{
    match part_in(of.table, slot) {
        None => taken(room, 2),
        Some(slots) => slots_room(of, depth, class, slots, room),
    }
}

#[tactic(auto, using(crate::proofs::ShareLaws::share_target))]
/// What is left of a room that an element is put into, with parts at most so deep.
#[cycle(weight)]
pub fn element_room(
    of: &Objects<'_>,
    depth: usize,
    item: &Item,
    slot: &Slot,
    room: usize,
) -> Option<usize>
    ensures { result ≡ room_after room (share (element_field of.now.table.now [] (part_fields depth of.now.schema.now of.now.table.now []) item.now (out-Slot slot.now))) }
{
    match item {
        Item::Text => text_room(slot, room),
        Item::Whole => text_room(slot, room),
        Item::Truth => text_room(slot, room),
        Item::Ref(_) => taken(room, REFERENCE),
        Item::Serial(class) => part_room(of, depth, class, slot, room),
    }
}

#[tactic(auto, using(crate::proofs::RoomLaws::room_then, crate::proofs::RoomLaws::room_stop, crate::proofs::StepLaws::items_left))]
#[cycle(weight)]
fn items_room(
    of: &Objects<'_>,
    depth: usize,
    item: &Item,
    slots: &[Slot],
    room: usize,
) -> Option<usize>
    ensures { result ≡ room_after room (total (map (λ t. share (element_field of.now.table.now [] (part_fields depth of.now.schema.now of.now.table.now []) item.now (out-Slot t))) slots.now)) }
{
    let mut left = room;
    let mut rest = slots;
    while let Some((slot, more)) = rest.split_first() {
        left = element_room(of, depth, item, slot, left)?;
        rest = more;
    }
    Some(left)
}

#[tactic(auto, using(crate::proofs::RoomLaws::room_then, crate::proofs::RoomLaws::room_stop, crate::proofs::ShareLaws::share_no_list, crate::proofs::ShareLaws::share_list))]
#[cycle(weight)]
fn list_room(
    of: &Objects<'_>,
    depth: usize,
    item: &Item,
    slots: &[Slot],
    room: usize,
) -> Option<usize>
    ensures { result ≡ room_after room (share (field.List (map (λ t. element_field of.now.table.now [] (part_fields depth of.now.schema.now of.now.table.now []) item.now (out-Slot t)) slots.now))) }
{
    if slots.is_empty() {
        return taken(room, 2);
    }
    let room = taken(room, 4)?;
    items_room(of, depth, item, slots, room)
}

#[tactic(auto, using(crate::proofs::RoomLaws::room_none, crate::proofs::ShareLaws::share_target, crate::proofs::ShareLaws::share_map, crate::proofs::ShareLaws::share_alone))]
// A property: nothing of a many side is stored, and an array has nodes of its own.
#[cycle(weight)]
fn field_room(
    of: &Objects<'_>,
    depth: usize,
    kind: &Kind,
    slot: &Slot,
    room: usize,
) -> Option<usize>
    ensures { result ≡ room_after room (total (map share (option_to_list (option_map (λ form. field_by of.now.table.now [] (part_fields depth of.now.schema.now of.now.table.now []) form (out-Slot slot.now)) (form_of kind.now))))) }
{
    match kind {
        Kind::Text => text_room(slot, room),
        Kind::Whole => text_room(slot, room),
        Kind::Truth => text_room(slot, room),
        Kind::Ref(_) => taken(room, REFERENCE),
        Kind::Serial(class) => part_room(of, depth, class, slot, room),
        Kind::ListOf(item) => list_room(of, depth, item, slot_items(slot), room),
        Kind::ArrayOf(_) => Some(room),
        Kind::Many(_, _) => Some(room),
        Kind::One(_, _) => taken(room, REFERENCE),
    }
}

#[tactic(auto, using(crate::proofs::StepLaws::field_then, crate::proofs::StepLaws::field_stop, crate::proofs::StepLaws::slots_left, crate::proofs::StepLaws::props_left))]
/// What is left of a room that the fields of these properties are put into, as items of one list.
#[cycle(weight)]
pub fn fields_room(
    of: &Objects<'_>,
    depth: usize,
    props: &[Prop],
    slots: &[Slot],
    room: usize,
) -> Option<usize>
    ensures { result ≡ room_after room (total (map share (fields_by of.now.table.now [] (part_fields depth of.now.schema.now of.now.table.now []) props.now slots.now))) }
{
    let mut left = room;
    let mut wanted = props;
    let mut rest = slots;
    while let Some((slot, more)) = rest.split_first() {
        let Some((prop, others)) = wanted.split_first() else {
            return Some(left);
        };
        left = field_room(of, depth, &prop.kind, slot, left)?;
        wanted = others;
        rest = more;
    }
    Some(left)
}
