ghost use Rattle.std.specs.Prelude.{◌≡◌};
ghost use Rattle.std.specs.List.{list_any, flat_map};
ghost use Rattle.record_layout.specs.Shapes.{form_of};
ghost use Rattle.oref_table.specs.declared.slot.Slot.TheViews.{out-Slot};
ghost use Rattle.object_calls.specs.Memories.{is_modified as counts_as_modified};
ghost use Rattle.object_members.specs.Parts.{element_parts, form_parts, oref_in, props_parts};
ghost use Rattle.object_members.specs.Seeing.{memories};
ghost use Rattle.save_set.specs.Marking.{any_marked, any_part_marked, items_parts, pairs_parts};

use obj_kinds::Sub;
use obj_shape::{PART_DEPTH, props_of, slot_items, slot_pairs};
use oref_table::{Oref, Slot, Table};
use schema_kinds::{Item, Kind, Prop, Schema};

/// Where objects and their classes are looked up.
#[derive(Clone, Copy)]
pub struct Objects<'a> {
    pub table: &'a Table,
    pub schema: &'a Schema,
}

// Whether the object is marked, or a part in its slots is, with no more than so many parts one in the other.
#[tactic(auto, using(crate::proofs::Parts::marked_none, crate::proofs::Parts::marked_here, crate::proofs::Parts::marked_end, crate::proofs::Parts::marked_parts))]
#[cycle(marked)]
fn is_marked(of: &Objects<'_>, depth: usize, oref: Oref) -> bool
    ensures { result ≡ any_marked of.now.schema.now of.now.table.now depth oref.0 }
{
    let Some(obj) = of.table.get(oref) else {
        return false;
    };
    if obj.modified {
        return true;
    }
    if depth == 0 {
        return false;
    }
    any_prop(
        of,
        depth - 1,
        props_of(of.schema, &obj.class),
        obj.slots.as_slice(),
    )
}

#[tactic(auto, using(crate::proofs::Parts::alone))]
#[cycle(marked)]
fn slot_is_marked(of: &Objects<'_>, depth: usize, slot: &Slot) -> bool
    ensures { result ≡ any_part_marked of.now.schema.now of.now.table.now depth (oref_in (out-Slot slot.now)) }
{
    match slot {
        Slot::Plain(_) => false,
        Slot::Target(_) => false,
        Slot::To(oref) => is_marked(of, depth, *oref),
        Slot::Items(_) => false,
        Slot::Map(_) => false,
        Slot::Members(_) => false,
    }
}

#[cycle(marked)]
fn element_is_marked(of: &Objects<'_>, depth: usize, item: &Item, slot: &Slot) -> bool
    ensures { result ≡ any_part_marked of.now.schema.now of.now.table.now depth (element_parts item.now (out-Slot slot.now)) }
{
    match item {
        Item::Text => false,
        Item::Whole => false,
        Item::Truth => false,
        Item::Ref(_) => false,
        Item::Serial(_) => slot_is_marked(of, depth, slot),
    }
}

#[tactic(auto, using(crate::proofs::Parts::item_marked, crate::proofs::Parts::item_passed, crate::proofs::Parts::no_items))]
#[cycle(marked)]
fn any_item(of: &Objects<'_>, depth: usize, item: &Item, slots: &[Slot]) -> bool
    ensures { result ≡ any_part_marked of.now.schema.now of.now.table.now depth (items_parts item.now slots.now) }
{
    let mut rest = slots;
    while let Some((slot, more)) = rest.split_first() {
        if element_is_marked(of, depth, item, slot) {
            return true;
        }
        rest = more;
    }
    false
}

#[tactic(auto, using(crate::proofs::Parts::pair_marked, crate::proofs::Parts::pair_passed, crate::proofs::Parts::no_pairs))]
#[cycle(marked)]
fn any_pair(of: &Objects<'_>, depth: usize, item: &Item, pairs: &[(Sub, Slot)]) -> bool
    ensures { result ≡ any_part_marked of.now.schema.now of.now.table.now depth (pairs_parts item.now pairs.now) }
{
    let mut rest = pairs;
    while let Some((pair, more)) = rest.split_first() {
        if element_is_marked(of, depth, item, &pair.1) {
            return true;
        }
        rest = more;
    }
    false
}

#[cycle(marked)]
fn prop_is_marked(of: &Objects<'_>, depth: usize, kind: &Kind, slot: &Slot) -> bool
    ensures { result ≡ any_part_marked of.now.schema.now of.now.table.now depth (form_parts (form_of kind.now) (out-Slot slot.now)) }
{
    match kind {
        Kind::Text => false,
        Kind::Whole => false,
        Kind::Truth => false,
        Kind::Ref(_) => false,
        Kind::Serial(_) => slot_is_marked(of, depth, slot),
        Kind::ListOf(item) => any_item(of, depth, item, slot_items(slot)),
        Kind::ArrayOf(item) => any_pair(of, depth, item, slot_pairs(slot)),
        Kind::Many(_, _) => false,
        Kind::One(_, _) => false,
    }
}

#[tactic(auto, using(crate::proofs::Parts::prop_marked, crate::proofs::Parts::prop_passed, crate::proofs::Parts::no_slots, crate::proofs::Parts::no_props))]
#[cycle(marked)]
fn any_prop(of: &Objects<'_>, depth: usize, props: &[Prop], slots: &[Slot]) -> bool
    ensures { result ≡ any_part_marked of.now.schema.now of.now.table.now depth (props_parts props.now slots.now) }
{
    let mut wanted = props;
    let mut rest = slots;
    while let Some((slot, more)) = rest.split_first() {
        let Some((prop, others)) = wanted.split_first() else {
            return false;
        };
        if prop_is_marked(of, depth, &prop.kind, slot) {
            return true;
        }
        wanted = others;
        rest = more;
    }
    false
}

/// Whether the object is persistent, and new or marked, or a part of it is marked. It takes no memory.
pub fn is_modified(of: &Objects<'_>, oref: Oref) -> bool
    ensures { result ≡ counts_as_modified (memories of.now.schema.now) of.now.table.now oref.0 }
{
    let Some(obj) = of.table.get(oref) else {
        return false;
    };
    if obj.extent.is_none() {
        return false;
    }
    obj.id.is_none() || is_marked(of, PART_DEPTH, oref)
}
