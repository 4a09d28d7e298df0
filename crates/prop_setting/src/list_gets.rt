ghost use Rattle.std.specs.Prelude.{ℕ, ◌≡◌, ◌<◌, ◌≤◌, ◌+◌, ◌∷◌, List, [], IfErr, IfNone, IfOk, IfSome, None, OnErr, OnOk, Some, length, slice_get, slice_set};
ghost use Rattle.oref_table.specs.Memory.{Object, object_of};
ghost use Rattle.oref_table.specs.Refs.{refs_in};
ghost use Rattle.oref_table.specs.declared.slot.Slot.{Slot};
ghost use Rattle.oref_table.specs.declared.slot.Slot.TheVariants.{Items, To};
ghost use Rattle.oref_table.specs.declared.slot.Slot.TheViews.{out-Slot};
ghost use Rattle.schema_kinds.specs.declared.kind.Item.{Item};
ghost use Rattle.obj_shape.specs.Fitting.{TableFits};
ghost use Rattle.obj_shape.specs.Wholeness.{IsWhole};
ghost use Rattle.obj_props.specs.Contents.{IsLack, MayBeRead};
ghost use Rattle.obj_props.specs.Properties.{alone, element_content as content_of_element, gives, part_made, read_of};
ghost use Rattle.prop_setting.specs.Lists.{HasItemsAt, HasList, IsList, IsListAt, IsListOf, ListReads};

use crate::list_calls::{CollectionAt, CollectionSpot, find_list, slot_in};
use crate::lists::{fill_item, item_place};
use crate::set::level_at;
use obj_kinds::{Lack, NoMemory, Text, Value};
use obj_props::{
    Content, Got, NewPart, ShapeError, element_content, hold_again, hold_object, new_part,
    soundness,
};
use obj_shape::{object_slots, slot_items};
use oref_table::{Fill, Held, Oref, Table};

// What the item at the place holds.
fn item_content(
    table: &Table,
    list: &CollectionAt<'_>,
    spot: &CollectionSpot<'_>,
    place: u64,
) -> Result<Content, NoMemory>
    requires list { IsListOf list.now.schema.now table.now list.now.oref.0 spot.now.at spot.now.item.now spot.now.len }
    requires place { place < spot.now.len }
    requires fits { TableFits list.now.schema.now table.now }
    ensures content { (items : List Slot) → IsListAt table.now list.now.oref.0 spot.now.at items → IfOk result (λ content. (s : Slot) × (slice_get items place ≡ Some s) × (content ≡ content_of_element list.now.schema.now spot.now.item.now (out-Slot s))) }
    ensures read { IfOk result (λ content. MayBeRead table.now content) }
{
    let slots = object_slots(table, list.oref);
    let slot = slot_in(slots, spot.at as usize).unwrap();
    let item = slot_in(slot_items(slot), place as usize).unwrap();
    element_content(list.alloc, list.schema, spot.item, item)
}

/// Gives an item that is a part an object, which stands in the list from then on, and answers a hold of it. `Count` where no
/// number is left; at a refusal the table is as before.
fn make_item_part(
    table: &mut Table,
    holder: Oref,
    at: u32,
    place: u64,
    part: NewPart,
) -> Result<Held, Lack>
    requires list { HasItemsAt table.old holder.0 at (place + 1) }
    requires no_refs { refs_in part.slots ≡ [] }
    ensures memory { (items : List Slot) → IsListAt table.old holder.0 at items → OnOk result (table.new ≡ part_made table.old holder.0 part.level at part.class part.extent part.slots (Items (slice_set items place (To (record { 0 = table.old.last + 1 }))))) }
    ensures held { IfOk result (λ h. h.number ≡ table.old.last + 1) }
    ensures err { OnErr result (table.new ≡ table.old) }
{
    soundness(table);
    let held = table.make(part.class, part.extent, None, part.level, part.slots)?;
    let again = hold_again(table, &held);
    fill_item(table, holder, at, place, Fill::To(again));
    Ok(held)
}

fn read_item(
    table: &mut Table,
    list: &CollectionAt<'_>,
    spot: &CollectionSpot<'_>,
    place: u64,
    content: Content,
) -> Result<Got, ShapeError>
    requires list { HasItemsAt table.old list.now.oref.0 spot.now.at (place + 1) }
    requires content { MayBeRead table.old content }
    ensures ok { (o : Object) (items : List Slot) → object_of list.now.oref.0 table.old.objects ≡ Some o → IsListAt table.old list.now.oref.0 spot.now.at items → IfOk result (λ g. read_of list.now.schema.now table.old list.now.oref.0 o.level spot.now.at (λ q. Items (slice_set items place (alone q))) content ≡ gives g table.new) }
    ensures err { IfErr result (λ e. (table.new ≡ table.old) × IsLack e) }
{
    match content {
        Content::Value(value) => Ok(Got::Plain(value)),
        Content::Object(held) => hold_object(table, held),
        Content::Stored(key, class) => Ok(Got::Touch(key, class)),
        Content::Part(class, slots) => {
            let level = level_at(table, list.oref);
            let part = new_part(list.alloc, list.schema, class, level, slots)?;
            Ok(Got::To(make_item_part(table, list.oref, spot.at, place, part)?))
        }
        Content::Collection => Ok(Got::Coll),
    }
}

/// What the item at a position, counted from 1, holds: a value; an object, held once more; `Touch` exactly where an id stands
/// there, which is to be opened first; the empty text where a reference has none, and outside of the list. A part without an object
/// gets one, of the next number and with the level of the list's object, and an empty one is made where there is no part. No error of
/// the script comes; at any refusal the table is as before. It costs a copy of what is answered.
pub fn list_get(
    list: &CollectionAt<'_>,
    table: &mut Table,
    position: i64,
) -> Result<Got, ShapeError>
    requires whole { IsWhole list.now.schema.now }
    requires fits { TableFits list.now.schema.now table.old }
    requires list { HasList list.now.schema.now table.old list.now.oref.0 list.now.prop.now }
    ensures ok { (at level : ℕ) (i : Item) (items : List Slot) → IsList list.now.schema.now table.old list.now.oref.0 list.now.prop.now at level i items → IfOk result (λ g. ListReads list.now.schema.now table.old list.now.oref.0 at level i items position g table.new) }
    ensures err { IfErr result (λ e. (table.new ≡ table.old) × IsLack e) }
{
    let spot = find_list(table, list);
    let Some(place) = item_place(position, spot.len) else {
        return Ok(Got::Plain(Value::Str(Text::new(list.alloc))));
    };
    let content = item_content(table, list, &spot, place)?;
    read_item(table, list, &spot, place, content)
}
