ghost use Rattle.std.specs.Prelude.{ℕ, ◌≡◌, ◌+◌, List, [], IfErr, IfNone, IfOk, IfSome, IsSome, IsTrue, None, OnErr, OnOk, Some};
ghost use Rattle.std.specs.FinMap.{find, is_sorted, put};
ghost use Rattle.obj_kinds.specs.declared.sub.Sub.{Sub};
ghost use Rattle.obj_kinds.specs.SubOrder.{sub_cmp};
ghost use Rattle.oref_table.specs.Memory.{Object, object_of};
ghost use Rattle.oref_table.specs.Refs.{refs_in};
ghost use Rattle.oref_table.specs.declared.slot.Slot.{Slot};
ghost use Rattle.oref_table.specs.declared.slot.Slot.TheVariants.{Map, To};
ghost use Rattle.schema_kinds.specs.declared.kind.Item.{Item};
ghost use Rattle.obj_shape.specs.Fitting.{TableFits};
ghost use Rattle.obj_shape.specs.Wholeness.{IsWhole};
ghost use Rattle.obj_props.specs.Contents.{IsLack, MayBeRead};
ghost use Rattle.obj_props.specs.Properties.{alone, gives, part_made, read_of};
ghost use Rattle.prop_setting.specs.Arrays.{ArrayReads, HasArray, IsArray, IsArrayAt};

use crate::arrays::{array_pairs, fill_pair, find_array, pair_place};
use crate::list_calls::{CollectionAt, CollectionSpot};
use crate::set::level_at;
use obj_kinds::{Lack, Sub, Text, Value};
use obj_props::{
    Content, Got, NewPart, ShapeError, element_content, hold_again, hold_object, new_part,
    soundness,
};
use oref_table::{Fill, Held, Oref, Slot, Table};

fn pair_slot<'a>(pairs: &'a [(Sub, Slot)], key: &Sub) -> Option<&'a Slot>
    requires { IsTrue (is_sorted sub_cmp pairs.now) }
    ensures some { IfSome result (λ slot. find sub_cmp key.now pairs.now ≡ Some slot.now) }
    ensures none { IfNone result (find sub_cmp key.now pairs.now ≡ None) }
{
    let Ok(at) = pair_place(pairs, key) else {
        return None;
    };
    Some(&pairs[at].1)
}

/// Gives an element that is a part an object, which stands in the array from then on, and answers a hold of it. `Count` where no
/// number is left; at a refusal the table is as before.
fn make_pair_part(
    table: &mut Table,
    holder: Oref,
    at: u32,
    key: Sub,
    part: NewPart,
) -> Result<Held, Lack>
    requires array { (pairs : List (Sub × Slot)) × IsArrayAt table.old holder.0 at pairs × IsTrue (is_sorted sub_cmp pairs) × IsSome (find sub_cmp key pairs) }
    requires no_refs { refs_in part.slots ≡ [] }
    ensures memory { (pairs : List (Sub × Slot)) → IsArrayAt table.old holder.0 at pairs → OnOk result (table.new ≡ part_made table.old holder.0 part.level at part.class part.extent part.slots (Map (put sub_cmp key (To (record { 0 = table.old.last + 1 })) pairs))) }
    ensures held { IfOk result (λ h. h.number ≡ table.old.last + 1) }
    ensures err { OnErr result (table.new ≡ table.old) }
{
    soundness(table);
    let held = table.make(part.class, part.extent, None, part.level, part.slots)?;
    let again = hold_again(table, &held);
    fill_pair(table, holder, at, key, Fill::To(again));
    Ok(held)
}

fn read_pair(
    table: &mut Table,
    array: &CollectionAt<'_>,
    spot: &CollectionSpot<'_>,
    key: Sub,
    content: Content,
) -> Result<Got, ShapeError>
    requires array { (pairs : List (Sub × Slot)) × IsArrayAt table.old array.now.oref.0 spot.now.at pairs × IsTrue (is_sorted sub_cmp pairs) × IsSome (find sub_cmp key pairs) }
    requires content { MayBeRead table.old content }
    ensures ok { (o : Object) (pairs : List (Sub × Slot)) → object_of array.now.oref.0 table.old.objects ≡ Some o → IsArrayAt table.old array.now.oref.0 spot.now.at pairs → IfOk result (λ g. read_of array.now.schema.now table.old array.now.oref.0 o.level spot.now.at (λ q. Map (put sub_cmp key (alone q) pairs)) content ≡ gives g table.new) }
    ensures err { IfErr result (λ e. (table.new ≡ table.old) × IsLack e) }
{
    match content {
        Content::Value(value) => Ok(Got::Plain(value)),
        Content::Object(held) => hold_object(table, held),
        Content::Stored(key, class) => Ok(Got::Touch(key, class)),
        Content::Part(class, slots) => {
            let level = level_at(table, array.oref);
            let part = new_part(array.alloc, array.schema, class, level, slots)?;
            Ok(Got::To(make_pair_part(table, array.oref, spot.at, key, part)?))
        }
        Content::Collection => Ok(Got::Coll),
    }
}

/// What the element of a key holds: a value; an object, held once more; `Touch` exactly where an id stands there, which is to be
/// opened first; the empty text where a reference has none, and where no element has the key. A part without an object gets one,
/// of the next number and with the level of the array's object, and an empty one is made where there is no part. No error of the
/// script comes; at any refusal the table is as before. It costs a search among the keys, and a copy of what is answered.
pub fn array_get(array: &CollectionAt<'_>, table: &mut Table, key: Sub) -> Result<Got, ShapeError>
    requires whole { IsWhole array.now.schema.now }
    requires fits { TableFits array.now.schema.now table.old }
    requires array { HasArray array.now.schema.now table.old array.now.oref.0 array.now.prop.now }
    ensures ok { (at level : ℕ) (i : Item) (pairs : List (Sub × Slot)) → IsArray array.now.schema.now table.old array.now.oref.0 array.now.prop.now at level i pairs → IfOk result (λ g. ArrayReads array.now.schema.now table.old array.now.oref.0 at level i pairs key g table.new) }
    ensures err { IfErr result (λ e. (table.new ≡ table.old) × IsLack e) }
{
    let spot = find_array(table, array);
    let pairs = array_pairs(table, array.oref, spot.at);
    let Some(slot) = pair_slot(pairs, &key) else {
        return Ok(Got::Plain(Value::Str(Text::new(array.alloc))));
    };
    let content = element_content(array.alloc, array.schema, spot.item, slot)?;
    read_pair(table, array, &spot, key, content)
}
