ghost use Rattle.std.specs.Prelude.{◌≡◌, ◌≤◌, IfErr, IfOk, OnOk, length};
ghost use Rattle.oref_table.specs.Memory.{IsLive, edited, tighten};
ghost use Rattle.schema_kinds.specs.Classes.{class_of, extent_of, props_of as props_in};
ghost use Rattle.obj_shape.specs.Fitting.{TableFits};
ghost use Rattle.obj_shape.specs.Wholeness.{IsWhole};
ghost use Rattle.obj_props.specs.declared.got.Got.TheVariants as got;
ghost use Rattle.obj_props.specs.Changes.{HasSlot};
ghost use Rattle.obj_props.specs.Contents.{IsFound, IsLack, IsMissing, MayBeRead, Tells};
ghost use Rattle.obj_props.specs.Properties.{alone, gives, prop_place as place_for, prop_read, read_of};

use crate::content::{Content, kind_content, prop_place};
use crate::got::{Got, ShapeError};
use crate::part::{NewPart, make_part};
use obj_kinds::{ClassName, ErrorName, NoMemory};
use obj_shape::props_of;
use oref_table::{Obj, Oref, Slots, Table};
use schema_kinds::{Prop, Schema};
use std::alloc::Global;

/// What a property holds, with its place and the level of its object.
#[derive(Drop)]
struct Found {
    at: u32,
    level: u8,
    content: Content,
}

// What stands at the place.
fn slot_at(
    alloc: Global,
    schema: &Schema,
    props: &[Prop],
    obj: &Obj,
    place: Option<usize>,
) -> Result<Found, ShapeError>
    requires { length props.now ≤ 200 }
    ensures ok { IfOk result (λ f. IsFound schema.now props.now obj.now place f.at f.level f.content) }
    ensures err { IfErr result (IsMissing props.now obj.now place) }
{
    let Some(at) = place else {
        return Err(ShapeError::Script(ErrorName::PropertyDoesNotExist));
    };
    let Some(prop) = props.get(at) else {
        return Err(ShapeError::Script(ErrorName::PropertyDoesNotExist));
    };
    let Some(slot) = obj.slots.as_slice().get(at) else {
        return Err(ShapeError::Script(ErrorName::PropertyDoesNotExist));
    };
    let content = kind_content(alloc, schema, &prop.kind, slot)?;
    Ok(Found {
        at: at as u32,
        level: obj.level,
        content,
    })
}

fn found_in(alloc: Global, schema: &Schema, obj: &Obj, name: &[u8]) -> Result<Found, ShapeError>
    requires { IsWhole schema.now }
    ensures ok { IfOk result (λ f. IsFound schema.now (props_in (class_of schema.now obj.now.class)) obj.now (place_for name.now (props_in (class_of schema.now obj.now.class))) f.at f.level f.content) }
    ensures err { IfErr result (IsMissing (props_in (class_of schema.now obj.now.class)) obj.now (place_for name.now (props_in (class_of schema.now obj.now.class)))) }
{
    let props = props_of(schema, &obj.class);
    let place = prop_place(props, name);
    slot_at(alloc, schema, props, obj, place)
}

fn find(
    alloc: Global,
    table: &Table,
    schema: &Schema,
    oref: Oref,
    name: &[u8],
) -> Result<Found, ShapeError>
    requires whole { IsWhole schema.now }
    requires fits { TableFits schema.now table.now }
    ensures read { IfOk result (λ f. prop_read schema.now table.now oref.0 name.now ≡ read_of schema.now table.now oref.0 f.level f.at alone f.content) }
    ensures slot { IfOk result (λ f. HasSlot table.now oref.0 f.at) }
    ensures content { IfOk result (λ f. MayBeRead table.now f.content) }
    ensures err { IfErr result (Tells (prop_read schema.now table.now oref.0 name.now)) }
{
    match table.get(oref) {
        None => Err(ShapeError::Script(ErrorName::PropertyDoesNotExist)),
        Some(obj) => found_in(alloc, schema, obj, name),
    }
}

/// Answers a live object, which is held once more. It takes no memory.
pub fn hold_object(table: &mut Table, oref: Oref) -> Result<Got, ShapeError>
    requires { IsLive table.old oref.0 }
    ensures got { IfOk result (λ g. g ≡ got.To (record { number = oref.0 })) }
    ensures memory { OnOk result (table.new ≡ edited table.old oref.0 tighten) }
    ensures err { IfErr result (λ e. (table.new ≡ table.old) × IsLack e) }
{
    Ok(Got::To(table.hold(oref)?))
}

/// A part that is to have an object, of a class of the schema. It fails only for want of memory.
pub fn new_part(
    alloc: Global,
    schema: &Schema,
    class: ClassName,
    level: u8,
    slots: Slots,
) -> Result<NewPart, NoMemory>
    ensures { IfOk result (λ part. part ≡ record { class = class; extent = extent_of schema.now class; level = level; slots = slots }) }
{
    let extent = match schema.extent(&class) {
        Some(extent) => Some(extent.copy(alloc)?),
        None => None,
    };
    Ok(NewPart {
        class,
        extent,
        level,
        slots,
    })
}

fn read(
    alloc: Global,
    table: &mut Table,
    schema: &Schema,
    oref: Oref,
    found: Found,
) -> Result<Got, ShapeError>
    requires slot { HasSlot table.old oref.0 found.at }
    requires content { MayBeRead table.old found.content }
    ensures ok { IfOk result (λ g. read_of schema.now table.old oref.0 found.level found.at alone found.content ≡ gives g table.new) }
    ensures err { IfErr result (λ e. (table.new ≡ table.old) × IsLack e) }
{
    let Found { at, level, content } = found;
    match content {
        Content::Value(value) => Ok(Got::Plain(value)),
        Content::Object(held) => hold_object(table, held),
        Content::Stored(key, class) => Ok(Got::Touch(key, class)),
        Content::Part(class, slots) => {
            let part = new_part(alloc, schema, class, level, slots)?;
            Ok(Got::To(make_part(table, oref, at, part)?))
        }
        Content::Collection => Ok(Got::Coll),
    }
}

/// What the property of a live object holds: a value; an object, held once more; `Touch` exactly where an id stands in the
/// slot, which is to be opened first; the empty text where a reference has none; or a collection. A part without an object
/// gets one, of the next number and with the level of its holder, and an empty one is made where there is no part. The script
/// error comes exactly where the class has no such property; at any refusal the table is as before. It costs a look at the
/// names of the properties, and a copy of what is answered.
pub fn get_prop(
    alloc: Global,
    table: &mut Table,
    schema: &Schema,
    oref: Oref,
    name: &[u8],
) -> Result<Got, ShapeError>
    requires whole { IsWhole schema.now }
    requires fits { TableFits schema.now table.old }
    requires live { IsLive table.old oref.0 }
    ensures ok { IfOk result (λ g. prop_read schema.now table.old oref.0 name.now ≡ gives g table.new) }
    ensures err { IfErr result (λ e. (table.new ≡ table.old) × Tells (prop_read schema.now table.old oref.0 name.now) e) }
{
    let found = find(alloc, table, schema, oref, name)?;
    read(alloc, table, schema, oref, found)
}
