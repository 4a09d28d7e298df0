//! One sides of whole records, and those that lack their target.

ghost use Rattle.std.specs.Prelude.{◌≡◌, ◌∷◌, ◌++◌, [], map, IfOk, OnOk, IfSome, IfNone, IsTrue, ◌↔◌, is_some, option_to_list};
ghost use Rattle.schema_kinds.specs.declared.record.Field.TheViews.{out-Field};
ghost use Rattle.record_layout.specs.Shapes.{form_of};
ghost use Rattle.storage_map.specs.Entries.{with_fields};
ghost use Rattle.storage_map.specs.Keys.{target_in as target_of_field, side_in, sides_of as sides_of_record, target_key as key_of_target, extent_at as extent_of_class};
ghost use Rattle.world_audit.specs.Faults.{entry_of_side};
ghost use Rattle.world_audit.specs.Sides.{side_seen, sides_with, IsFoundAt, IsMetIn, IsSideIn, IsSideOfAny, IsOneOf, Notes};

use crate::firsts::id_sub;
use crate::found::{Finds, Found};
use crate::least::Least;
use obj_kinds::{ClassName, Id, NoMemory, Node, Text};
use schema_kinds::{Field, Key, Kind, Prop, Record, Schema};
use sqlite_items::Items;
use std::alloc::Global;
use storage_map::entry_node;

/// A one side of a record.
#[derive(Clone, Copy)]
pub(crate) struct OneSide<'a> {
    /// The property.
    pub name: &'a Text,
    /// The class that it is declared with.
    pub class: &'a ClassName,
    /// Its field, which has the target.
    pub field: &'a Field,
}

/// The whole records among which targets are looked for.
#[derive(Clone, Copy)]
pub(crate) struct Among<'a> {
    /// The schema of their classes.
    pub schema: &'a Schema,
    /// The records.
    pub finds: &'a Finds,
}

fn is_stored(kind: &Kind) -> bool
    ensures { result ≡ is_some (form_of kind.now) }
{
    match kind {
        Kind::Many(_, _) => false,
        _ => true,
    }
}

// A property with its field, and the properties and fields behind them.
#[derive(Clone, Copy)]
struct Valued<'a> {
    prop: &'a Prop,
    field: &'a Field,
    props: &'a [Prop],
    fields: &'a [Field],
}

// The first property that has a field.
fn next_valued<'a>(props: &'a [Prop], fields: &'a [Field]) -> Option<Valued<'a>>
    ensures some { IfSome result (λ v. with_fields props.now fields.now ≡ (v.prop.now, v.field.now) ∷ with_fields v.props.now v.fields.now) }
    ensures none { IfNone result (with_fields props.now fields.now ≡ []) }
{
    let mut props = props;
    while let Some((prop, rest)) = props.split_first() {
        props = rest;
        if is_stored(&prop.kind) {
            let (field, fields) = fields.split_first()?;
            return Some(Valued {
                prop,
                field,
                props,
                fields,
            });
        }
    }
    None
}

fn target_in(field: &Field) -> Option<Id>
    ensures { result ≡ target_of_field (out-Field field.now) }
{
    match field {
        Field::Target(id) => *id,
        Field::Plain(_) => None,
        Field::Part(_) => None,
        Field::List(_) => None,
        Field::Map(_) => None,
    }
}

fn push_side<'a>(
    sides: &mut Vec<OneSide<'a>>,
    prop: &'a Prop,
    field: &'a Field,
) -> Result<(), NoMemory>
    ensures { OnOk result (map side_seen sides.new.items ≡ map side_seen sides.old.items ++ option_to_list (side_in (prop.now, field.now) prop.now.kind)) }
{
    if let Kind::One(class, _) = &prop.kind {
        sides.push(OneSide {
            name: &prop.name,
            class,
            field,
        })?;
    }
    Ok(())
}

fn sides_in<'a>(
    alloc: Global,
    props: &'a [Prop],
    fields: &'a [Field],
) -> Result<Vec<OneSide<'a>>, NoMemory>
    ensures { IfOk result (λ sides. map side_seen sides.items ≡ sides_with (with_fields props.now fields.now)) }
{
    let mut sides = Vec::new(alloc);
    let mut props = props;
    let mut fields = fields;
    while let Some(next) = next_valued(props, fields) {
        push_side(&mut sides, next.prop, next.field)?;
        props = next.props;
        fields = next.fields;
    }
    Ok(sides)
}

// The one sides of a record, in order.
fn sides_of<'a>(
    alloc: Global,
    schema: &'a Schema,
    record: &'a Record,
) -> Result<Vec<OneSide<'a>>, NoMemory>
    ensures { IfOk result (λ sides. map side_seen sides.items ≡ sides_of_record schema.now «record».now) }
{
    match schema.class(&record.class) {
        None => Ok(Vec::new(alloc)),
        Some(class) => sides_in(alloc, class.props.as_slice(), record.fields.as_slice()),
    }
}

fn extent_at<'a>(schema: &'a Schema, class: &'a ClassName) -> &'a ClassName
    ensures { result.now ≡ extent_of_class schema.now class.now }
{
    match schema.extent(class) {
        Some(extent) => extent,
        None => class,
    }
}

fn target_key(alloc: Global, schema: &Schema, class: &ClassName, id: &Id) -> Result<Key, NoMemory>
    ensures { IfOk result (λ key. key ≡ key_of_target schema.now class.now id.now) }
{
    let extent = extent_at(schema, class).copy(alloc)?;
    Ok(Key { extent, id: *id })
}

// Whether the key has a whole record of a class at or below that of the side.
#[tactic(auto, unfolding(schema_kinds::specs::Worlds::key_cmp))]
fn is_found_at(among: &Among<'_>, key: &Key, side: &OneSide<'_>) -> bool
    ensures { IsTrue result ↔ IsFoundAt among.now.schema.now among.now.finds.now.entries key.now (side_seen side.now) }
{
    match among.finds.get(key) {
        None => false,
        Some(Found::Broken(_)) => false,
        Some(Found::Whole(record)) => among.schema.is_below(&record.class, side.class),
    }
}

// Whether the side has its target, or needs none.
fn is_met(
    alloc: Global,
    among: &Among<'_>,
    side: &OneSide<'_>,
    target: Option<Id>,
) -> Result<bool, NoMemory>
    ensures { IfOk result (λ met. IsTrue met ↔ IsMetIn among.now.schema.now among.now.finds.now.entries (side_seen side.now) target) }
{
    match target {
        None => Ok(true),
        Some(id) => {
            let key = target_key(alloc, among.schema, side.class, &id)?;
            Ok(is_found_at(among, &key, side))
        }
    }
}

// The entry of a one side with a target.
fn side_entry(alloc: Global, key: &Key, name: &Text, id: &Id) -> Result<Node, NoMemory>
    ensures { IfOk result (λ entry. entry ≡ entry_of_side key.now name.now id.now) }
{
    let mut values = Items::new(alloc);
    values.push(id_sub(alloc, id)?)?;
    entry_node(alloc, key, name, values)
}

// Notes the entry of the side, where it lacks its target.
fn note_side(
    alloc: Global,
    among: &Among<'_>,
    key: &Key,
    side: &OneSide<'_>,
    least: &mut Least,
) -> Result<(), NoMemory>
    ensures { OnOk result (Notes among.now.schema.now among.now.finds.now.entries (IsOneOf key.now (side_seen side.now ∷ [])) least.old least.new) }
{
    let target = target_in(side.field);
    if is_met(alloc, among, side, target)? {
        return Ok(());
    }
    match target {
        None => Ok(()),
        Some(id) => {
            least.note(side_entry(alloc, key, side.name, &id)?);
            Ok(())
        }
    }
}

fn note_sides(
    alloc: Global,
    among: &Among<'_>,
    key: &Key,
    sides: &[OneSide<'_>],
    least: &mut Least,
) -> Result<(), NoMemory>
    ensures { OnOk result (Notes among.now.schema.now among.now.finds.now.entries (IsOneOf key.now (map side_seen sides.now)) least.old least.new) }
{
    for side in sides {
        note_side(alloc, among, key, side, least)?;
    }
    Ok(())
}

fn note_sides_of(
    alloc: Global,
    among: &Among<'_>,
    key: &Key,
    found: &Found,
    least: &mut Least,
) -> Result<(), NoMemory>
    ensures { OnOk result (Notes among.now.schema.now among.now.finds.now.entries (IsSideIn among.now.schema.now (key.now, found.now)) least.old least.new) }
{
    match found {
        Found::Broken(_) => Ok(()),
        Found::Whole(record) => {
            let sides = sides_of(alloc, among.schema, record)?;
            note_sides(alloc, among, key, sides.as_slice(), least)
        }
    }
}

/// Notes the entries of one sides without a target in a class at or below the declared one. It fails only for want of
/// memory.
pub(crate) fn note_untargeted(
    alloc: Global,
    among: &Among<'_>,
    least: &mut Least,
) -> Result<(), NoMemory>
    ensures { OnOk result (Notes among.now.schema.now among.now.finds.now.entries (IsSideOfAny among.now.schema.now among.now.finds.now.entries) least.old least.new) }
{
    for (key, found) in among.finds {
        note_sides_of(alloc, among, key, found, least)?;
    }
    Ok(())
}
