ghost use Rattle.std.specs.Prelude.{◌≡◌, ◌++◌, ◌∷◌, [], drop, map, is_some, IfOk, OnOk, IfSome, IfNone};
ghost use Rattle.std.specs.Option.{option_copied};
ghost use Rattle.schema_kinds.specs.Classes.{class_of};
ghost use Rattle.schema_kinds.specs.declared.record.Field.TheViews.{out-Field};
ghost use Rattle.record_layout.specs.Shapes.{form_of};
ghost use Rattle.storage_map.specs.Entries.{props_in, with_fields};
ghost use Rattle.storage_map.specs.Keys.{target_in as target_of_field};
ghost use Rattle.object_calls.specs.Keys.{same_target};
ghost use Rattle.save_works.specs.Works.{first_in, one_side_moved, side_seen, side_with, sides_by, sides_moved_of, targets_before, targets_in};

use crate::work::Work;
use obj_kinds::{ClassName, Id, NoMemory, Text};
use schema_kinds::{Field, Kind, Prop, Record, Schema};
use sqlite_items::Items;
use std::alloc::Global;

/// A one side whose target changes: the class that it is declared with, and the old and the new target.
#[derive(Drop)]
pub struct MovedSide {
    pub name: Text,
    pub class: ClassName,
    pub old: Option<Id>,
    pub new: Option<Id>,
}

/// The targets of one sides, in order.
type Targets = Items<Option<Id>>;

// The properties of the class of a record.
fn props_of<'a>(schema: &'a Schema, kept: &Record) -> &'a [Prop]
    ensures { result.now ≡ props_in (class_of schema.now kept.now.class) }
{
    match schema.class(&kept.class) {
        None => &[],
        Some(class) => class.props.as_slice(),
    }
}

fn is_stored(kind: &Kind) -> bool
    ensures { result ≡ is_some (form_of kind.now) }
{
    match kind {
        Kind::Many(_, _) => false,
        _ => true,
    }
}

// A property with its field, and the properties and fields behind them.
#[derive(Clone, Copy)]
struct Valued<'a> {
    prop: &'a Prop,
    field: &'a Field,
    props: &'a [Prop],
    fields: &'a [Field],
}

// The first property that has a field.
fn next_valued<'a>(props: &'a [Prop], fields: &'a [Field]) -> Option<Valued<'a>>
    ensures some { IfSome result (λ v. with_fields props.now fields.now ≡ (v.prop.now, v.field.now) ∷ with_fields v.props.now v.fields.now) }
    ensures none { IfNone result (with_fields props.now fields.now ≡ []) }
{
    let mut props = props;
    while let Some((prop, rest)) = props.split_first() {
        props = rest;
        if is_stored(&prop.kind) {
            let (field, fields) = fields.split_first()?;
            return Some(Valued {
                prop,
                field,
                props,
                fields,
            });
        }
    }
    None
}

fn target_in(field: &Field) -> Option<Id>
    ensures { result ≡ target_of_field (out-Field field.now) }
{
    match field {
        Field::Target(id) => *id,
        Field::Plain(_) => None,
        Field::Part(_) => None,
        Field::List(_) => None,
        Field::Map(_) => None,
    }
}

fn push_target(prop: &Prop, field: &Field, targets: &mut Targets) -> Result<(), NoMemory>
    ensures { OnOk result (targets.new ≡ targets.old ++ targets_in ((prop.now, field.now) ∷ [])) }
{
    match &prop.kind {
        Kind::One(_, _) => {
            targets.push(target_in(field))?;
            Ok(())
        }
        _ => Ok(()),
    }
}

fn targets_of(alloc: Global, props: &[Prop], fields: &[Field]) -> Result<Targets, NoMemory>
    ensures { IfOk result (λ targets. targets ≡ targets_in (with_fields props.now fields.now)) }
{
    let mut targets = Items::new(alloc);
    let mut props = props;
    let mut fields = fields;
    while let Some(next) = next_valued(props, fields) {
        push_target(next.prop, next.field, &mut targets)?;
        props = next.props;
        fields = next.fields;
    }
    Ok(targets)
}

// The targets of the old record, where there is one.
fn old_targets(alloc: Global, work: &Work<'_>) -> Result<Targets, NoMemory>
    ensures { IfOk result (λ targets. targets ≡ targets_before work.now.schema.now (option_copied work.now.before)) }
{
    match work.before {
        None => Ok(Items::new(alloc)),
        Some(old) => targets_of(alloc, props_of(work.schema, old), old.fields.as_slice()),
    }
}

fn is_same_target(old: &Option<Id>, new: &Option<Id>) -> bool
    ensures { result ≡ same_target old.now new.now }
{
    match (old, new) {
        (None, None) => true,
        (Some(old), Some(new)) => old.is_same(new),
        _ => false,
    }
}

// The first of the targets, which is none where there is none.
fn first_target(olds: &[Option<Id>]) -> Option<Id>
    ensures { result ≡ first_in olds.now }
{
    match olds.first() {
        None => None,
        Some(old) => *old,
    }
}

// The targets behind the first.
fn behind(olds: &[Option<Id>]) -> &[Option<Id>]
    ensures { result.now ≡ drop 1 olds.now }
{
    match olds.split_first() {
        None => olds,
        Some((_, rest)) => rest,
    }
}

fn push_moved(
    alloc: Global,
    name: &Text,
    class: &ClassName,
    old: Option<Id>,
    new: Option<Id>,
    moved: &mut Items<MovedSide>,
) -> Result<(), NoMemory>
    ensures { OnOk result (map side_seen moved.new ≡ map side_seen moved.old ++ one_side_moved old (side_with name.now class.now new)) }
{
    if is_same_target(&old, &new) {
        return Ok(());
    }
    let name = name.copy(alloc)?;
    let class = class.copy(alloc)?;
    moved.push(MovedSide {
        name,
        class,
        old,
        new,
    })?;
    Ok(())
}

// Those of the new record's sides whose targets differ from the old ones.
fn moved_from(
    alloc: Global,
    props: &[Prop],
    fields: &[Field],
    olds: &[Option<Id>],
) -> Result<Items<MovedSide>, NoMemory>
    ensures { IfOk result (λ moved. map side_seen moved ≡ sides_by olds.now (with_fields props.now fields.now)) }
{
    let mut moved = Items::new(alloc);
    let mut props = props;
    let mut fields = fields;
    let mut rest = olds;
    while let Some(next) = next_valued(props, fields) {
        props = next.props;
        fields = next.fields;
        if let Kind::One(class, _) = &next.prop.kind {
            let old = first_target(rest);
            push_moved(
                alloc,
                &next.prop.name,
                class,
                old,
                target_in(next.field),
                &mut moved,
            )?;
            rest = behind(rest);
        }
    }
    Ok(moved)
}

/// The one sides whose target changes, in order; an object that is new had none. It fails only for want of memory.
#[tactic(auto, using(crate::proofs::MovedLaws::sides_are))]
pub fn moved_sides(alloc: Global, work: &Work<'_>) -> Result<Items<MovedSide>, NoMemory>
    ensures { IfOk result (λ moved. map side_seen moved ≡ sides_moved_of work.now.schema.now (option_copied work.now.before) work.now.after.now) }
{
    let olds = old_targets(alloc, work)?;
    moved_from(
        alloc,
        props_of(work.schema, work.after),
        work.after.fields.as_slice(),
        olds.as_slice(),
    )
}
