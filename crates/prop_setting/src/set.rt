ghost use Rattle.std.specs.Prelude.{ℕ, List, ◌≡◌, ◌≤◌, ◌<◌, ◌↔◌, ◌∷◌, [], length, IfErr, IfNone, IfSome, OnOk, IsTrue, Some, None, Err, slice_get};
ghost use Rattle.oref_table.specs.Filling.{IsHeldFor};
ghost use Rattle.oref_table.specs.Memory.{IsLive, Object, object_of, outside_of};
ghost use Rattle.oref_table.specs.declared.slot.Slot.TheVariants.{Plain, Target, To};
ghost use Rattle.oref_table.specs.declared.fill.Fill.TheVariants as fill;
ghost use Rattle.obj_kinds.specs.declared.value.Value.TheViews.{out-Value};
ghost use Rattle.obj_kinds.specs.declared.error_name.ErrorName.TheVariants as error;
ghost use Rattle.schema_kinds.specs.declared.kind.Item.TheVariants as of;
ghost use Rattle.record_layout.specs.Shapes.{form_of, single};
ghost use Rattle.obj_shape.specs.Fitting.{TableFits};
ghost use Rattle.obj_shape.specs.Wholeness.{IsWhole};
ghost use Rattle.obj_props.specs.Changes.{HasSlot, let_gone};
ghost use Rattle.obj_props.specs.Contents.{IsLack};
ghost use Rattle.obj_props.specs.declared.got.ShapeError.TheVariants.{Script};
ghost use Rattle.prop_setting.specs.Elements.{IsEmptyText, IsText, MayStand, ObjectTakes, ValueTakes, given_back, copy_standing, part_standing, reference_standing, slot_set, stood, value_standing};
ghost use Rattle.prop_setting.specs.Sets.{FormRefuses, FormSets, IsGiven, PropRefuses, PropSets, Tells, props_in};
ghost use Rattle.part_copies.specs.Making.{copy_of};
ghost use Rattle.prop_setting.specs.Fits.{AreNamed, IsSlotOfForm, IsSlotOfKind, IsValue, TakesSlot};
ghost use Rattle.schema_kinds.specs.declared.class.Class.{Class};
ghost use Rattle.schema_kinds.specs.declared.kind.Item.{Item};

use crate::changes::{drop_given, let_go, put};
use crate::texts::oref_text;
use obj_kinds::{ClassName, ErrorName, Lack, NoMemory, Value};
use obj_props::{ShapeError, prop_place, soundness};
use obj_shape::props_of;
use oref_table::{Fill, Held, Oref, Table};
use part_copies::copy_object;
use schema_kinds::{Kind, Prop, Schema};
use std::alloc::Global;

/// Where something is set: a slot of an object.
#[derive(Clone, Copy)]
struct Spot<'a> {
    alloc: Global,
    schema: &'a Schema,
    oref: Oref,
    at: u32,
    /// The level of the object.
    level: u8,
}

/// Gives back what was to be set, which is refused.
pub fn refuse(table: &mut Table, with: Fill, error: ErrorName) -> Result<(), ShapeError>
    requires { IsHeldFor table.old with }
    ensures memory { table.new ≡ let_gone table.old with }
    ensures refused { result ≡ Err (Script error) }
    ensures fits { (classes : List Class) → TableFits classes table.old → TableFits classes table.new }
{
    drop_given(table, with);
    Err(ShapeError::Script(error))
}

fn set_plain(table: &mut Table, spot: &Spot<'_>, value: Value) -> Result<(), ShapeError>
    requires { HasSlot table.old spot.now.oref.0 spot.now.at }
    ensures ok { OnOk result (IsText (out-Value value) × (table.new ≡ slot_set table.old spot.now.oref.0 spot.now.at (Plain value) [])) }
    ensures err { IfErr result (λ e. (table.new ≡ table.old) × ((¬ IsText (out-Value value)) × (e ≡ Script error.List))) }
    ensures fits { (classes : List Class) → (IsText (out-Value value) → TakesSlot classes table.old spot.now.oref.0 spot.now.at (Plain value)) → TableFits classes table.old → TableFits classes table.new }
{
    match value {
        Value::Str(text) => {
            put(table, spot.oref, spot.at, Fill::Plain(Value::Str(text)));
            Ok(())
        }
        Value::List(_) => Err(ShapeError::Script(ErrorName::List)),
    }
}

fn set_oref_text(table: &mut Table, spot: &Spot<'_>, held: Held) -> Result<(), ShapeError>
    requires slot { HasSlot table.old spot.now.oref.0 spot.now.at }
    requires held { 0 < outside_of table.old held.number }
    ensures ok { OnOk result (table.new ≡ stood spot.now.oref.0 spot.now.at (λ s. s) (value_standing table.old (fill.To held))) }
    ensures err { IfErr result (λ e. (table.new ≡ given_back table.old (Some held)) × IsLack e) }
    ensures fits { (classes : List Class) (i : Item) → IsSlotOfForm classes table.old spot.now.oref.0 spot.now.at (single i) → IsValue i → AreNamed classes → TableFits classes table.old → TableFits classes table.new }
{
    match oref_text(spot.alloc, table, held.oref()) {
        Ok(text) => {
            put(table, spot.oref, spot.at, Fill::Plain(Value::Str(text)));
            let_go(table, held);
            Ok(())
        }
        Err(NoMemory) => {
            let_go(table, held);
            Err(ShapeError::Lack(Lack::Memory))
        }
    }
}

// A value takes a text, and the text of an OREF.
fn set_value(table: &mut Table, spot: &Spot<'_>, with: Fill) -> Result<(), ShapeError>
    requires slot { HasSlot table.old spot.now.oref.0 spot.now.at }
    requires held { IsHeldFor table.old with }
    ensures ok { OnOk result (ValueTakes with × (table.new ≡ stood spot.now.oref.0 spot.now.at (λ s. s) (value_standing table.old with))) }
    ensures err { IfErr result (λ e. (table.new ≡ let_gone table.old with) × Tells (λ n. (¬ ValueTakes with) × (n ≡ error.List)) e) }
    ensures fits { (classes : List Class) (i : Item) → IsSlotOfForm classes table.old spot.now.oref.0 spot.now.at (single i) → IsValue i → AreNamed classes → IsGiven with → TableFits classes table.old → TableFits classes table.new }
{
    match with {
        Fill::Plain(value) => set_plain(table, spot, value),
        Fill::To(held) => set_oref_text(table, spot, held),
        other => refuse(table, other, ErrorName::List),
    }
}

pub fn is_nothing(value: &Value) -> bool
    ensures { IsTrue result ↔ IsEmptyText (out-Value value.now) }
{
    match value {
        Value::Str(text) => text.is_empty(),
        Value::List(_) => false,
    }
}

fn set_nothing(table: &mut Table, spot: &Spot<'_>, value: Value) -> Result<(), ShapeError>
    requires { HasSlot table.old spot.now.oref.0 spot.now.at }
    ensures ok { OnOk result (IsEmptyText (out-Value value) × (table.new ≡ slot_set table.old spot.now.oref.0 spot.now.at (Target None) [])) }
    ensures err { IfErr result (λ e. (table.new ≡ table.old) × ((¬ IsEmptyText (out-Value value)) × (e ≡ Script error.CannotSetThisProperty))) }
    ensures fits { (classes : List Class) → TakesSlot classes table.old spot.now.oref.0 spot.now.at (Target None) → TableFits classes table.old → TableFits classes table.new }
{
    if is_nothing(&value) {
        put(table, spot.oref, spot.at, Fill::Target(None));
        return Ok(());
    }
    Err(ShapeError::Script(ErrorName::CannotSetThisProperty))
}

pub fn is_below(table: &Table, schema: &Schema, class: &ClassName, oref: Oref) -> bool
    ensures { IsTrue result ↔ MayStand schema.now table.now (of.Ref class.now) oref.0 }
{
    match table.get(oref) {
        Some(obj) => schema.is_below(&obj.class, class),
        None => false,
    }
}

fn set_object(
    table: &mut Table,
    spot: &Spot<'_>,
    class: &ClassName,
    held: Held,
) -> Result<(), ShapeError>
    requires slot { HasSlot table.old spot.now.oref.0 spot.now.at }
    requires held { 0 < outside_of table.old held.number }
    ensures ok { OnOk result (MayStand spot.now.schema.now table.old (of.Ref class.now) held.number × (table.new ≡ slot_set table.old spot.now.oref.0 spot.now.at (To (record { 0 = held.number })) (held.number ∷ []))) }
    ensures err { IfErr result (λ e. (table.new ≡ given_back table.old (Some held)) × ((¬ MayStand spot.now.schema.now table.old (of.Ref class.now) held.number) × (e ≡ Script error.CannotSetThisProperty))) }
    ensures fits { IsSlotOfForm spot.now.schema.now table.old spot.now.oref.0 spot.now.at (single (of.Ref class.now)) → TableFits spot.now.schema.now table.old → TableFits spot.now.schema.now table.new }
{
    if is_below(table, spot.schema, class, held.oref()) {
        put(table, spot.oref, spot.at, Fill::To(held));
        return Ok(());
    }
    let_go(table, held);
    Err(ShapeError::Script(ErrorName::CannotSetThisProperty))
}

// A reference takes an object of the class or of one below it, and nothing.
fn set_reference(
    table: &mut Table,
    spot: &Spot<'_>,
    class: &ClassName,
    with: Fill,
) -> Result<(), ShapeError>
    requires slot { HasSlot table.old spot.now.oref.0 spot.now.at }
    requires held { IsHeldFor table.old with }
    ensures ok { OnOk result (ObjectTakes spot.now.schema.now table.old (of.Ref class.now) with × (table.new ≡ stood spot.now.oref.0 spot.now.at (λ s. s) (reference_standing table.old with))) }
    ensures err { IfErr result (λ e. (table.new ≡ let_gone table.old with) × Tells (λ n. (¬ ObjectTakes spot.now.schema.now table.old (of.Ref class.now) with) × (n ≡ error.CannotSetThisProperty)) e) }
    ensures fits { IsSlotOfForm spot.now.schema.now table.old spot.now.oref.0 spot.now.at (single (of.Ref class.now)) → TableFits spot.now.schema.now table.old → TableFits spot.now.schema.now table.new }
{
    match with {
        Fill::Plain(value) => set_nothing(table, spot, value),
        Fill::To(held) => set_object(table, spot, class, held),
        other => refuse(table, other, ErrorName::CannotSetThisProperty),
    }
}

pub fn is_of(table: &Table, class: &ClassName, oref: Oref) -> bool
    ensures { (classes : List Class) → IsTrue result ↔ MayStand classes table.now (of.Serial class.now) oref.0 }
{
    match table.get(oref) {
        Some(obj) => obj.class.0.is_same(&class.0),
        None => false,
    }
}

// A copy of the object stands in the slot, and then its hold goes.
fn put_copy(table: &mut Table, spot: &Spot<'_>, held: Held) -> Result<(), ShapeError>
    requires slot { HasSlot table.old spot.now.oref.0 spot.now.at }
    requires live { IsLive table.old held.number }
    requires held { 0 < outside_of table.old held.number }
    requires whole { IsWhole spot.now.schema.now }
    requires fits { TableFits spot.now.schema.now table.old }
    requires level { spot.now.level ≤ 4 }
    ensures ok { (o : Object) → object_of held.number table.old.objects ≡ Some o → OnOk result (table.new ≡ stood spot.now.oref.0 spot.now.at (λ s. s) (copy_standing table.old (copy_of spot.now.schema.now table.old spot.now.level o) held)) }
    ensures err { IfErr result (λ e. (table.new ≡ given_back table.old (Some held)) × IsLack e) }
    ensures fits { (o : Object) → object_of held.number table.old.objects ≡ Some o → IsSlotOfForm spot.now.schema.now table.old spot.now.oref.0 spot.now.at (single (of.Serial o.class)) → TableFits spot.now.schema.now table.new }
{
    soundness(table);
    match copy_object(spot.alloc, table, spot.schema, spot.level, held.oref()) {
        Ok(copy) => {
            put(table, spot.oref, spot.at, Fill::To(copy));
            let_go(table, held);
            Ok(())
        }
        Err(lack) => {
            let_go(table, held);
            Err(ShapeError::Lack(lack))
        }
    }
}

fn set_copy(
    table: &mut Table,
    spot: &Spot<'_>,
    class: &ClassName,
    held: Held,
) -> Result<(), ShapeError>
    requires slot { HasSlot table.old spot.now.oref.0 spot.now.at }
    requires held { 0 < outside_of table.old held.number }
    requires whole { IsWhole spot.now.schema.now }
    requires fits { TableFits spot.now.schema.now table.old }
    requires level { spot.now.level ≤ 4 }
    ensures ok { OnOk result (MayStand spot.now.schema.now table.old (of.Serial class.now) held.number × (table.new ≡ stood spot.now.oref.0 spot.now.at (λ s. s) (part_standing spot.now.schema.now table.old spot.now.level class.now (fill.To held)))) }
    ensures err { IfErr result (λ e. (table.new ≡ given_back table.old (Some held)) × Tells (λ n. (¬ MayStand spot.now.schema.now table.old (of.Serial class.now) held.number) × (n ≡ error.CannotSetThisProperty)) e) }
    ensures fits { IsSlotOfForm spot.now.schema.now table.old spot.now.oref.0 spot.now.at (single (of.Serial class.now)) → TableFits spot.now.schema.now table.new }
{
    if is_of(table, class, held.oref()) {
        return put_copy(table, spot, held);
    }
    let_go(table, held);
    Err(ShapeError::Script(ErrorName::CannotSetThisProperty))
}

// A part takes a copy of an object of its class, and nothing.
fn set_part(
    table: &mut Table,
    spot: &Spot<'_>,
    class: &ClassName,
    with: Fill,
) -> Result<(), ShapeError>
    requires slot { HasSlot table.old spot.now.oref.0 spot.now.at }
    requires held { IsHeldFor table.old with }
    requires whole { IsWhole spot.now.schema.now }
    requires fits { TableFits spot.now.schema.now table.old }
    requires level { spot.now.level ≤ 4 }
    ensures ok { OnOk result (ObjectTakes spot.now.schema.now table.old (of.Serial class.now) with × (table.new ≡ stood spot.now.oref.0 spot.now.at (λ s. s) (part_standing spot.now.schema.now table.old spot.now.level class.now with))) }
    ensures err { IfErr result (λ e. (table.new ≡ let_gone table.old with) × Tells (λ n. (¬ ObjectTakes spot.now.schema.now table.old (of.Serial class.now) with) × (n ≡ error.CannotSetThisProperty)) e) }
    ensures fits { IsSlotOfForm spot.now.schema.now table.old spot.now.oref.0 spot.now.at (single (of.Serial class.now)) → TableFits spot.now.schema.now table.new }
{
    match with {
        Fill::Plain(value) => set_nothing(table, spot, value),
        Fill::To(held) => set_copy(table, spot, class, held),
        other => refuse(table, other, ErrorName::CannotSetThisProperty),
    }
}

fn set_kind(table: &mut Table, spot: &Spot<'_>, kind: &Kind, with: Fill) -> Result<(), ShapeError>
    requires slot { HasSlot table.old spot.now.oref.0 spot.now.at }
    requires held { IsHeldFor table.old with }
    requires whole { IsWhole spot.now.schema.now }
    requires fits { TableFits spot.now.schema.now table.old }
    requires level { spot.now.level ≤ 4 }
    ensures ok { OnOk result (FormSets spot.now.schema.now table.old spot.now.oref.0 spot.now.at spot.now.level (form_of kind.now) with table.new) }
    ensures err { IfErr result (λ e. (table.new ≡ let_gone table.old with) × Tells (FormRefuses spot.now.schema.now table.old (form_of kind.now) with) e) }
    ensures fits { IsSlotOfKind spot.now.schema.now table.old spot.now.oref.0 spot.now.at kind.now → AreNamed spot.now.schema.now → IsGiven with → TableFits spot.now.schema.now table.new }
{
    match kind {
        Kind::Text => set_value(table, spot, with),
        Kind::Whole => set_value(table, spot, with),
        Kind::Truth => set_value(table, spot, with),
        Kind::Ref(class) => set_reference(table, spot, class, with),
        Kind::Serial(class) => set_part(table, spot, class, with),
        Kind::ListOf(_) => refuse(table, with, ErrorName::CannotSetThisProperty),
        Kind::ArrayOf(_) => refuse(table, with, ErrorName::CannotSetThisProperty),
        Kind::Many(_, _) => refuse(table, with, ErrorName::CannotSetThisProperty),
        Kind::One(class, _) => set_reference(table, spot, class, with),
    }
}

pub fn props_at<'a>(table: &Table, schema: &'a Schema, oref: Oref) -> &'a [Prop]
    ensures { (o : Object) → object_of oref.0 table.now.objects ≡ Some o → result.now ≡ props_in schema.now o }
{
    match table.get(oref) {
        Some(obj) => props_of(schema, &obj.class),
        None => &[],
    }
}

/// The level of an object.
pub fn level_at(table: &Table, oref: Oref) -> u8
    ensures { (o : Object) → object_of oref.0 table.now.objects ≡ Some o → result ≡ o.level }
{
    match table.get(oref) {
        Some(obj) => obj.level,
        None => 0,
    }
}

pub fn prop_in<'a>(props: &'a [Prop], at: usize) -> Option<&'a Prop>
    ensures some { IfSome result (λ prop. slice_get props.now at ≡ Some prop.now) }
    ensures none { IfNone result (slice_get props.now at ≡ None) }
{
    props.get(at)
}

/// Sets a property of a live object, and marks the object as modified. A value takes a text, and an OREF as the text that it
/// reads as; a reference and a one side take an object of the declared class or one below it, and the empty text, which
/// leaves nothing; a part takes a copy of an object of its class, with the parts in it (see `copy_object`), and the empty text. A
/// one side is set like a reference: its members are no matter of this call. What stood in the slot is let go,
/// and all that nothing holds from then on is released; then the hold of an object of which a text or a copy was set goes too.
///
/// The script errors: `<PROPERTY DOES NOT EXIST>` where the class has no such property, `<LIST>` where a value gets a list, and
/// `<CANNOT SET THIS PROPERTY>` where a reference or a part gets anything else, or the property is a collection or a many
/// side. At a refusal the hold of what was given is let go, which is the only change.
pub fn set_prop(
    alloc: Global,
    table: &mut Table,
    schema: &Schema,
    oref: Oref,
    name: &[u8],
    with: Fill,
) -> Result<(), ShapeError>
    requires whole { IsWhole schema.now }
    requires named { AreNamed schema.now }
    requires fits { TableFits schema.now table.old }
    requires live { IsLive table.old oref.0 }
    requires held { IsHeldFor table.old with }
    requires given { IsGiven with }
    ensures ok { OnOk result (PropSets schema.now table.old oref.0 name.now with table.new) }
    ensures err { IfErr result (λ e. (table.new ≡ let_gone table.old with) × Tells (PropRefuses schema.now table.old oref.0 name.now with) e) }
    ensures fits { TableFits schema.now table.new }
{
    let props = props_at(table, schema, oref);
    let Some(at) = prop_place(props, name) else {
        return refuse(table, with, ErrorName::PropertyDoesNotExist);
    };
    let Some(prop) = prop_in(props, at) else {
        return refuse(table, with, ErrorName::PropertyDoesNotExist);
    };
    let spot = Spot {
        alloc,
        schema,
        oref,
        at: at as u32,
        level: level_at(table, oref),
    };
    set_kind(table, &spot, &prop.kind, with)
}
