ghost use Rattle.std.specs.Prelude.{ℕ, ◌≡◌, ◌≢◌, ◌↔◌, List, None, IfErr, IfOk, IsTrue};
ghost use Rattle.obj_kinds.specs.declared.value.Value.TheViews.{out-Value};
ghost use Rattle.schema_kinds.specs.declared.class.Class.{Class};
ghost use Rattle.oref_table.specs.Filling.{IsHeldFor, slot_from};
ghost use Rattle.oref_table.specs.declared.fill.Fill.TheVariants.{Nothing};
ghost use Rattle.oref_table.specs.declared.slot.Slot.TheViews.{out-Slot};
ghost use Rattle.obj_shape.specs.Fitting.{IsElement, TableFits};
ghost use Rattle.prop_setting.specs.Elements.{IsEmptyText, IsText, MayStand, ObjectTakes, Takes, ValueTakes, error_of as error_for, standing, value_standing};
ghost use Rattle.prop_setting.specs.Fits.{AreNamed};
ghost use Rattle.prop_setting.specs.Sets.{IsGiven};
ghost use Rattle.prop_setting.specs.Standings.{IsHeldBack, IsNoCopy, IsPlainFilling, IsStanding, object_filling};

use crate::set::{is_below, is_nothing, is_of};
use crate::texts::oref_text;
use obj_kinds::{ErrorName, NoMemory, Value};
use oref_table::{Fill, Held, Table};
use schema_kinds::{Item, Schema};
use std::alloc::Global;

/// What is to stand as an element, and the hold that is given back once it stands there.
pub struct Stand {
    pub filling: Fill,
    pub back: Option<Held>,
}

fn is_text(value: &Value) -> bool
    ensures { IsTrue result ↔ IsText (out-Value value.now) }
{
    match value {
        Value::Str(_) => true,
        Value::List(_) => false,
    }
}

fn value_takes(with: &Fill) -> bool
    ensures { IsTrue result ↔ ValueTakes with.now }
{
    match with {
        Fill::Plain(value) => is_text(value),
        Fill::To(_) => true,
        Fill::Target(_) => false,
        Fill::Nothing => false,
    }
}

fn object_stands(table: &Table, schema: &Schema, item: &Item, held: &Held) -> bool
    ensures { IsTrue result ↔ MayStand schema.now table.now item.now held.now.number }
{
    match item {
        Item::Text => false,
        Item::Whole => false,
        Item::Truth => false,
        Item::Ref(class) => is_below(table, schema, class, held.oref()),
        Item::Serial(class) => is_of(table, class, held.oref()),
    }
}

fn object_takes(table: &Table, schema: &Schema, item: &Item, with: &Fill) -> bool
    ensures { IsTrue result ↔ ObjectTakes schema.now table.now item.now with.now }
{
    match with {
        Fill::Plain(value) => is_nothing(value),
        Fill::To(held) => object_stands(table, schema, item, held),
        Fill::Target(_) => false,
        Fill::Nothing => false,
    }
}

/// Whether an element takes this.
pub fn takes(table: &Table, schema: &Schema, item: &Item, with: &Fill) -> bool
    ensures { IsTrue result ↔ Takes schema.now table.now item.now with.now }
{
    match item {
        Item::Text => value_takes(with),
        Item::Whole => value_takes(with),
        Item::Truth => value_takes(with),
        Item::Ref(_) => object_takes(table, schema, item, with),
        Item::Serial(_) => object_takes(table, schema, item, with),
    }
}

/// The error of what an element doesn't take.
pub fn error_of(item: &Item) -> ErrorName
    ensures { result ≡ error_for item.now }
{
    match item {
        Item::Text => ErrorName::List,
        Item::Whole => ErrorName::List,
        Item::Truth => ErrorName::List,
        Item::Ref(_) => ErrorName::CannotSetThisProperty,
        Item::Serial(_) => ErrorName::CannotSetThisProperty,
    }
}

fn value_stand(alloc: Global, table: &Table, with: Fill) -> Result<Stand, Fill>
    ensures ok { IfOk result (λ s. (s.filling ≡ (value_standing table.now with).filling) × (s.back ≡ (value_standing table.now with).back)) }
    ensures held { IfOk result (λ s. IsHeldFor table.now with → IsHeldFor table.now s.filling × IsHeldBack table.now s.filling s.back) }
    ensures fits { IfOk result (λ s. (classes : List Class) → AreNamed classes → TableFits classes table.now → IsGiven with → ValueTakes with → IsPlainFilling s.filling) }
    ensures some { IfOk result (λ s. IsGiven with → s.filling ≢ Nothing) }
    ensures err { IfErr result (λ back. back ≡ with) }
{
    match with {
        Fill::To(held) => match oref_text(alloc, table, held.oref()) {
            Ok(text) => Ok(Stand {
                filling: Fill::Plain(Value::Str(text)),
                back: Some(held),
            }),
            Err(NoMemory) => Err(Fill::To(held)),
        },
        other => Ok(Stand {
            filling: other,
            back: None,
        }),
    }
}

fn object_stand(with: Fill) -> Stand
    ensures filling { result.filling ≡ object_filling with }
    ensures back { result.back ≡ None }
{
    match with {
        Fill::Plain(_) => Stand {
            filling: Fill::Target(None),
            back: None,
        },
        other => Stand {
            filling: other,
            back: None,
        },
    }
}

/// What is to stand as an element that takes this, and is no copy of a part. For want of memory it hands it back.
pub fn to_stand(alloc: Global, table: &Table, item: &Item, with: Fill) -> Result<Stand, Fill>
    requires { IsNoCopy item.now with }
    ensures ok { IfOk result (λ s. (classes : List Class) (level : ℕ) → IsStanding (standing classes table.now level item.now with) table.now s) }
    ensures held { IfOk result (λ s. IsHeldFor table.now with → IsHeldFor table.now s.filling × IsHeldBack table.now s.filling s.back) }
    ensures fits { IfOk result (λ s. (classes : List Class) → AreNamed classes → TableFits classes table.now → IsGiven with → Takes classes table.now item.now with → IsElement classes table.now item.now (out-Slot (slot_from s.filling))) }
    ensures some { IfOk result (λ s. IsGiven with → s.filling ≢ Nothing) }
    ensures err { IfErr result (λ back. back ≡ with) }
{
    match item {
        Item::Text => value_stand(alloc, table, with),
        Item::Whole => value_stand(alloc, table, with),
        Item::Truth => value_stand(alloc, table, with),
        Item::Ref(_) => Ok(object_stand(with)),
        Item::Serial(_) => Ok(object_stand(with)),
    }
}
