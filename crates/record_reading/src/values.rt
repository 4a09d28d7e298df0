ghost use Rattle.std.specs.Prelude.{◌≡◌, IfOk, IfSome, IfNone, Option, None};
ghost use Rattle.std.specs.Option.{option_copied, option_map};
ghost use Rattle.obj_kinds.specs.declared.value.Value.TheViews.{out-Value};
ghost use Rattle.record_layout.specs.Shapes.{row_forms};
ghost use Rattle.record_layout.specs.Items.{row_field};
ghost use Rattle.record_layout.specs.Inverse.{each_read};
ghost use Rattle.record_layout.specs.Reading.{items_of, fields_in as fields_of, element_at as element_of};
ghost use Rattle.record_reading.specs.Rows.{items_behind as behind};

use obj_kinds::{NoMemory, Value};
use record_layout::{element_in, fields_in};
use schema_kinds::{Field, Fields, Item, Prop, Schema};
use std::alloc::Global;

/// How deep serial parts nest at most.
const NESTING: usize = 4;

/// The fields that stand in rows, one for each property that does, where these are their items; `None` where
/// they have another number or form. It fails only for want of memory.
#[tactic(auto, unfolding(record_layout::specs::Items::row_field))]
pub fn row_fields(
    alloc: Global,
    schema: &Schema,
    props: &[Prop],
    items: &[Value],
) -> Result<Option<Fields>, NoMemory>
    ensures { IfOk result (λ fields. fields ≡ each_read (row_field schema.now) (row_forms props.now) items.now) }
{
    fields_in(alloc, schema, NESTING, props, items)
}

/// The fields of a list below a row, where this stands at its node; `None` where it is missing or has the wrong
/// form. It fails only for want of memory.
pub fn list_fields(
    alloc: Global,
    schema: &Schema,
    props: &[Prop],
    value: Option<&Value>,
) -> Result<Option<Fields>, NoMemory>
    ensures { IfOk result (λ fields. fields ≡ fields_of schema.now (row_forms props.now) (option_copied value.entry)) }
{
    match value {
        None => Ok(None),
        Some(Value::Str(_)) => Ok(None),
        Some(Value::List(items)) => row_fields(alloc, schema, props, items.as_slice()),
    }
}

/// The element of an array, where this stands at its node; `None` where it is missing or has the wrong form. It
/// fails only for want of memory.
#[tactic(auto, unfolding(record_layout::specs::Items::row_field))]
pub fn array_element(
    alloc: Global,
    schema: &Schema,
    item: &Item,
    value: Option<&Value>,
) -> Result<Option<Field>, NoMemory>
    ensures { IfOk result (λ field. field ≡ element_of schema.now item.now (option_copied value.entry)) }
{
    match value {
        None => Ok(None),
        Some(value) => element_in(alloc, schema, NESTING, item, value),
    }
}

/// The items of a row behind its marker.
pub fn items_behind(row: &Value) -> &[Value]
    ensures { result.now ≡ behind row.now }
{
    match row {
        Value::Str(_) => &[],
        Value::List(items) => match items.as_slice().split_first() {
            None => &[],
            Some((_, rest)) => rest,
        },
    }
}
