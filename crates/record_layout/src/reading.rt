ghost use Rattle.std.specs.Prelude.{◌≡◌, ◌++◌, IfOk, Option, List, length, option_map};
ghost use Rattle.std.specs.Option.{option_and_then};
ghost use Rattle.obj_kinds.specs.declared.value.Value.TheViews.{out-Value};
ghost use Rattle.schema_kinds.specs.declared.class.Class.{Class};
ghost use Rattle.schema_kinds.specs.Classes.{class_of, props_of};
ghost use Rattle.record_layout.specs.Inverse.{all_read, each_read};
ghost use Rattle.record_layout.specs.Shapes.{Form, single, listed, keyed, form_of, row_forms, is_row_kind};
ghost use Rattle.record_layout.specs.Items.{target_in as target_for, plain_of, reference_of, serial_of, part_in as part_for, field_in as field_for};

use obj_kinds::{ClassName, Id, NoMemory, Value};
use schema_kinds::{Field, Fields, Item, Kind, Prop, Schema};
use sqlite_items::Items;
use std::alloc::Global;

/// How many parts the ids of an extent have.
const ID_LENGTH: usize = 1;

/// The target that a text names: nothing, or an id of the class's extent.
#[tactic(auto, using(crate::proofs::StepLaws::target_found, crate::proofs::StepLaws::target_long, crate::proofs::StepLaws::target_none))]
fn target_in(class: &ClassName, text: &[u8]) -> Option<Option<Id>>
    ensures { (classes : List Class) → result ≡ target_for classes class.now text.now }
{
    if text.is_empty() {
        return Some(None);
    }
    let id = Id::from_text(text)?;
    if id.len() == ID_LENGTH {
        Some(Some(id))
    } else {
        None
    }
}

/// Any text.
fn plain_in(alloc: Global, value: &Value) -> Result<Option<Field>, NoMemory>
    ensures { IfOk result (λ field. field ≡ plain_of (out-Value value.now)) }
{
    match value {
        Value::Str(text) => Ok(Some(Field::Plain(text.copy(alloc)?))),
        Value::List(_) => Ok(None),
    }
}

fn reference_in(class: &ClassName, value: &Value) -> Option<Field>
    ensures { (classes : List Class) → result ≡ reference_of classes class.now (out-Value value.now) }
{
    match value {
        Value::Str(text) => Some(Field::Target(target_in(class, text.as_slice())?)),
        Value::List(_) => None,
    }
}

#[cycle(reading)]
fn serial_in(
    alloc: Global,
    schema: &Schema,
    depth: usize,
    class: &ClassName,
    value: &Value,
) -> Result<Option<Field>, NoMemory>
    ensures { IfOk result (λ field. field ≡ serial_of (part_for depth schema.now) class.now (out-Value value.now)) }
{
    match value {
        Value::Str(text) => Ok(if text.is_empty() {
            Some(Field::Part(None))
        } else {
            None
        }),
        Value::List(values) => match part_in(alloc, schema, depth, class, values.as_slice())? {
            Some(fields) => Ok(Some(Field::Part(Some(fields)))),
            None => Ok(None),
        },
    }
}

/// The element whose item this is, where parts nest at most so deep.
#[cycle(reading)]
pub fn element_in(
    alloc: Global,
    schema: &Schema,
    depth: usize,
    item: &Item,
    value: &Value,
) -> Result<Option<Field>, NoMemory>
    ensures { IfOk result (λ field. field ≡ field_for depth schema.now (single item.now) value.now) }
{
    match item {
        Item::Text => plain_in(alloc, value),
        Item::Whole => plain_in(alloc, value),
        Item::Truth => plain_in(alloc, value),
        Item::Ref(class) => Ok(reference_in(class, value)),
        Item::Serial(class) => serial_in(alloc, schema, depth, class, value),
    }
}

#[cycle(reading)]
fn elements_in(
    alloc: Global,
    schema: &Schema,
    depth: usize,
    item: &Item,
    values: &[Value],
) -> Result<Option<Fields>, NoMemory>
    ensures { IfOk result (λ all. all ≡ all_read (field_for depth schema.now (single item.now)) values.now) }
{
    let mut fields = Items::new(alloc);
    for value in values {
        let Some(field) = element_in(alloc, schema, depth, item, value)? else {
            return Ok(None);
        };
        fields.push(field)?;
    }
    Ok(Some(fields))
}

#[cycle(reading)]
fn list_in(
    alloc: Global,
    schema: &Schema,
    depth: usize,
    item: &Item,
    value: &Value,
) -> Result<Option<Field>, NoMemory>
    ensures { IfOk result (λ field. field ≡ field_for depth schema.now (listed item.now) value.now) }
{
    match value {
        Value::Str(text) => Ok(if text.is_empty() {
            Some(Field::List(Items::new(alloc)))
        } else {
            None
        }),
        Value::List(values) => {
            if values.is_empty() {
                return Ok(None);
            }
            match elements_in(alloc, schema, depth, item, values.as_slice())? {
                Some(fields) => Ok(Some(Field::List(fields))),
                None => Ok(None),
            }
        }
    }
}

/// The field whose item this is; there is none where the kind has no items.
#[cycle(reading)]
pub fn field_in(
    alloc: Global,
    schema: &Schema,
    depth: usize,
    kind: &Kind,
    value: &Value,
) -> Result<Option<Field>, NoMemory>
    ensures { IfOk result (λ field. field ≡ option_and_then (λ form. field_for depth schema.now form value.now) (form_of kind.now)) }
{
    match kind {
        Kind::Text => plain_in(alloc, value),
        Kind::Whole => plain_in(alloc, value),
        Kind::Truth => plain_in(alloc, value),
        Kind::Ref(class) => Ok(reference_in(class, value)),
        Kind::One(class, _) => Ok(reference_in(class, value)),
        Kind::Serial(class) => serial_in(alloc, schema, depth, class, value),
        Kind::ListOf(item) => list_in(alloc, schema, depth, item, value),
        Kind::ArrayOf(_) => Ok(None),
        Kind::Many(_, _) => Ok(None),
    }
}

#[tactic(auto, using(crate::proofs::StepLaws::part_step))]
/// The fields of a part of the class.
#[cycle(reading)]
fn part_in(
    alloc: Global,
    schema: &Schema,
    depth: usize,
    class: &ClassName,
    values: &[Value],
) -> Result<Option<Fields>, NoMemory>
    ensures { IfOk result (λ fields. fields ≡ part_for depth schema.now class.now values.now) }
{
    if depth == 0 {
        return Ok(None);
    }
    match schema.class(class) {
        Some(class) => fields_in(alloc, schema, depth - 1, class.props.as_slice(), values),
        None => fields_in(alloc, schema, depth - 1, &[], values),
    }
}

/// Whether fields of the kind stand in rows.
pub fn is_in_row(kind: &Kind) -> bool
    ensures { result ≡ is_row_kind (form_of kind.now) }
{
    match kind {
        Kind::ArrayOf(_) => false,
        Kind::Many(_, _) => false,
        _ => true,
    }
}

/// The fields whose items these are, one for each property that stands in a row.
#[cycle(reading)]
pub fn fields_in(
    alloc: Global,
    schema: &Schema,
    depth: usize,
    props: &[Prop],
    values: &[Value],
) -> Result<Option<Fields>, NoMemory>
    ensures { IfOk result (λ all. all ≡ each_read (field_for depth schema.now) (row_forms props.now) values.now) }
{
    let mut fields = Items::new(alloc);
    let mut rest = values;
    for prop in props {
        if is_in_row(&prop.kind) {
            let Some((value, more)) = rest.split_first() else {
                return Ok(None);
            };
            let Some(field) = field_in(alloc, schema, depth, &prop.kind, value)? else {
                return Ok(None);
            };
            fields.push(field)?;
            rest = more;
        }
    }
    Ok(if rest.is_empty() { Some(fields) } else { None })
}
