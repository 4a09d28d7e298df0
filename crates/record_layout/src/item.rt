ghost use Rattle.std.specs.Prelude.{◌≡◌, [], IfOk, map};
ghost use Rattle.record_layout.specs.Items.{item as item_for};

use obj_kinds::{NoMemory, Text, Value, Values};
use schema_kinds::Field;
use sqlite_items::Items;
use std::alloc::Global;

fn nothing(alloc: Global) -> Value
    ensures { result ≡ Value.Str [] }
{
    Value::Str(Text::new(alloc))
}

/// The item of a field in its row. It fails only for want of memory.
#[cycle(item)]
pub fn item_of(alloc: Global, field: &Field) -> Result<Value, NoMemory>
    ensures { IfOk result (λ item. item ≡ item_for field.now) }
{
    match field {
        Field::Plain(text) => Ok(Value::Str(text.copy(alloc)?)),
        Field::Target(None) => Ok(nothing(alloc)),
        Field::Target(Some(id)) => Ok(Value::Str(id.text(alloc)?)),
        Field::Part(None) => Ok(nothing(alloc)),
        Field::Part(Some(fields)) => Ok(Value::List(items_of(alloc, fields.as_slice())?)),
        Field::List(fields) => {
            if fields.is_empty() {
                Ok(nothing(alloc))
            } else {
                Ok(Value::List(items_of(alloc, fields.as_slice())?))
            }
        }
        Field::Map(_) => Ok(nothing(alloc)),
    }
}

/// The items of the fields, in order. It fails only for want of memory.
#[cycle(item)]
pub fn items_of(alloc: Global, fields: &[Field]) -> Result<Values, NoMemory>
    ensures { IfOk result (λ items. items ≡ map item_for fields.now) }
{
    let mut items = Items::new(alloc);
    for field in fields {
        items.push(item_of(alloc, field)?)?;
    }
    Ok(items)
}
