ghost use Rattle.std.specs.Prelude.{◌≡◌, Ok, Err, IfOk, IfErr, option_copied};
ghost use Rattle.obj_kinds.specs.Subscript.{IsWhole};
ghost use Rattle.os_value.specs.Answers.{Answers};
ghost use Rattle.os_value.specs.Lists.{built, items_in, item_at, item_of, count_of};

use crate::error::ValueError;
use crate::reading::number_answer;
use crate::texts::{before, place_or};
use obj_kinds::{ErrorName, Value, Values, copy_values};
use std::alloc::Global;

/// `$LISTBUILD(a,b)`: the list of these values. It is `<MAXSTRING>` where the list would pass the
/// limits of a value: a weight of 32,767, or 16 lists in one another.
pub fn fn_list_build(alloc: Global, items: &Values) -> Result<Value, ValueError>
    ensures { Answers result (built items.now) }
{
    let list = Value::List(copy_values(alloc, items.as_slice())?);
    if list.is_legal() {
        Ok(list)
    } else {
        Err(ValueError::Script(ErrorName::MaxString))
    }
}

/// The items of a list; the empty text has none, and any other text is no list.
fn items_of(value: &Value) -> Result<&[Value], ErrorName>
    ensures ok { IfOk result (λ items. items_in value.now ≡ Ok items.now) }
    ensures err { IfErr result (λ name. items_in value.now ≡ Err name) }
{
    match value {
        Value::List(items) => Ok(items.as_slice()),
        Value::Str(text) => {
            if text.is_empty() {
                Ok(&[])
            } else {
                Err(ErrorName::List)
            }
        }
    }
}

fn item_at(items: &[Value], place: i64) -> Result<&Value, ErrorName>
    requires { IsWhole place }
    ensures ok { IfOk result (λ item. item_at place items.now ≡ Ok item.now) }
    ensures err { IfErr result (λ name. item_at place items.now ≡ Err name) }
{
    if place < 1 {
        return Err(ErrorName::NullValue);
    }
    match items.get(before(place)) {
        Some(item) => Ok(item),
        None => Err(ErrorName::NullValue),
    }
}

/// `$LIST(l,i)`: item i of a list, counted from 1. A missing i is 1. It is `<NULL VALUE>` where the
/// list has no such item.
pub fn fn_list(alloc: Global, l: &Value, i: Option<&Value>) -> Result<Value, ValueError>
    ensures { Answers result (item_of l.now (option_copied i.entry)) }
{
    let items = items_of(l)?;
    let place = place_or(i, 1)?;
    let item = item_at(items, place)?;
    let value = item.copy(alloc)?;
    Ok(value)
}

/// `$LISTLENGTH(l)`: the number of items; the empty text has none.
pub fn fn_list_length(alloc: Global, l: &Value) -> Result<Value, ValueError>
    ensures { Answers result (count_of l.now) }
{
    let items = items_of(l)?;
    number_answer(alloc, Ok(items.len() as i64))
}
