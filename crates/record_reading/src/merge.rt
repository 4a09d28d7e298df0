ghost use Rattle.std.specs.Prelude.{◌≡◌, IfOk, reverse};
ghost use Rattle.record_layout.specs.Shapes.{forms_of};
ghost use Rattle.record_layout.specs.Reading.{merged as merged_by};

use obj_kinds::NoMemory;
use schema_kinds::{Field, FieldPairs, Fields, Kind, Prop};
use sqlite_items::Items;
use std::alloc::Global;

/// The arrays of a record, each its elements with their keys, in the order of the properties.
pub type Arrays = Items<FieldPairs>;

// The items from the last one on.
#[tactic(auto, using(crate::proofs::MergeLaws::turned_once))]
fn turned<T: Drop>(alloc: Global, items: Items<T>) -> Result<Items<T>, NoMemory>
    ensures { IfOk result (λ turned. turned ≡ reverse items) }
{
    let mut turned = Items::new(alloc);
    let mut rest = items;
    while let Some(item) = rest.pop() {
        turned.push(item)?;
    }
    Ok(turned)
}

// The fields from here on, where the last of those of the rows and of the arrays come first.
fn merge_turned(
    alloc: Global,
    props: &[Prop],
    own: Fields,
    maps: Arrays,
) -> Result<Fields, NoMemory>
    ensures { IfOk result (λ fields. fields ≡ merged_by (forms_of props.now) (reverse own) (reverse maps)) }
{
    let mut own = own;
    let mut maps = maps;
    let mut fields = Items::new(alloc);
    for prop in props {
        match &prop.kind {
            Kind::Many(_, _) => {}
            Kind::ArrayOf(_) => {
                let Some(pairs) = maps.pop() else {
                    return Ok(fields);
                };
                fields.push(Field::Map(pairs))?;
            }
            _ => {
                let Some(field) = own.pop() else {
                    return Ok(fields);
                };
                fields.push(field)?;
            }
        }
    }
    Ok(fields)
}

/// The fields of a record in the order of its properties: each array is the next of the arrays, and any other the
/// next of the rest. It fails only for want of memory.
pub fn merged(
    alloc: Global,
    props: &[Prop],
    own: Fields,
    arrays: Arrays,
) -> Result<Fields, NoMemory>
    ensures { IfOk result (λ fields. fields ≡ merged_by (forms_of props.now) own arrays) }
{
    let own = turned(alloc, own)?;
    let maps = turned(alloc, arrays)?;
    merge_turned(alloc, props, own, maps)
}
