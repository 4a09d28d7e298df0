ghost use Rattle.std.specs.Prelude.{◌≡◌, ◌++◌, ◌∷◌, ◌≤◌, [], map, reverse, drop, length, get_or, slice_get, IfOk, OnOk, Option, None};
ghost use Rattle.std.specs.List.{filter_map};
ghost use Rattle.std.specs.Option.{option_copied};
ghost use Rattle.schema_kinds.specs.Hierarchy.{chain, firsts_of, place_of};
ghost use Rattle.schema_kinds.specs.Classes.{headers_of};
ghost use Rattle.record_layout.specs.Shapes.{row_forms, is_row_kind, form_of};
ghost use Rattle.record_layout.specs.Layout.{line_of, own_props as props_behind, last_props as props_of_last};

use crate::reading::is_in_row;
use obj_kinds::{ClassName, NoMemory};
use schema_kinds::{Class, Prop, Schema};
use std::alloc::Global;

#[tactic(auto, using(crate::proofs::LineLaws::first_above))]
fn place_above(schema: &Schema, place: usize) -> Option<usize>
    ensures { result ≡ get_or (firsts_of (headers_of schema.now)) place None }
{
    match schema.classes().get(place) {
        Some(class) => match class.supers.as_slice().first() {
            Some(first) => schema.place(first),
            None => None,
        },
        None => None,
    }
}

fn push_class<'a>(
    schema: &'a Schema,
    place: usize,
    line: &mut Vec<&'a Class>,
) -> Result<(), NoMemory>
    ensures { OnOk result (map (λ c. c.now) line.new.items ≡ map (λ c. c.now) line.old.items ++ filter_map (slice_get schema.now) (place ∷ [])) }
{
    if let Some(class) = schema.classes().get(place) {
        line.push(class)?;
    }
    Ok(())
}

// The classes from the root down to the one at the place. The depth is that of superclasses, 16 at most.
#[tactic(auto, using(crate::proofs::LineLaws::line_alone, crate::proofs::LineLaws::line_under))]
fn push_line<'a>(
    schema: &'a Schema,
    most: usize,
    place: usize,
    line: &mut Vec<&'a Class>,
) -> Result<(), NoMemory>
    ensures { OnOk result (map (λ c. c.now) line.new.items ≡ map (λ c. c.now) line.old.items ++ filter_map (slice_get schema.now) (reverse (chain most (firsts_of (headers_of schema.now)) place))) }
{
    if most == 0 {
        return push_class(schema, place, line);
    }
    match place_above(schema, place) {
        None => push_class(schema, place, line),
        Some(above) => {
            push_line(schema, most - 1, above, line)?;
            push_class(schema, place, line)
        }
    }
}

/// The classes along first superclasses from the root of an extent down to the class; none where the schema
/// has no class of that name. It fails only for want of memory.
#[tactic(auto, unfolding(crate::specs::Layout::line_of))]
pub fn line_to<'a>(
    alloc: Global,
    schema: &'a Schema,
    class: &ClassName,
) -> Result<Vec<&'a Class>, NoMemory>
    ensures { IfOk result (λ line. map (λ c. c.now) line.items ≡ line_of schema.now class.now) }
{
    let mut line = Vec::new(alloc);
    if let Some(place) = schema.place(class) {
        push_line(schema, schema.classes().len(), place, &mut line)?;
    }
    Ok(line)
}

/// The properties of a class behind those of the class above it.
pub fn own_props<'a>(above: &Class, class: &'a Class) -> &'a [Prop]
    ensures { result.now ≡ props_behind above.now class.now }
{
    let props = class.props.as_slice();
    if above.props.len() < props.len() {
        props.split_at(above.props.len()).1
    } else {
        &[]
    }
}

/// How many of the properties stand in rows.
pub fn count_rows(props: &[Prop]) -> usize
    ensures value { result ≡ length (row_forms props.now) }
    ensures bound { result ≤ length props.now }
{
    match props.split_first() {
        None => 0,
        Some((prop, rest)) => {
            let count = count_rows(rest);
            if is_in_row(&prop.kind) {
                count + 1
            } else {
                count
            }
        }
    }
}
