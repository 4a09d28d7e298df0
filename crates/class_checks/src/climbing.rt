ghost use Rattle.std.specs.Prelude.{◌≡◌, List, ◌++◌, filter_map, option_to_list, IfOk, OnOk, option_and_then};
ghost use Rattle.std.specs.List.{list_any};
ghost use Rattle.schema_kinds.specs.Links.{mark_at};
ghost use Rattle.class_facts.specs.Trees.{prop_at};
ghost use Rattle.class_facts.specs.Facts.{seen};
ghost use Rattle.class_checks.specs.Reasons.{part_place, part_by, part_of};
ghost use Rattle.class_checks.specs.Climbing.{all_true, any_marks, climb_marks};

use class_facts::{Spot, Tables, makes_parts, prop_at_spot, sort_at};
use obj_kinds::{ClassName, NoMemory};
use schema_kinds::{ClassTree, Form, Hierarchy, Marks, is_marked};
use sqlite_items::Items;
use std::alloc::Global;

fn any_marked(marks: &[bool], places: &[usize]) -> bool
    ensures { result ≡ list_any (mark_at marks.now) places.now }
{
    places.iter().any(|place| is_marked(marks, *place))
}

fn all_marked(alloc: Global, links: &[Items<usize>]) -> Result<Marks, NoMemory>
    ensures { IfOk result (λ marks. marks ≡ all_true links.now) }
{
    let mut marks = Items::new(alloc);
    for _row in links {
        marks.push(true)?;
    }
    Ok(marks)
}

fn marks_below(alloc: Global, links: &[Items<usize>], above: &[bool]) -> Result<Marks, NoMemory>
    ensures { IfOk result (λ marks. marks ≡ any_marks above.now links.now) }
{
    let mut marks = Items::new(alloc);
    for row in links {
        marks.push(any_marked(above, row.as_slice()))?;
    }
    Ok(marks)
}

/// Marks the places from which some way of so many steps leads up.
pub fn mark_climbs(alloc: Global, links: &[Items<usize>], steps: usize) -> Result<Marks, NoMemory>
    ensures { IfOk result (λ marks. marks ≡ climb_marks steps links.now) }
{
    let mut marks = all_marked(alloc, links)?;
    for _step in 0..steps {
        marks = marks_below(alloc, links, marks.as_slice())?;
    }
    Ok(marks)
}

fn find_part(hierarchy: &Hierarchy, tables: &Tables, name: &ClassName) -> Option<usize>
    ensures { result ≡ part_place (seen hierarchy.now tables.now) name.now }
{
    match hierarchy.names.place(&name.0) {
        Some(place) => if makes_parts(sort_at(hierarchy, tables, place)) {
            Some(place)
        } else {
            None
        },
        None => None,
    }
}

fn part_in(hierarchy: &Hierarchy, tables: &Tables, of: &ClassName, form: &Form) -> Option<usize>
    ensures { result ≡ part_by (seen hierarchy.now tables.now) of.now form.now }
{
    match form {
        Form::Single => find_part(hierarchy, tables, of),
        Form::List => find_part(hierarchy, tables, of),
        Form::Array => find_part(hierarchy, tables, of),
        Form::Relation { .. } => None,
    }
}

fn part_at(trees: &[ClassTree], hierarchy: &Hierarchy, tables: &Tables, spot: Spot) -> Option<usize>
    ensures { result ≡ option_and_then (part_of (seen hierarchy.now tables.now)) (prop_at trees.now spot) }
{
    match prop_at_spot(trees, spot) {
        Some(prop) => part_in(hierarchy, tables, &prop.of, &prop.form),
        None => None,
    }
}

fn push_part(
    trees: &[ClassTree],
    hierarchy: &Hierarchy,
    tables: &Tables,
    spot: Spot,
    parts: &mut Items<usize>,
) -> Result<(), NoMemory>
    ensures { OnOk result (parts.new ≡ parts.old ++ option_to_list (option_and_then (part_of (seen hierarchy.now tables.now)) (prop_at trees.now spot))) }
{
    if let Some(part) = part_at(trees, hierarchy, tables, spot) {
        parts.push(part)?;
    }
    Ok(())
}

/// The classes of the parts that these properties have.
pub fn find_parts(
    alloc: Global,
    trees: &[ClassTree],
    hierarchy: &Hierarchy,
    tables: &Tables,
    spots: &[Spot],
) -> Result<Items<usize>, NoMemory>
    ensures { IfOk result (λ parts. parts ≡ filter_map (λ s. option_and_then (part_of (seen hierarchy.now tables.now)) (prop_at trees.now s)) spots.now) }
{
    let mut parts = Items::new(alloc);
    for spot in spots {
        push_part(trees, hierarchy, tables, *spot, &mut parts)?;
    }
    Ok(parts)
}
