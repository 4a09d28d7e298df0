ghost use Rattle.std.specs.Prelude.{◌≡◌, [], ◌∷◌, ◌++◌, ◌+◌, ◌<◌, ◌^◌, not, length, IfOk, Some, None, Option, IsTrue};
ghost use Rattle.std.specs.List.{list_any};
ghost use Rattle.schema_kinds.specs.Hierarchy.{same_text, names_of};
ghost use Rattle.class_facts.specs.Trees.{headers_of};
ghost use Rattle.class_facts.specs.Facts.{seen};
ghost use Rattle.class_link.specs.Passes.{IsFirstOf, IfNoneThen, first_repeated, ring_mark, super_reason, type_reason};

use crate::error::LinkWhy;
use class_checks::{any_unknown_super, any_unknown_type};
use class_facts::{Tables, supers_at, supers_named};
use obj_kinds::NoMemory;
use schema_kinds::{ClassTree, Header, Headers, Hierarchy, NameTable, copy_class_names};
use sqlite_items::Items;
use std::alloc::Global;

/// The headers of the classes.
pub fn find_headers(alloc: Global, trees: &[ClassTree]) -> Result<Headers, NoMemory>
    ensures { IfOk result (λ headers. headers ≡ headers_of trees.now) }
{
    let mut headers = Items::new(alloc);
    for tree in trees {
        let name = tree.name.copy(alloc)?;
        let supers = copy_class_names(alloc, tree.supers.as_slice())?;
        headers.push(Header { name, supers })?;
    }
    Ok(headers)
}

fn add_name(alloc: Global, header: &Header, names: &mut NameTable) -> Result<bool, NoMemory>
    ensures is_new { IfOk result (λ is_new. is_new ≡ not (list_any (same_text header.now.name.0) names.old)) }
    ensures put { IfOk result (λ is_new. IsTrue is_new → names.new ≡ names.old ++ header.now.name.0 ∷ []) }
{
    let name = header.name.0.copy(alloc)?;
    let is_new = names.insert(name)?;
    Ok(is_new)
}

/// Puts the names of all classes into the table, up to the first that is there already.
pub fn add_names(
    alloc: Global,
    headers: &[Header],
    names: &mut NameTable,
) -> Result<Option<usize>, NoMemory>
    ensures all { IfOk result (IfNoneThen (names.new ≡ names.old ++ names_of headers.now)) }
    ensures first { IfOk result (λ found. found ≡ first_repeated 0 names.old (names_of headers.now)) }
{
    for (class, header) in headers.iter().enumerate() {
        if !add_name(alloc, header, names)? {
            return Ok(Some(class));
        }
    }
    Ok(None)
}

fn is_in_ring(hierarchy: &Hierarchy, class: usize) -> bool
    ensures { result ≡ ring_mark hierarchy.now.links hierarchy.now.above class }
{
    supers_at(hierarchy, class)
        .iter()
        .any(|other| hierarchy.is_at_or_below(*other, class))
}

fn super_reason_of(trees: &[ClassTree], hierarchy: &Hierarchy, class: usize) -> Option<LinkWhy>
    ensures { result ≡ super_reason trees.now hierarchy.now class }
{
    if any_unknown_super(&hierarchy.names, supers_named(trees, class)) {
        return Some(LinkWhy::UnknownSuper);
    }
    if is_in_ring(hierarchy, class) {
        return Some(LinkWhy::SuperRing);
    }
    None
}

/// The first class with an unknown superclass, or that is below itself.
pub fn first_super_reason(trees: &[ClassTree], hierarchy: &Hierarchy) -> Option<(usize, LinkWhy)>
    ensures { IsFirstOf (super_reason trees.now hierarchy.now) (length trees.now) result }
{
    for class in 0..trees.len() {
        if let Some(why) = super_reason_of(trees, hierarchy, class) {
            return Some((class, why));
        }
    }
    None
}

fn type_reason_of(
    alloc: Global,
    trees: &[ClassTree],
    hierarchy: &Hierarchy,
    tables: &Tables,
    class: usize,
) -> Result<Option<LinkWhy>, NoMemory>
    ensures { IfOk result (λ why. why ≡ type_reason trees.now (seen hierarchy.now tables.now) class) }
{
    match tables.members.get(class) {
        Some(members) => {
            let spots = members.props.spots(alloc)?;
            if any_unknown_type(&hierarchy.names, trees, spots.as_slice()) {
                return Ok(Some(LinkWhy::UnknownType));
            }
            Ok(None)
        }
        None => Ok(None),
    }
}

/// The first class with a property whose class is unknown.
pub fn first_type_reason(
    alloc: Global,
    trees: &[ClassTree],
    hierarchy: &Hierarchy,
    tables: &Tables,
) -> Result<Option<(usize, LinkWhy)>, NoMemory>
    ensures { IfOk result (IsFirstOf (type_reason trees.now (seen hierarchy.now tables.now)) (length trees.now)) }
{
    for class in 0..trees.len() {
        if let Some(why) = type_reason_of(alloc, trees, hierarchy, tables, class)? {
            return Ok(Some((class, why)));
        }
    }
    Ok(None)
}
