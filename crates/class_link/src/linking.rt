ghost use Rattle.std.specs.Prelude.{◌≡◌, [], ◌<◌, length, IfOk, IfErr, OnOk, Some, None};
ghost use Rattle.schema_kinds.specs.Links.{climbs};
ghost use Rattle.schema_kinds.specs.Hierarchy.{IsHierarchyOf, names_of};
ghost use Rattle.class_facts.specs.Trees.{headers_of};
ghost use Rattle.class_facts.specs.Facts.{seen, facts_of};
ghost use Rattle.class_checks.specs.Reasons.{has_serial_ring};
ghost use Rattle.std.specs.Option.{option_copied};
ghost use Rattle.class_extents.specs.Books.{extent_with};
ghost use Rattle.class_extents.specs.Extents.{extent_of};
ghost use Rattle.class_link.specs.Refusal.{late_reason};
ghost use Rattle.class_link.specs.Passes.{IsFirstOf, IfNoneThen, first_repeated};
ghost use Rattle.class_link.specs.Linking.{IsLinked, IsRefusal, NoneBelow, IsOf, ArePrepared, refusal_of, extent_here};

use crate::error::{LinkError, LinkWhy};
use crate::late::late_with;
use crate::passes::{add_names, find_headers, first_super_reason, first_type_reason};
use class_checks::{find_part_links, mark_climbs};
use class_extents::{Extent, find_extents, no_entries};
use class_facts::{Members, SpotTable, Tables, find_sorts, find_tops, gather_all};
use class_meaning::build_classes;
use obj_kinds::{ClassName, NoMemory};
use schema_kinds::{
    ClassTree, ClassTrees, Headers, Hierarchy, Marks, NameTable, Schema, is_marked,
};
use sqlite_items::Items;
use std::alloc::Global;

fn refusal(name: Result<ClassName, NoMemory>, why: LinkWhy) -> LinkError
    ensures { result ≡ refusal_of name why }
{
    match name {
        Ok(class) => LinkError::BadLink { class, why },
        Err(_) => LinkError::NoMemory,
    }
}

fn refuse(alloc: Global, trees: &[ClassTree], class: usize, why: LinkWhy) -> LinkError
    ensures { IsOf trees.now class why result }
{
    match trees.get(class) {
        Some(tree) => refusal(tree.name.copy(alloc), why),
        None => LinkError::NoMemory,
    }
}

fn find_names(alloc: Global, headers: &Headers) -> Result<(NameTable, Option<usize>), NoMemory>
    ensures all { IfOk result (λ r. IfNoneThen (r.0 ≡ names_of headers.now) r.1) }
    ensures first { IfOk result (λ r. r.1 ≡ first_repeated 0 [] (names_of headers.now)) }
{
    let mut names = NameTable::new(alloc);
    let found = add_names(alloc, headers.as_slice(), &mut names)?;
    Ok((names, found))
}

fn check_names(alloc: Global, trees: &[ClassTree]) -> Result<Hierarchy, LinkError>
    ensures hierarchy { IfOk result (IsHierarchyOf (headers_of trees.now)) }
    ensures none { OnOk result (NoneBelow trees.now 2) }
    ensures refused { IfErr result (IsRefusal trees.now) }
{
    let headers = find_headers(alloc, trees)?;
    let (names, found) = find_names(alloc, &headers)?;
    match found {
        Some(class) => Err(refuse(alloc, trees, class, LinkWhy::RepeatedClass)),
        None => {
            let hierarchy = Hierarchy::new(alloc, names, headers.as_slice())?;
            Ok(hierarchy)
        }
    }
}

fn check_supers(alloc: Global, trees: &[ClassTree], hierarchy: &Hierarchy) -> Result<(), LinkError>
    requires hierarchy { IsHierarchyOf (headers_of trees.now) hierarchy.now }
    requires before { NoneBelow trees.now 2 }
    ensures none { OnOk result (NoneBelow trees.now 3) }
    ensures refused { IfErr result (IsRefusal trees.now) }
{
    match first_super_reason(trees, hierarchy) {
        Some((class, why)) => Err(refuse(alloc, trees, class, why)),
        None => Ok(()),
    }
}

fn find_tables(
    alloc: Global,
    trees: &[ClassTree],
    hierarchy: &Hierarchy,
) -> Result<Tables, NoMemory>
    requires hierarchy { IsHierarchyOf (headers_of trees.now) hierarchy.now }
    requires before { NoneBelow trees.now 3 }
    ensures { IfOk result (λ tables. seen hierarchy.now tables ≡ facts_of trees.now) }
{
    let tops = find_tops(alloc, hierarchy, trees.len())?;
    let sorts = find_sorts(alloc, trees, tops.as_slice())?;
    let members = gather_all(alloc, trees, hierarchy)?;
    Ok(Tables {
        sorts,
        tops,
        members,
    })
}

fn check_types(
    alloc: Global,
    trees: &[ClassTree],
    hierarchy: &Hierarchy,
    tables: &Tables,
) -> Result<(), LinkError>
    requires facts { seen hierarchy.now tables.now ≡ facts_of trees.now }
    requires before { NoneBelow trees.now 3 }
    ensures none { OnOk result (NoneBelow trees.now 4) }
    ensures refused { IfErr result (IsRefusal trees.now) }
{
    match first_type_reason(alloc, trees, hierarchy, tables)? {
        Some((class, why)) => Err(refuse(alloc, trees, class, why)),
        None => Ok(()),
    }
}

fn extent_at<'a>(tables: &Tables, extents: &'a Items<Extent>, class: usize) -> Option<&'a Extent>
    ensures { option_copied result ≡ extent_here tables.now.tops extents.now class }
{
    match tables.tops.get(class) {
        Some(top) => extents.get(*top),
        None => None,
    }
}

fn late_reason_of(
    alloc: Global,
    trees: &[ClassTree],
    hierarchy: &Hierarchy,
    tables: &Tables,
    extent: &Extent,
    is_nested: bool,
    is_deep: bool,
    class: usize,
) -> Result<Option<LinkWhy>, NoMemory>
    requires extent { extent.now ≡ extent_with trees.now (extent_of trees.now (seen hierarchy.now tables.now) class) }
    requires nested { is_nested ≡ has_serial_ring trees.now (seen hierarchy.now tables.now) class }
    requires deep { is_deep ≡ climbs 17 hierarchy.now.links class }
    ensures { IfOk result (λ why. why ≡ late_reason trees.now (seen hierarchy.now tables.now) class) }
{
    match tables.members.get(class) {
        Some(members) => {
            let why = late_with(
                alloc, trees, hierarchy, tables, extent, is_nested, is_deep, class, members,
            )?;
            Ok(why)
        }
        None => {
            let none = Members {
                props: SpotTable::new(alloc),
                indexes: Items::new(alloc),
            };
            let why = late_with(
                alloc, trees, hierarchy, tables, extent, is_nested, is_deep, class, &none,
            )?;
            Ok(why)
        }
    }
}

/// What the last pass looks at.
#[derive(Drop)]
struct Prepared {
    extents: Items<Extent>,
    deep: Marks,
    nested: Marks,
}

fn prepare(
    alloc: Global,
    trees: &[ClassTree],
    hierarchy: &Hierarchy,
    tables: &Tables,
) -> Result<Prepared, NoMemory>
    requires { seen hierarchy.now tables.now ≡ facts_of trees.now }
    ensures { IfOk result (λ p. ArePrepared trees.now (seen hierarchy.now tables.now) p.extents p.deep p.nested) }
{
    let extents = find_extents(alloc, trees, hierarchy, tables)?;
    let deep = mark_climbs(alloc, hierarchy.links.as_slice(), 17)?;
    let parts = find_part_links(alloc, trees, hierarchy, tables)?;
    let nested = mark_climbs(alloc, parts.as_slice(), 5)?;
    Ok(Prepared {
        extents,
        deep,
        nested,
    })
}

fn prepared_reason(
    alloc: Global,
    trees: &[ClassTree],
    hierarchy: &Hierarchy,
    tables: &Tables,
    prepared: &Prepared,
    class: usize,
) -> Result<Option<LinkWhy>, NoMemory>
    requires facts { seen hierarchy.now tables.now ≡ facts_of trees.now }
    requires prepared { ArePrepared trees.now (seen hierarchy.now tables.now) prepared.now.extents prepared.now.deep prepared.now.nested }
    requires class { class < length trees.now }
    ensures { IfOk result (λ why. why ≡ late_reason trees.now (seen hierarchy.now tables.now) class) }
{
    let is_nested = is_marked(prepared.nested.as_slice(), class);
    let is_deep = is_marked(prepared.deep.as_slice(), class);
    match extent_at(tables, &prepared.extents, class) {
        Some(extent) => {
            let why = late_reason_of(
                alloc, trees, hierarchy, tables, extent, is_nested, is_deep, class,
            )?;
            Ok(why)
        }
        None => {
            let none = no_entries(alloc);
            let why = late_reason_of(
                alloc, trees, hierarchy, tables, &none, is_nested, is_deep, class,
            )?;
            Ok(why)
        }
    }
}

fn first_late_reason(
    alloc: Global,
    trees: &[ClassTree],
    hierarchy: &Hierarchy,
    tables: &Tables,
    prepared: &Prepared,
) -> Result<Option<(usize, LinkWhy)>, NoMemory>
    requires facts { seen hierarchy.now tables.now ≡ facts_of trees.now }
    requires prepared { ArePrepared trees.now (seen hierarchy.now tables.now) prepared.now.extents prepared.now.deep prepared.now.nested }
    ensures { IfOk result (IsFirstOf (late_reason trees.now (seen hierarchy.now tables.now)) (length trees.now)) }
{
    for class in 0..trees.len() {
        if let Some(why) = prepared_reason(alloc, trees, hierarchy, tables, prepared, class)? {
            return Ok(Some((class, why)));
        }
    }
    Ok(None)
}

fn check_rest(
    alloc: Global,
    trees: &[ClassTree],
    hierarchy: &Hierarchy,
    tables: &Tables,
) -> Result<(), LinkError>
    requires facts { seen hierarchy.now tables.now ≡ facts_of trees.now }
    requires before { NoneBelow trees.now 4 }
    ensures none { OnOk result (NoneBelow trees.now 5) }
    ensures refused { IfErr result (IsRefusal trees.now) }
{
    let prepared = prepare(alloc, trees, hierarchy, tables)?;
    match first_late_reason(alloc, trees, hierarchy, tables, &prepared)? {
        Some((class, why)) => Err(refuse(alloc, trees, class, why)),
        None => Ok(()),
    }
}

/// The schema that the class trees of all files mean, in the order of the files.
///
/// It is refused where a class has a reason of [`LinkWhy`]. Repeated names are looked for among all classes
/// first, then unknown superclasses and rings of them, then unknown types, and then all other reasons. The
/// first class with a reason of the earliest of these groups is named, with the first such reason in the order
/// of [`LinkWhy`]. This order, and the reasons, are those of our own profile of class definitions.
pub fn link(alloc: Global, trees: ClassTrees) -> Result<Schema, LinkError>
    ensures linked { IfOk result (IsLinked trees) }
    ensures refused { IfErr result (IsRefusal trees) }
{
    let rows = trees.as_slice();
    let hierarchy = check_names(alloc, rows)?;
    check_supers(alloc, rows, &hierarchy)?;
    let tables = find_tables(alloc, rows, &hierarchy)?;
    check_types(alloc, rows, &hierarchy, &tables)?;
    check_rest(alloc, rows, &hierarchy, &tables)?;
    let classes = build_classes(alloc, rows, &hierarchy, &tables)?;
    let schema = Schema::new(alloc, classes, hierarchy)?;
    Ok(schema)
}
