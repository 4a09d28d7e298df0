ghost use Rattle.std.specs.Prelude.{◌≡◌, ◌<◌, ◌&&◌, ◌||◌, length, find, nat_lt, IfOk, slice_get, Some, Option};
ghost use Rattle.std.specs.List.{list_any};
ghost use Rattle.schema_kinds.specs.Links.{climbs};
ghost use Rattle.schema_kinds.specs.Classes.{is_persistent};
ghost use Rattle.class_facts.specs.Trees.{prop_at, index_at, spots_in};
ghost use Rattle.class_facts.specs.Facts.{seen, sort_in, option_any, any_index};
ghost use Rattle.class_checks.specs.Reasons.{has_serial_ring, has_kind_clash, has_no_inverse, bad_parameter, has_bad_parameter};
ghost use Rattle.class_extents.specs.Books.{extent_with};
ghost use Rattle.class_extents.specs.Extents.{extent_of, has_name_clash, declared_indexes, long_method, long_tree, long_index, has_too_many};
ghost use Rattle.class_link.specs.Refusal.{test_with, shape_reasons, name_reasons, late_with};

use crate::error::LinkWhy;
use class_checks::{
    any_bad_type, any_other_kind, any_persistent, any_to_come, any_unindexed, any_unknown_prop,
    any_without_inverse, has_bad_parameter,
};
use class_extents::{
    Extent, any_clash, count_indexes, find_entries, find_subnodes, has_repeated_word,
};
use class_facts::{
    Members, Spot, Tables, has_ids, index_at_spot, own_props_of, prop_at_spot, sort_at, supers_at,
    supers_named,
};
use obj_kinds::{NoMemory, Text};
use schema_kinds::{ClassTree, Hierarchy, Method};
use std::alloc::Global;

fn clashes_in_kind(
    trees: &[ClassTree],
    hierarchy: &Hierarchy,
    tables: &Tables,
    class: usize,
) -> bool
    ensures { result ≡ has_kind_clash trees.now (seen hierarchy.now tables.now) class }
{
    any_persistent(hierarchy, tables, supers_named(trees, class))
        || any_other_kind(
            trees,
            hierarchy,
            tables,
            supers_at(hierarchy, class),
            own_props_of(trees, class),
        )
}

fn lacks_an_inverse(
    trees: &[ClassTree],
    hierarchy: &Hierarchy,
    tables: &Tables,
    class: usize,
) -> bool
    ensures { result ≡ has_no_inverse trees.now (seen hierarchy.now tables.now) class }
{
    match trees.get(class) {
        Some(tree) => any_without_inverse(trees, hierarchy, tables, tree),
        None => false,
    }
}

fn bad_parameter_at(trees: &[ClassTree], spot: Spot) -> bool
    ensures { result ≡ option_any bad_parameter (prop_at trees.now spot) }
{
    match prop_at_spot(trees, spot) {
        Some(prop) => has_bad_parameter(prop),
        None => false,
    }
}

fn any_bad_parameter(trees: &[ClassTree], spots: &[Spot]) -> bool
    ensures { result ≡ list_any (λ s. option_any bad_parameter (prop_at trees.now s)) spots.now }
{
    spots.iter().any(|spot| bad_parameter_at(trees, *spot))
}

fn has_long_list(method: &Method) -> bool
    ensures { result ≡ long_method method.now }
{
    method.args.len() > 16
}

fn any_long_list(methods: &[Method]) -> bool
    ensures { result ≡ list_any long_method methods.now }
{
    methods.iter().any(|method| has_long_list(method))
}

fn has_long_methods(trees: &[ClassTree], class: usize) -> bool
    ensures { result ≡ option_any long_tree (slice_get trees.now class) }
{
    match trees.get(class) {
        Some(tree) => tree.methods.len() > 500 || any_long_list(tree.methods.as_slice()),
        None => false,
    }
}

fn long_index_at(trees: &[ClassTree], spot: Spot) -> bool
    ensures { result ≡ option_any long_index (index_at trees.now spot) }
{
    match index_at_spot(trees, spot) {
        Some(index) => index.props.len() > 3,
        None => false,
    }
}

fn any_long_index(trees: &[ClassTree], indexes: &[(Text, Spot)]) -> bool
    ensures { result ≡ any_index trees.now indexes.now long_index }
{
    indexes.iter().any(|pair| long_index_at(trees, pair.1))
}

fn clashes_in_name(
    alloc: Global,
    trees: &[ClassTree],
    hierarchy: &Hierarchy,
    tables: &Tables,
    extent: &Extent,
    class: usize,
    members: &Members,
    spots: &[Spot],
) -> Result<bool, NoMemory>
    requires spots { spots.now ≡ spots_in members.now.props }
    requires extent { extent.now ≡ extent_with trees.now (extent_of trees.now (seen hierarchy.now tables.now) class) }
    ensures { IfOk result (λ answer. answer ≡ has_name_clash trees.now (seen hierarchy.now tables.now) class members.now.props members.now.indexes) }
{
    if !has_ids(sort_at(hierarchy, tables, class)) {
        return Ok(false);
    }
    let entries = find_entries(alloc, trees, tables.members.as_slice(), members, spots)?;
    if any_clash(trees, entries.as_slice(), extent) {
        return Ok(true);
    }
    let words = find_subnodes(alloc, trees, hierarchy.firsts.as_slice(), class, spots)?;
    let answer = has_repeated_word(alloc, words.as_slice())?;
    Ok(answer)
}

fn has_crowded_extent(
    alloc: Global,
    trees: &[ClassTree],
    hierarchy: &Hierarchy,
    tables: &Tables,
    extent: &Extent,
    class: usize,
) -> Result<bool, NoMemory>
    requires extent { extent.now ≡ extent_with trees.now (extent_of trees.now (seen hierarchy.now tables.now) class) }
    ensures { IfOk result (λ answer. answer ≡ (is_persistent (sort_in (seen hierarchy.now tables.now) class) && nat_lt 50 (length (declared_indexes (extent_of trees.now (seen hierarchy.now tables.now) class))))) }
{
    if !has_ids(sort_at(hierarchy, tables, class)) {
        return Ok(false);
    }
    let count = count_indexes(alloc, extent.entries.as_slice())?;
    Ok(count > 50)
}

fn passes_limit(
    alloc: Global,
    trees: &[ClassTree],
    hierarchy: &Hierarchy,
    tables: &Tables,
    extent: &Extent,
    is_deep: bool,
    class: usize,
    members: &Members,
    spots: &[Spot],
) -> Result<bool, NoMemory>
    requires spots { spots.now ≡ spots_in members.now.props }
    requires extent { extent.now ≡ extent_with trees.now (extent_of trees.now (seen hierarchy.now tables.now) class) }
    requires deep { is_deep ≡ climbs 17 hierarchy.now.links class }
    ensures { IfOk result (λ answer. answer ≡ has_too_many trees.now (seen hierarchy.now tables.now) class members.now.props members.now.indexes) }
{
    if class == 500
        || is_deep
        || spots.len() > 200
        || has_long_methods(trees, class)
        || any_long_index(trees, members.indexes.as_slice())
    {
        return Ok(true);
    }
    let answer = has_crowded_extent(alloc, trees, hierarchy, tables, extent, class)?;
    Ok(answer)
}

fn shape_reason(
    trees: &[ClassTree],
    hierarchy: &Hierarchy,
    tables: &Tables,
    is_nested: bool,
    class: usize,
    members: &Members,
    spots: &[Spot],
) -> Option<LinkWhy>
    requires spots { spots.now ≡ spots_in members.now.props }
    requires nested { is_nested ≡ has_serial_ring trees.now (seen hierarchy.now tables.now) class }
    ensures { result ≡ find (test_with trees.now (seen hierarchy.now tables.now) class members.now.props members.now.indexes) shape_reasons }
{
    if clashes_in_kind(trees, hierarchy, tables, class) {
        return Some(LinkWhy::KindClash);
    }
    if any_bad_type(
        trees,
        hierarchy,
        tables,
        sort_at(hierarchy, tables, class),
        spots,
    ) {
        return Some(LinkWhy::BadType);
    }
    if is_nested {
        return Some(LinkWhy::SerialRing);
    }
    if any_to_come(trees, spots) {
        return Some(LinkWhy::NotYet);
    }
    if lacks_an_inverse(trees, hierarchy, tables, class) {
        return Some(LinkWhy::NoInverse);
    }
    None
}

fn name_reason(
    alloc: Global,
    trees: &[ClassTree],
    hierarchy: &Hierarchy,
    tables: &Tables,
    extent: &Extent,
    is_deep: bool,
    class: usize,
    members: &Members,
    spots: &[Spot],
) -> Result<Option<LinkWhy>, NoMemory>
    requires spots { spots.now ≡ spots_in members.now.props }
    requires extent { extent.now ≡ extent_with trees.now (extent_of trees.now (seen hierarchy.now tables.now) class) }
    requires deep { is_deep ≡ climbs 17 hierarchy.now.links class }
    ensures { IfOk result (λ why. why ≡ find (test_with trees.now (seen hierarchy.now tables.now) class members.now.props members.now.indexes) name_reasons) }
{
    if any_unknown_prop(trees, &members.props, members.indexes.as_slice()) {
        return Ok(Some(LinkWhy::UnknownIndexProperty));
    }
    if any_unindexed(
        trees,
        hierarchy,
        tables,
        &members.props,
        members.indexes.as_slice(),
    ) {
        return Ok(Some(LinkWhy::BadIndexProperty));
    }
    if clashes_in_name(
        alloc, trees, hierarchy, tables, extent, class, members, spots,
    )? {
        return Ok(Some(LinkWhy::NameClash));
    }
    if any_bad_parameter(trees, spots) {
        return Ok(Some(LinkWhy::BadParameter));
    }
    if passes_limit(
        alloc, trees, hierarchy, tables, extent, is_deep, class, members, spots,
    )? {
        return Ok(Some(LinkWhy::TooMany));
    }
    Ok(None)
}

/// The first reason of the last group that a class with these members has.
pub fn late_with(
    alloc: Global,
    trees: &[ClassTree],
    hierarchy: &Hierarchy,
    tables: &Tables,
    extent: &Extent,
    is_nested: bool,
    is_deep: bool,
    class: usize,
    members: &Members,
) -> Result<Option<LinkWhy>, NoMemory>
    requires extent { extent.now ≡ extent_with trees.now (extent_of trees.now (seen hierarchy.now tables.now) class) }
    requires nested { is_nested ≡ has_serial_ring trees.now (seen hierarchy.now tables.now) class }
    requires deep { is_deep ≡ climbs 17 hierarchy.now.links class }
    ensures { IfOk result (λ why. why ≡ late_with trees.now (seen hierarchy.now tables.now) class members.now.props members.now.indexes) }
{
    let spots = members.props.spots(alloc)?;
    if let Some(why) = shape_reason(
        trees,
        hierarchy,
        tables,
        is_nested,
        class,
        members,
        spots.as_slice(),
    ) {
        return Ok(Some(why));
    }
    let why = name_reason(
        alloc,
        trees,
        hierarchy,
        tables,
        extent,
        is_deep,
        class,
        members,
        spots.as_slice(),
    )?;
    Ok(why)
}
