ghost use Rattle.std.specs.Prelude.{◌≡◌, ◌&&◌, length, map, IfOk, OnOk};
ghost use Rattle.class_facts.specs.Facts.{seen, count_from};
ghost use Rattle.class_extents.specs.Books.{extent_with};
ghost use Rattle.class_extents.specs.Extents.{is_in_extent, entries_in, add_entries_if, extent_entries};

use crate::entries::find_entries;
use crate::entry::Entry;
use crate::extent::{Extent, no_entries, push_entries};
use class_facts::{Tables, has_ids, sort_at};
use obj_kinds::NoMemory;
use schema_kinds::{ClassTree, Hierarchy};
use sqlite_items::Items;
use std::alloc::Global;

fn is_below_root(hierarchy: &Hierarchy, tables: &Tables, root: usize, class: usize) -> bool
    ensures { result ≡ is_in_extent (seen hierarchy.now tables.now) root class }
{
    has_ids(sort_at(hierarchy, tables, class))
        && match tables.tops.get(class) {
            Some(top) => *top == root,
            None => false,
        }
}

fn class_entries(
    alloc: Global,
    trees: &[ClassTree],
    hierarchy: &Hierarchy,
    tables: &Tables,
    class: usize,
) -> Result<Items<Entry>, NoMemory>
    ensures { IfOk result (λ entries. entries ≡ entries_in trees.now (seen hierarchy.now tables.now) class) }
{
    match tables.members.get(class) {
        Some(members) => {
            let spots = members.props.spots(alloc)?;
            let entries = find_entries(
                alloc,
                trees,
                tables.members.as_slice(),
                members,
                spots.as_slice(),
            )?;
            Ok(entries)
        }
        None => Ok(Items::new(alloc)),
    }
}

fn add_class_entries(
    alloc: Global,
    trees: &[ClassTree],
    hierarchy: &Hierarchy,
    tables: &Tables,
    root: usize,
    class: usize,
    extent: &mut Extent,
) -> Result<(), NoMemory>
    requires { extent.old ≡ extent_with trees.now extent.old.entries }
    ensures { OnOk result (extent.new ≡ extent_with trees.now (add_entries_if (is_in_extent (seen hierarchy.now tables.now) root class) extent.old.entries (entries_in trees.now (seen hierarchy.now tables.now) class))) }
{
    if is_below_root(hierarchy, tables, root, class) {
        let more = class_entries(alloc, trees, hierarchy, tables, class)?;
        push_entries(alloc, trees, extent, more.as_slice())?;
    }
    Ok(())
}

fn find_extent(
    alloc: Global,
    trees: &[ClassTree],
    hierarchy: &Hierarchy,
    tables: &Tables,
    root: usize,
) -> Result<Extent, NoMemory>
    ensures { IfOk result (λ extent. extent ≡ extent_with trees.now (extent_entries trees.now (seen hierarchy.now tables.now) root)) }
{
    let mut extent = no_entries(alloc);
    for class in 0..trees.len() {
        add_class_entries(alloc, trees, hierarchy, tables, root, class, &mut extent)?;
    }
    Ok(extent)
}

/// For each class the extent of which it is the root.
pub fn find_extents(
    alloc: Global,
    trees: &[ClassTree],
    hierarchy: &Hierarchy,
    tables: &Tables,
) -> Result<Items<Extent>, NoMemory>
    ensures { IfOk result (λ extents. extents ≡ map (λ i. extent_with trees.now (extent_entries trees.now (seen hierarchy.now tables.now) i)) (count_from 0 (length trees.now))) }
{
    let mut extents = Items::new(alloc);
    for class in 0..trees.len() {
        extents.push(find_extent(alloc, trees, hierarchy, tables, class)?)?;
    }
    Ok(extents)
}
