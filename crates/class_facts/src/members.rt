ghost use Rattle.std.specs.Prelude.{◌≡◌, ℕ, ◌++◌, ◌+◌, ◌<◌, ◌^◌, length, map, IfOk, OnOk, fold, filter_map, option_to_list, slice_get};
ghost use Rattle.schema_kinds.specs.Links.{row, IsInRing, rank as rank_of};
ghost use Rattle.schema_kinds.specs.Hierarchy.{IsHierarchyOf};
ghost use Rattle.class_facts.specs.Spots.{add_spots, put_spots, fresh_spots, gather_spots, HaveSameNames};
ghost use Rattle.class_facts.specs.Trees.{own_props, own_indexes, prop_spots, index_spots, supers_of, members_with, headers_of, super_links};
ghost use Rattle.class_facts.specs.Facts.{count_from};
ghost use Rattle.class_facts.specs.Gathered.{AreGathered, AreGatheredTo};

use crate::spots::{Spot, SpotTable};
use obj_kinds::{ClassName, NoMemory, Text};
use schema_kinds::{ClassTree, Hierarchy, Index, PropTree};
use sqlite_items::Items;
use std::alloc::Global;

/// The members of a class, inherited and its own, by the spots where they are declared.
#[derive(Drop)]
pub struct Members {
    pub props: SpotTable,
    pub indexes: Items<(Text, Spot)>,
}

/// The superclasses of a class as written.
pub fn supers_named(trees: &[ClassTree], class: usize) -> &[ClassName]
    ensures { result.now ≡ supers_of (slice_get trees.now class) }
{
    match trees.get(class) {
        Some(tree) => tree.supers.as_slice(),
        None => &[],
    }
}

/// The properties that a class declares.
pub fn own_props_of(trees: &[ClassTree], class: usize) -> &[PropTree]
    ensures { result.now ≡ own_props (slice_get trees.now class) }
{
    match trees.get(class) {
        Some(tree) => tree.props.as_slice(),
        None => &[],
    }
}

/// The indexes that a class declares.
pub fn own_indexes_of(trees: &[ClassTree], class: usize) -> &[Index]
    ensures { result.now ≡ own_indexes (slice_get trees.now class) }
{
    match trees.get(class) {
        Some(tree) => tree.indexes.as_slice(),
        None => &[],
    }
}

fn put_props(
    alloc: Global,
    class: usize,
    props: &[PropTree],
    table: &mut SpotTable,
) -> Result<(), NoMemory>
    ensures { OnOk result (table.new ≡ put_spots table.old (prop_spots class 0 props.now)) }
{
    for (place, prop) in props.iter().enumerate() {
        table.put(prop.name.copy(alloc)?, Spot { class, place })?;
    }
    Ok(())
}

fn push_indexes(
    alloc: Global,
    class: usize,
    indexes: &[Index],
    pairs: &mut Items<(Text, Spot)>,
) -> Result<(), NoMemory>
    ensures { OnOk result (pairs.new ≡ pairs.old ++ index_spots class 0 indexes.now) }
{
    for (place, index) in indexes.iter().enumerate() {
        pairs.push((index.name.copy(alloc)?, Spot { class, place }))?;
    }
    Ok(())
}

fn inherit_props_of(
    alloc: Global,
    class: usize,
    done: &[Members],
    table: &mut SpotTable,
) -> Result<(), NoMemory>
    ensures { OnOk result (table.new ≡ fold (λ spots m. add_spots spots m.props) table.old (option_to_list (slice_get done.now class))) }
{
    if let Some(members) = done.get(class) {
        table.add_all(alloc, &members.props)?;
    }
    Ok(())
}

fn inherit_props(
    alloc: Global,
    supers: &[usize],
    done: &[Members],
    table: &mut SpotTable,
) -> Result<(), NoMemory>
    ensures { OnOk result (table.new ≡ fold (λ spots m. add_spots spots m.props) table.old (filter_map (slice_get done.now) supers.now)) }
{
    for class in supers {
        inherit_props_of(alloc, *class, done, table)?;
    }
    Ok(())
}

fn push_fresh(
    alloc: Global,
    names: &SpotTable,
    more: &[(Text, Spot)],
    pairs: &mut Items<(Text, Spot)>,
) -> Result<(), NoMemory>
    ensures { OnOk result (pairs.new ≡ pairs.old ++ fresh_spots names.now more.now) }
{
    for pair in more {
        if names.find(&pair.0).is_none() {
            pairs.push((pair.0.copy(alloc)?, pair.1))?;
        }
    }
    Ok(())
}

// The names of the pairs stand in a table beside them.
fn inherit_from(
    alloc: Global,
    more: &[(Text, Spot)],
    names: &mut SpotTable,
    pairs: &mut Items<(Text, Spot)>,
) -> Result<(), NoMemory>
    requires { HaveSameNames names.old pairs.old }
    ensures gathered { OnOk result (pairs.new ≡ gather_spots pairs.old more.now) }
    ensures named { OnOk result (HaveSameNames names.new pairs.new) }
{
    push_fresh(alloc, names, more, pairs)?;
    names.add_pairs(alloc, more)?;
    Ok(())
}

fn inherit_indexes_of(
    alloc: Global,
    class: usize,
    done: &[Members],
    names: &mut SpotTable,
    pairs: &mut Items<(Text, Spot)>,
) -> Result<(), NoMemory>
    requires { HaveSameNames names.old pairs.old }
    ensures gathered { OnOk result (pairs.new ≡ fold (λ spots m. gather_spots spots m.indexes) pairs.old (option_to_list (slice_get done.now class))) }
    ensures named { OnOk result (HaveSameNames names.new pairs.new) }
{
    if let Some(members) = done.get(class) {
        inherit_from(alloc, members.indexes.as_slice(), names, pairs)?;
    }
    Ok(())
}

fn inherit_indexes(
    alloc: Global,
    supers: &[usize],
    done: &[Members],
    names: &mut SpotTable,
    pairs: &mut Items<(Text, Spot)>,
) -> Result<(), NoMemory>
    requires { HaveSameNames names.old pairs.old }
    ensures { OnOk result (pairs.new ≡ fold (λ spots m. gather_spots spots m.indexes) pairs.old (filter_map (slice_get done.now) supers.now)) }
{
    for class in supers {
        inherit_indexes_of(alloc, *class, done, names, pairs)?;
    }
    Ok(())
}

fn all_props(
    alloc: Global,
    trees: &[ClassTree],
    class: usize,
    supers: &[usize],
    done: &[Members],
) -> Result<SpotTable, NoMemory>
    ensures { IfOk result (λ table. table ≡ (members_with trees.now class (filter_map (slice_get done.now) supers.now)).props) }
{
    let mut table = SpotTable::new(alloc);
    inherit_props(alloc, supers, done, &mut table)?;
    put_props(alloc, class, own_props_of(trees, class), &mut table)?;
    Ok(table)
}

fn all_indexes(
    alloc: Global,
    trees: &[ClassTree],
    class: usize,
    supers: &[usize],
    done: &[Members],
) -> Result<Items<(Text, Spot)>, NoMemory>
    ensures { IfOk result (λ pairs. pairs ≡ (members_with trees.now class (filter_map (slice_get done.now) supers.now)).indexes) }
{
    let mut names = SpotTable::new(alloc);
    let mut pairs = Items::new(alloc);
    inherit_indexes(alloc, supers, done, &mut names, &mut pairs)?;
    push_indexes(alloc, class, own_indexes_of(trees, class), &mut pairs)?;
    Ok(pairs)
}

/// The members of a class, from those of its superclasses.
fn gather_one(
    alloc: Global,
    trees: &[ClassTree],
    class: usize,
    supers: &[usize],
    done: &[Members],
) -> Result<Members, NoMemory>
    ensures { IfOk result (λ members. members ≡ members_with trees.now class (filter_map (slice_get done.now) supers.now)) }
{
    let props = all_props(alloc, trees, class, supers, done)?;
    let indexes = all_indexes(alloc, trees, class, supers, done)?;
    Ok(Members { props, indexes })
}

/// The places of the listed superclasses of a class.
pub fn supers_at(hierarchy: &Hierarchy, class: usize) -> &[usize]
    ensures { result.now ≡ row hierarchy.now.links class }
{
    match hierarchy.links.get(class) {
        Some(supers) => supers.as_slice(),
        None => &[],
    }
}

/// The rank of each class, counted once.
fn find_ranks(alloc: Global, hierarchy: &Hierarchy, count: usize) -> Result<Items<usize>, NoMemory>
    requires { count < 2 ^ 63 }
    ensures { IfOk result (λ ranks. ranks ≡ map (λ i. rank_of hierarchy.now.above i) (count_from 0 count)) }
{
    let mut ranks = Items::new(alloc);
    for class in 0..count {
        ranks.push(hierarchy.rank(class))?;
    }
    Ok(ranks)
}

fn rank_at(trees: &[ClassTree], hierarchy: &Hierarchy, ranks: &Items<usize>, class: usize) -> usize
    requires class { class < length trees.now }
    requires ranks { ranks.now ≡ map (λ i. rank_of hierarchy.now.above i) (count_from 0 (length trees.now)) }
    ensures { result ≡ rank_of hierarchy.now.above class }
{
    match ranks.get(class) {
        Some(found) => *found,
        None => hierarchy.rank(class),
    }
}

fn gather_at(
    alloc: Global,
    trees: &[ClassTree],
    hierarchy: &Hierarchy,
    rank: usize,
    class: usize,
    here: usize,
    done: &mut Items<Members>,
) -> Result<(), NoMemory>
    requires class { class < length trees.now }
    requires here { here ≡ rank_of hierarchy.now.above class }
    requires hierarchy { IsHierarchyOf (headers_of trees.now) hierarchy.now }
    requires no_ring { (i : ℕ) → i < length trees.now → ¬ IsInRing (super_links trees.now) i }
    requires before { AreGatheredTo trees.now hierarchy.now.above rank class done.old }
    ensures { OnOk result (AreGatheredTo trees.now hierarchy.now.above rank (class + 1) done.new) }
{
    if here == rank {
        let members = gather_one(
            alloc,
            trees,
            class,
            supers_at(hierarchy, class),
            done.as_slice(),
        )?;
        done.set(class, members);
    }
    Ok(())
}

fn gather_rank(
    alloc: Global,
    trees: &[ClassTree],
    hierarchy: &Hierarchy,
    ranks: &Items<usize>,
    rank: usize,
    done: &mut Items<Members>,
) -> Result<(), NoMemory>
    requires ranks { ranks.now ≡ map (λ i. rank_of hierarchy.now.above i) (count_from 0 (length trees.now)) }
    requires hierarchy { IsHierarchyOf (headers_of trees.now) hierarchy.now }
    requires no_ring { (i : ℕ) → i < length trees.now → ¬ IsInRing (super_links trees.now) i }
    requires before { AreGatheredTo trees.now hierarchy.now.above rank 0 done.old }
    ensures { OnOk result (AreGatheredTo trees.now hierarchy.now.above (rank + 1) 0 done.new) }
{
    for class in 0..trees.len() {
        let here = rank_at(trees, hierarchy, ranks, class);
        gather_at(alloc, trees, hierarchy, rank, class, here, done)?;
    }
    Ok(())
}

fn no_members(alloc: Global, count: usize) -> Result<Items<Members>, NoMemory>
    ensures { IfOk result (λ done. length done ≡ count) }
{
    let mut done = Items::new(alloc);
    for _ in 0..count {
        done.push(Members {
            props: SpotTable::new(alloc),
            indexes: Items::new(alloc),
        })?;
    }
    Ok(done)
}

/// The members of all classes, where none is below itself.
pub fn gather_all(
    alloc: Global,
    trees: &[ClassTree],
    hierarchy: &Hierarchy,
) -> Result<Items<Members>, NoMemory>
    requires hierarchy { IsHierarchyOf (headers_of trees.now) hierarchy.now }
    requires no_ring { (i : ℕ) → i < length trees.now → ¬ IsInRing (super_links trees.now) i }
    ensures { IfOk result (AreGathered trees.now) }
{
    let ranks = find_ranks(alloc, hierarchy, trees.len())?;
    let mut done = no_members(alloc, trees.len())?;
    for rank in 0..trees.len() + 1 {
        gather_rank(alloc, trees, hierarchy, &ranks, rank, &mut done)?;
    }
    Ok(done)
}
