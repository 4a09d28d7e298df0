ghost use Rattle.std.specs.Prelude.{◌≡◌, ◌++◌, filter_map, option_to_list, option_and_then, IfOk, OnOk};
ghost use Rattle.class_facts.specs.Trees.{prop_at, index_at, spots_in};
ghost use Rattle.class_facts.specs.Facts.{seen, props_in, indexes_in};
ghost use Rattle.class_meaning.specs.Meaning.{prop_of, class_with, classes_of};

use crate::kinds::build_prop;
use class_facts::{Spot, Tables, index_at_spot, prop_at_spot, sort_at};
use obj_kinds::{NoMemory, Text};
use schema_kinds::{
    Class, ClassTree, Classes, Hierarchy, Indexes, Prop, Props, copy_class_names, copy_methods,
};
use sqlite_items::Items;
use std::alloc::Global;

fn prop_built_at(
    alloc: Global,
    trees: &[ClassTree],
    hierarchy: &Hierarchy,
    tables: &Tables,
    spot: Spot,
) -> Result<Option<Prop>, NoMemory>
    ensures { IfOk result (λ prop. prop ≡ option_and_then (prop_of (seen hierarchy.now tables.now)) (prop_at trees.now spot)) }
{
    match prop_at_spot(trees, spot) {
        Some(tree) => {
            let prop = build_prop(alloc, hierarchy, tables, tree)?;
            Ok(prop)
        }
        None => Ok(None),
    }
}

fn push_prop(
    alloc: Global,
    trees: &[ClassTree],
    hierarchy: &Hierarchy,
    tables: &Tables,
    spot: Spot,
    props: &mut Props,
) -> Result<(), NoMemory>
    ensures { OnOk result (props.new ≡ props.old ++ option_to_list (option_and_then (prop_of (seen hierarchy.now tables.now)) (prop_at trees.now spot))) }
{
    if let Some(prop) = prop_built_at(alloc, trees, hierarchy, tables, spot)? {
        props.push(prop)?;
    }
    Ok(())
}

fn push_props(
    alloc: Global,
    trees: &[ClassTree],
    hierarchy: &Hierarchy,
    tables: &Tables,
    spots: &[Spot],
    props: &mut Props,
) -> Result<(), NoMemory>
    ensures { OnOk result (props.new ≡ props.old ++ filter_map (λ s. option_and_then (prop_of (seen hierarchy.now tables.now)) (prop_at trees.now s)) spots.now) }
{
    for spot in spots {
        push_prop(alloc, trees, hierarchy, tables, *spot, props)?;
    }
    Ok(())
}

fn push_index(
    alloc: Global,
    trees: &[ClassTree],
    spot: Spot,
    indexes: &mut Indexes,
) -> Result<(), NoMemory>
    ensures { OnOk result (indexes.new ≡ indexes.old ++ option_to_list (index_at trees.now spot)) }
{
    if let Some(index) = index_at_spot(trees, spot) {
        indexes.push(index.copy(alloc)?)?;
    }
    Ok(())
}

fn push_indexes(
    alloc: Global,
    trees: &[ClassTree],
    pairs: &[(Text, Spot)],
    indexes: &mut Indexes,
) -> Result<(), NoMemory>
    ensures { OnOk result (indexes.new ≡ indexes.old ++ filter_map (index_at trees.now) (spots_in pairs.now)) }
{
    for pair in pairs {
        push_index(alloc, trees, pair.1, indexes)?;
    }
    Ok(())
}

fn build_props(
    alloc: Global,
    trees: &[ClassTree],
    hierarchy: &Hierarchy,
    tables: &Tables,
    class: usize,
) -> Result<Props, NoMemory>
    ensures { IfOk result (λ props. props ≡ filter_map (λ s. option_and_then (prop_of (seen hierarchy.now tables.now)) (prop_at trees.now s)) (spots_in (props_in (seen hierarchy.now tables.now) class))) }
{
    let mut props = Items::new(alloc);
    match tables.members.get(class) {
        Some(members) => {
            let spots = members.props.spots(alloc)?;
            push_props(
                alloc,
                trees,
                hierarchy,
                tables,
                spots.as_slice(),
                &mut props,
            )?;
            Ok(props)
        }
        None => Ok(props),
    }
}

fn build_indexes(
    alloc: Global,
    trees: &[ClassTree],
    hierarchy: &Hierarchy,
    tables: &Tables,
    class: usize,
) -> Result<Indexes, NoMemory>
    ensures { IfOk result (λ indexes. indexes ≡ filter_map (index_at trees.now) (spots_in (indexes_in (seen hierarchy.now tables.now) class))) }
{
    let mut indexes = Items::new(alloc);
    match tables.members.get(class) {
        Some(members) => {
            push_indexes(alloc, trees, members.indexes.as_slice(), &mut indexes)?;
            Ok(indexes)
        }
        None => Ok(indexes),
    }
}

fn build_class(
    alloc: Global,
    trees: &[ClassTree],
    hierarchy: &Hierarchy,
    tables: &Tables,
    class: usize,
    tree: &ClassTree,
) -> Result<Class, NoMemory>
    ensures { IfOk result (λ built. built ≡ class_with trees.now (seen hierarchy.now tables.now) class tree.now) }
{
    let name = tree.name.copy(alloc)?;
    let supers = copy_class_names(alloc, tree.supers.as_slice())?;
    let props = build_props(alloc, trees, hierarchy, tables, class)?;
    let indexes = build_indexes(alloc, trees, hierarchy, tables, class)?;
    let methods = copy_methods(alloc, tree.methods.as_slice())?;
    Ok(Class {
        name,
        sort: sort_at(hierarchy, tables, class),
        supers,
        props,
        indexes,
        methods,
    })
}

/// The classes of the schema, in the order of the files.
pub fn build_classes(
    alloc: Global,
    trees: &[ClassTree],
    hierarchy: &Hierarchy,
    tables: &Tables,
) -> Result<Classes, NoMemory>
    ensures { IfOk result (λ classes. classes ≡ classes_of trees.now (seen hierarchy.now tables.now)) }
{
    let mut classes = Items::new(alloc);
    for (place, tree) in trees.iter().enumerate() {
        classes.push(build_class(alloc, trees, hierarchy, tables, place, tree)?)?;
    }
    Ok(classes)
}
