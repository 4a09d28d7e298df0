ghost use Rattle.std.specs.Prelude.{◌≡◌, List, ◌++◌, filter_map, option_to_list, slice_get, IfOk, OnOk, length};
ghost use Rattle.std.specs.List.{list_any};
ghost use Rattle.class_facts.specs.Trees.{spots_in};
ghost use Rattle.class_facts.specs.Facts.{prop_pairs};
ghost use Rattle.class_extents.specs.Extents.{is_one_side, side_entry, only_on, alone_on, index_entry, entries_with, same_spot, add_distinct, declared_indexes};

use crate::entry::Entry;
use crate::extent::is_spot;
use class_facts::{Members, Spot, SpotTable, index_at_spot, prop_at_spot, says};
use obj_kinds::{NoMemory, Text};
use schema_kinds::{ClassTree, Form, Index};
use sqlite_items::Items;
use std::alloc::Global;

fn is_one(form: &Form) -> bool
    ensures { result ≡ is_one_side form.now }
{
    match form {
        Form::Single => false,
        Form::List => false,
        Form::Array => false,
        Form::Relation { cardinality, .. } => says(cardinality, b"one".as_slice()),
    }
}

fn side_at(trees: &[ClassTree], spot: Spot) -> Option<Entry>
    ensures { result ≡ side_entry trees.now spot }
{
    match prop_at_spot(trees, spot) {
        Some(prop) => {
            if is_one(&prop.form) {
                Some(Entry {
                    is_side: true,
                    spot,
                    on: None,
                })
            } else {
                None
            }
        }
        None => None,
    }
}

fn find_only(props: &SpotTable, names: &[Text]) -> Option<Spot>
    ensures { result ≡ only_on props.now names.now }
{
    match names.split_first() {
        Some((name, rest)) => if rest.is_empty() {
            props.find(name)
        } else {
            None
        },
        None => None,
    }
}

fn find_alone(props: &SpotTable, index: &Index) -> Option<Spot>
    ensures { result ≡ alone_on props.now index.now }
{
    if index.unique {
        None
    } else {
        find_only(props, index.props.as_slice())
    }
}

// The property of an index is looked for in the class that declares the index.
fn declared_on(all: &[Members], class: usize, index: &Index) -> Option<Spot>
    ensures { result ≡ alone_on (prop_pairs (slice_get all.now class)) index.now }
{
    match all.get(class) {
        Some(members) => find_alone(&members.props, index),
        None => None,
    }
}

fn index_entry_at(trees: &[ClassTree], all: &[Members], spot: Spot) -> Option<Entry>
    ensures { result ≡ index_entry trees.now all.now spot }
{
    match index_at_spot(trees, spot) {
        Some(index) => Some(Entry {
            is_side: false,
            spot,
            on: declared_on(all, spot.class, index),
        }),
        None => None,
    }
}

fn push_side(trees: &[ClassTree], spot: Spot, entries: &mut Items<Entry>) -> Result<(), NoMemory>
    ensures { OnOk result (entries.new ≡ entries.old ++ option_to_list (side_entry trees.now spot)) }
{
    if let Some(entry) = side_at(trees, spot) {
        entries.push(entry)?;
    }
    Ok(())
}

fn push_index_entry(
    trees: &[ClassTree],
    all: &[Members],
    spot: Spot,
    entries: &mut Items<Entry>,
) -> Result<(), NoMemory>
    ensures { OnOk result (entries.new ≡ entries.old ++ option_to_list (index_entry trees.now all.now spot)) }
{
    if let Some(entry) = index_entry_at(trees, all, spot) {
        entries.push(entry)?;
    }
    Ok(())
}

fn push_sides(
    trees: &[ClassTree],
    spots: &[Spot],
    entries: &mut Items<Entry>,
) -> Result<(), NoMemory>
    ensures { OnOk result (entries.new ≡ entries.old ++ filter_map (side_entry trees.now) spots.now) }
{
    for spot in spots {
        push_side(trees, *spot, entries)?;
    }
    Ok(())
}

fn push_index_entries(
    trees: &[ClassTree],
    all: &[Members],
    pairs: &[(Text, Spot)],
    entries: &mut Items<Entry>,
) -> Result<(), NoMemory>
    ensures { OnOk result (entries.new ≡ entries.old ++ filter_map (index_entry trees.now all.now) (spots_in pairs.now)) }
{
    for pair in pairs {
        push_index_entry(trees, all, pair.1, entries)?;
    }
    Ok(())
}

/// What the objects of a class with these members have entries of; all are the members of all classes.
pub fn find_entries(
    alloc: Global,
    trees: &[ClassTree],
    all: &[Members],
    members: &Members,
    spots: &[Spot],
) -> Result<Items<Entry>, NoMemory>
    requires { spots.now ≡ spots_in members.now.props }
    ensures { IfOk result (λ entries. entries ≡ entries_with trees.now all.now members.now.props members.now.indexes) }
{
    let mut entries = Items::new(alloc);
    push_sides(trees, spots, &mut entries)?;
    push_index_entries(trees, all, members.indexes.as_slice(), &mut entries)?;
    Ok(entries)
}

fn has_spot(spots: &[Spot], spot: Spot) -> bool
    ensures { result ≡ list_any (same_spot spot) spots.now }
{
    spots.iter().any(|other| is_spot(spot, *other))
}

fn push_declared(spots: &mut Items<Spot>, entry: Entry) -> Result<(), NoMemory>
    ensures { OnOk result (spots.new ≡ add_distinct spots.old entry) }
{
    if !(entry.is_side || has_spot(spots.as_slice(), entry.spot)) {
        spots.push(entry.spot)?;
    }
    Ok(())
}

/// How many indexes are declared among the entries of an extent.
pub fn count_indexes(alloc: Global, entries: &[Entry]) -> Result<usize, NoMemory>
    ensures { IfOk result (λ count. count ≡ length (declared_indexes entries.now)) }
{
    let mut spots = Items::new(alloc);
    for entry in entries {
        push_declared(&mut spots, *entry)?;
    }
    Ok(spots.len())
}
