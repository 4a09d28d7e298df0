ghost use Rattle.std.specs.Prelude.{◌≡◌, [], ◌∷◌, ◌++◌, ◌&&◌, fold, OnOk};
ghost use Rattle.std.specs.Option.{option_copied};
ghost use Rattle.std.specs.List.{list_any};
ghost use Rattle.class_facts.specs.Words.{same_word};
ghost use Rattle.class_extents.specs.Extents.{same_spot, same_on, same_entry, add_entry, entry_name, is_on_side, is_same_index, clashes, clash_in};
ghost use Rattle.class_extents.specs.Books.{extent_with};

use crate::book::Book;
use crate::entry::Entry;
use class_facts::{Spot, index_at_spot, prop_at_spot};
use obj_kinds::{NoMemory, Text};
use schema_kinds::ClassTree;
use sqlite_items::Items;
use std::alloc::Global;

/// What has entries in the index global of an extent, each once in order, and by names.
#[derive(Drop)]
pub struct Extent {
    pub entries: Items<Entry>,
    pub book: Book,
}

/// An extent of which nothing has entries.
pub fn no_entries(alloc: Global) -> Extent
    ensures { result ≡ record { entries = []; book = [] } }
{
    Extent {
        entries: Items::new(alloc),
        book: Book::new(alloc),
    }
}

/// Whether two spots are one.
pub fn is_spot(left: Spot, right: Spot) -> bool
    ensures { result ≡ same_spot left right }
{
    left.class == right.class && left.place == right.place
}

fn is_same_on(left: Option<Spot>, right: Option<Spot>) -> bool
    ensures { result ≡ same_on left right }
{
    match (left, right) {
        (None, None) => true,
        (Some(left), Some(right)) => is_spot(left, right),
        (Some(_), None) => false,
        (None, Some(_)) => false,
    }
}

fn is_index(left: Entry, right: Entry) -> bool
    ensures { result ≡ is_same_index left right }
{
    left.is_side == right.is_side && is_spot(left.spot, right.spot)
}

fn is_entry(left: Entry, right: Entry) -> bool
    ensures { result ≡ same_entry left right }
{
    is_index(left, right) && is_same_on(left.on, right.on)
}

fn has_entry(entries: &[Entry], entry: Entry) -> bool
    ensures { result ≡ list_any (same_entry entry) entries.now }
{
    entries.iter().any(|other| is_entry(entry, *other))
}

fn name_of<'a>(trees: &'a [ClassTree], entry: Entry) -> Option<&'a Text>
    ensures { option_copied result ≡ entry_name trees.now entry }
{
    if entry.is_side {
        match prop_at_spot(trees, entry.spot) {
            Some(prop) => Some(&prop.name),
            None => None,
        }
    } else {
        match index_at_spot(trees, entry.spot) {
            Some(index) => Some(&index.name),
            None => None,
        }
    }
}

fn has_on(side: Entry, index: Entry) -> bool
    ensures { result ≡ is_on_side side index }
{
    side.is_side
        && !index.is_side
        && match index.on {
            Some(spot) => is_spot(side.spot, spot),
            None => false,
        }
}

fn have_one_name(trees: &[ClassTree], left: Entry, right: Entry) -> bool
    ensures { result ≡ same_word (entry_name trees.now left) (entry_name trees.now right) }
{
    match (name_of(trees, left), name_of(trees, right)) {
        (None, None) => true,
        (Some(left), Some(right)) => left.as_slice() == right.as_slice(),
        (Some(_), None) => false,
        (None, Some(_)) => false,
    }
}

fn clash(trees: &[ClassTree], left: Entry, right: Entry) -> bool
    ensures { result ≡ clashes trees.now left right }
{
    have_one_name(trees, left, right)
        && !is_index(left, right)
        && !has_on(left, right)
        && !has_on(right, left)
}

// An entry is looked for under its name; each has one.
fn is_there(trees: &[ClassTree], extent: &Extent, entry: Entry) -> bool
    requires { extent.now ≡ extent_with trees.now extent.now.entries }
    ensures { result ≡ list_any (same_entry entry) extent.now.entries }
{
    match name_of(trees, entry) {
        Some(name) => has_entry(extent.book.group(name), entry),
        None => has_entry(extent.entries.as_slice(), entry),
    }
}

fn put_last(
    alloc: Global,
    trees: &[ClassTree],
    extent: &mut Extent,
    entry: Entry,
) -> Result<(), NoMemory>
    requires { extent.old ≡ extent_with trees.now extent.old.entries }
    ensures { OnOk result (extent.new ≡ extent_with trees.now (extent.old.entries ++ entry ∷ [])) }
{
    extent.entries.push(entry)?;
    match name_of(trees, entry) {
        Some(name) => {
            extent.book.put(alloc, name, entry)?;
            Ok(())
        }
        None => Ok(()),
    }
}

fn push_entry(
    alloc: Global,
    trees: &[ClassTree],
    extent: &mut Extent,
    entry: Entry,
) -> Result<(), NoMemory>
    requires { extent.old ≡ extent_with trees.now extent.old.entries }
    ensures { OnOk result (extent.new ≡ extent_with trees.now (add_entry extent.old.entries entry)) }
{
    if is_there(trees, extent, entry) {
        Ok(())
    } else {
        put_last(alloc, trees, extent, entry)?;
        Ok(())
    }
}

/// Adds the entries that aren't there yet.
pub fn push_entries(
    alloc: Global,
    trees: &[ClassTree],
    extent: &mut Extent,
    more: &[Entry],
) -> Result<(), NoMemory>
    requires { extent.old ≡ extent_with trees.now extent.old.entries }
    ensures { OnOk result (extent.new ≡ extent_with trees.now (fold add_entry extent.old.entries more.now)) }
{
    for entry in more {
        push_entry(alloc, trees, extent, *entry)?;
    }
    Ok(())
}

fn any_clash_among(trees: &[ClassTree], entry: Entry, others: &[Entry]) -> bool
    ensures { result ≡ list_any (clashes trees.now entry) others.now }
{
    others.iter().any(|other| clash(trees, entry, *other))
}

fn any_clash_with(trees: &[ClassTree], entry: Entry, extent: &Extent) -> bool
    requires { extent.now ≡ extent_with trees.now extent.now.entries }
    ensures { result ≡ list_any (clashes trees.now entry) extent.now.entries }
{
    match name_of(trees, entry) {
        Some(name) => any_clash_among(trees, entry, extent.book.group(name)),
        None => any_clash_among(trees, entry, extent.entries.as_slice()),
    }
}

/// Whether one of the entries has its name in common with another one of the extent.
pub fn any_clash(trees: &[ClassTree], entries: &[Entry], extent: &Extent) -> bool
    requires { extent.now ≡ extent_with trees.now extent.now.entries }
    ensures { result ≡ clash_in trees.now entries.now extent.now.entries }
{
    for entry in entries {
        if any_clash_with(trees, *entry, extent) {
            return true;
        }
    }
    false
}
