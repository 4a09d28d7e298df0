ghost use Rattle.std.specs.Prelude.{◌≡◌, not};
ghost use Rattle.schema_kinds.specs.Classes.{is_persistent};
ghost use Rattle.class_facts.specs.Trees.{system_sort};
ghost use Rattle.class_facts.specs.Facts.{seen, sort_in, is_class_of};
ghost use Rattle.class_facts.specs.Sorts.{is_serial, is_stored};

use crate::members::Members;
use crate::props::is_named;
use obj_kinds::ClassName;
use schema_kinds::{Hierarchy, Sort};
use sqlite_items::Items;

/// What was found out of all classes, by their places.
#[derive(Drop)]
pub struct Tables {
    pub sorts: Items<Sort>,
    /// The root above each class, by its place.
    pub tops: Items<usize>,
    pub members: Items<Members>,
}

/// The sort that a system class gives to those below it.
pub fn system_sort_of(name: &ClassName) -> Option<Sort>
    ensures { result ≡ system_sort name.now }
{
    if is_named(name, b"%Persistent".as_slice()) {
        Some(Sort::Persistent)
    } else if is_named(name, b"%SerialObject".as_slice()) {
        Some(Sort::Serial)
    } else if is_named(name, b"%RegisteredObject".as_slice()) {
        Some(Sort::Registered)
    } else {
        None
    }
}

/// Whether objects of the sort have an id.
pub fn has_ids(sort: Sort) -> bool
    ensures { result ≡ is_persistent sort }
{
    match sort {
        Sort::Persistent => true,
        Sort::Serial => false,
        Sort::Registered => false,
        Sort::Plain => false,
    }
}

/// Whether objects of the sort are parts of others.
pub fn makes_parts(sort: Sort) -> bool
    ensures { result ≡ is_serial sort }
{
    match sort {
        Sort::Persistent => false,
        Sort::Serial => true,
        Sort::Registered => false,
        Sort::Plain => false,
    }
}

/// Whether objects of the sort are stored, by themselves or in others.
pub fn has_storage(sort: Sort) -> bool
    ensures { result ≡ is_stored sort }
{
    match sort {
        Sort::Persistent => true,
        Sort::Serial => true,
        Sort::Registered => false,
        Sort::Plain => false,
    }
}

/// The sort of the class at a place.
pub fn sort_at(hierarchy: &Hierarchy, tables: &Tables, place: usize) -> Sort
    ensures { result ≡ sort_in (seen hierarchy.now tables.now) place }
{
    match tables.sorts.get(place) {
        Some(sort) => *sort,
        None => Sort::Plain,
    }
}

/// Whether a class of that name is listed and persistent.
pub fn names_persistent(hierarchy: &Hierarchy, tables: &Tables, name: &ClassName) -> bool
    ensures { result ≡ is_class_of (seen hierarchy.now tables.now) is_persistent name.now }
{
    match hierarchy.names.place(&name.0) {
        Some(place) => has_ids(sort_at(hierarchy, tables, place)),
        None => false,
    }
}

/// Whether a class of that name is listed and serial.
pub fn names_serial(hierarchy: &Hierarchy, tables: &Tables, name: &ClassName) -> bool
    ensures { result ≡ is_class_of (seen hierarchy.now tables.now) is_serial name.now }
{
    match hierarchy.names.place(&name.0) {
        Some(place) => makes_parts(sort_at(hierarchy, tables, place)),
        None => false,
    }
}

/// Whether a class of that name is listed and has no objects that are stored.
pub fn names_unstored(hierarchy: &Hierarchy, tables: &Tables, name: &ClassName) -> bool
    ensures { result ≡ is_class_of (seen hierarchy.now tables.now) (λ s. not (is_stored s)) name.now }
{
    match hierarchy.names.place(&name.0) {
        Some(place) => !has_storage(sort_at(hierarchy, tables, place)),
        None => false,
    }
}
