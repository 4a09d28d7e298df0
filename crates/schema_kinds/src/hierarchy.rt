ghost use Rattle.std.specs.Prelude.{◌≡◌, [], ◌∷◌, ◌++◌, ◌<◌, ◌≤◌, length, get_or, IfOk, OnOk, map, option_to_list, Option, Some, None, IsTrue, ◌↔◌};
ghost use Rattle.schema_kinds.specs.Links.{IsWithin, AreWithin, AreAbove, IsAtOrBelow, mark_at, AreAllAbove, rank};
ghost use Rattle.schema_kinds.specs.Hierarchy.{is_system, place_of, later_places, super_places, first_place, names_of, links_of, firsts_of, top, IsHierarchyOf};

use crate::class::ClassNames;
use crate::links::{Links, Marks, count_marked, is_marked, marks_above};
use crate::names::NameTable;
use obj_kinds::{ClassName, NoMemory};
use sqlite_items::Items;
use std::alloc::Global;

/// What a class says of its place among the others.
#[derive(Debug, Drop)]
pub struct Header {
    pub name: ClassName,
    /// Its superclasses as written, in order.
    pub supers: ClassNames,
}

/// The headers of all classes, in the order of the files.
pub type Headers = Items<Header>;

/// Which class is at or above which, by their places in the list of all.
#[derive(Drop)]
pub struct Hierarchy {
    pub names: NameTable,
    /// The first superclass of each class, where it is listed.
    pub firsts: Items<Option<usize>>,
    /// The listed superclasses of each class.
    pub links: Links,
    /// For each class the marks on those at or above it.
    pub above: Items<Marks>,
}

/// Whether the name begins with `%`.
pub fn begins_with_percent(name: &ClassName) -> bool
    ensures { result ≡ is_system name.now }
{
    match name.0.as_slice().first() {
        Some(byte) => *byte == b'%',
        None => false,
    }
}

fn add_place(names: &NameTable, name: &ClassName, places: &mut Items<usize>) -> Result<(), NoMemory>
    ensures { OnOk result (places.new ≡ places.old ++ option_to_list (place_of names.now name.now)) }
{
    if let Some(place) = names.place(&name.0) {
        places.push(place)?;
    }
    Ok(())
}

fn add_later_places(
    names: &NameTable,
    supers: &[ClassName],
    places: &mut Items<usize>,
) -> Result<(), NoMemory>
    ensures { OnOk result (places.new ≡ places.old ++ later_places names.now supers.now) }
{
    for name in supers {
        if !begins_with_percent(name) {
            add_place(names, name, places)?;
        }
    }
    Ok(())
}

/// The places of the superclasses that are listed.
fn find_supers(
    alloc: Global,
    names: &NameTable,
    supers: &[ClassName],
) -> Result<Items<usize>, NoMemory>
    ensures { IfOk result (λ places. places ≡ super_places names.now supers.now) }
{
    let mut places = Items::new(alloc);
    if let Some((name, later)) = supers.split_first() {
        add_place(names, name, &mut places)?;
        add_later_places(names, later, &mut places)?;
    }
    Ok(places)
}

/// The place of the first superclass, where it is listed.
pub fn find_first(names: &NameTable, supers: &[ClassName]) -> Option<usize>
    ensures { result ≡ first_place names.now supers.now }
{
    match supers.first() {
        Some(name) => names.place(&name.0),
        None => None,
    }
}

fn find_firsts(
    alloc: Global,
    names: &NameTable,
    headers: &[Header],
) -> Result<Items<Option<usize>>, NoMemory>
    ensures { IfOk result (λ firsts. firsts ≡ map (λ h. first_place names.now h.supers) headers.now) }
{
    let mut firsts = Items::new(alloc);
    for header in headers {
        firsts.push(find_first(names, header.supers.as_slice()))?;
    }
    Ok(firsts)
}

fn find_links(alloc: Global, names: &NameTable, headers: &[Header]) -> Result<Links, NoMemory>
    ensures { IfOk result (λ links. links ≡ map (λ h. super_places names.now h.supers) headers.now) }
{
    let mut links = Items::new(alloc);
    for header in headers {
        links.push(find_supers(alloc, names, header.supers.as_slice())?)?;
    }
    Ok(links)
}

fn find_above(alloc: Global, links: &[Items<usize>]) -> Result<Items<Marks>, NoMemory>
    requires { AreWithin links.now (length links.now) }
    ensures { IfOk result (AreAllAbove links.now (length links.now)) }
{
    let mut above = Items::new(alloc);
    for start in 0..links.len() {
        above.push(marks_above(alloc, links, start)?)?;
    }
    Ok(above)
}

fn top_of(firsts: &[Option<usize>], most: usize, start: usize) -> usize
    ensures { result ≡ top most firsts.now start }
{
    let mut here = start;
    let mut left = most;
    while left > 0 {
        match firsts.get(here) {
            Some(Some(first)) => {
                here = *first;
                left -= 1;
            }
            _ => return here,
        }
    }
    here
}

impl Hierarchy {
    /// The hierarchy of classes whose names differ.
    pub fn new(alloc: Global, names: NameTable, headers: &[Header]) -> Result<Hierarchy, NoMemory>
        requires { names ≡ names_of headers.now }
        ensures { IfOk result (IsHierarchyOf headers.now) }
    {
        let firsts = find_firsts(alloc, &names, headers)?;
        let links = find_links(alloc, &names, headers)?;
        let above = find_above(alloc, links.as_slice())?;
        Ok(Hierarchy {
            names,
            firsts,
            links,
            above,
        })
    }

    /// Whether the class at one place is at or below that at another.
    pub fn is_at_or_below(&self, below: usize, above: usize) -> bool
        ensures { result ≡ mark_at (get_or self.now.above below []) above }
    {
        match self.above.get(below) {
            Some(marks) => is_marked(marks.as_slice(), above),
            None => false,
        }
    }

    /// How many classes are at or above the class at this place.
    pub fn rank(&self, place: usize) -> usize
        ensures { result ≡ rank self.now.above place }
    {
        match self.above.get(place) {
            Some(marks) => count_marked(marks.as_slice()),
            None => 0,
        }
    }

    /// The last class of the chain of first superclasses that begins with the class at this place.
    pub fn top(&self, start: usize) -> usize
        ensures { result ≡ top (length self.now.firsts) self.now.firsts start }
    {
        top_of(self.firsts.as_slice(), self.firsts.len(), start)
    }
}
