ghost use Rattle.std.specs.Prelude.{◌≡◌, IsTrue, ◌↔◌, IfOk};
ghost use Rattle.std.specs.Option.{option_copied};
ghost use Rattle.schema_kinds.specs.Hierarchy.{place_of, IsHierarchyOf};
ghost use Rattle.schema_kinds.specs.Classes.{headers_of, class_names, class_of, IsBelow, extent_of, is_root, is_persistent, is_own_global, short_from, short_name};

use crate::class::{Class, Classes, Sort};
use crate::globals::{GlobalNames, find_globals};
use crate::hierarchy::{Hierarchy, find_first};
use crate::names::NameTable;
use obj_kinds::{ClassName, NoMemory};
use std::alloc::Global;
use std::marker::Model;

/// The classes that a program runs with.
#[derive(Drop)]
pub struct Schema {
    classes: Classes,
    hierarchy: Hierarchy,
    /// The data and index globals of all extents.
    globals: GlobalNames,
}

impl Model for Schema {
    ghost use Rattle.std.specs.Prelude.{List};
    ghost use Rattle.schema_kinds.specs.declared.class.Class.{Class};
    ghost use Rattle.schema_kinds.specs.Schemas.{IsSchema};

    ghost Value = { List Class };

    ghost view = { λ s. s.classes };

    ghost invariant = { λ s. IsSchema s.classes s.hierarchy s.globals };
}

fn is_persistent(sort: Sort) -> bool
    ensures { result ≡ is_persistent sort }
{
    match sort {
        Sort::Persistent => true,
        Sort::Serial => false,
        Sort::Registered => false,
        Sort::Plain => false,
    }
}

pub(crate) fn is_extent_root(names: &NameTable, class: &Class) -> bool
    ensures { result ≡ is_root names.now class.now }
{
    is_persistent(class.sort) && find_first(names, class.supers.as_slice()).is_none()
}

fn short_part<'a>(text: &'a [u8], best: &'a [u8]) -> &'a [u8]
    ensures { result.now ≡ short_from text.now best.now }
{
    match text.split_first() {
        None => best,
        Some((byte, rest)) => short_part(rest, if *byte == b'.' { rest } else { best }),
    }
}

/// The part of a class's name after its last dot.
pub fn short_name_of(name: &ClassName) -> &[u8]
    ensures { result.now ≡ short_name name.now }
{
    short_part(name.0.as_slice(), name.0.as_slice())
}

impl Schema {
    /// The schema of these classes; it fails only for want of memory.
    pub fn new(alloc: Global, classes: Classes, hierarchy: Hierarchy) -> Result<Schema, NoMemory>
        requires { IsHierarchyOf (headers_of classes) hierarchy }
        ensures { IfOk result (λ schema. schema ≡ classes) }
    {
        let globals = find_globals(alloc, &hierarchy.names, classes.as_slice())?;
        Ok(Schema {
            classes,
            hierarchy,
            globals,
        })
    }

    /// The classes in the order of the files.
    pub fn classes(&self) -> &Classes
        ensures { result.now ≡ self.now }
    {
        &self.classes
    }

    /// The place of a class in the list of all, counted from 0.
    pub fn place(&self, name: &ClassName) -> Option<usize>
        ensures { result ≡ place_of (class_names self.now) name.now }
    {
        self.hierarchy.names.place(&name.0)
    }

    /// The class of that name.
    pub fn class(&self, name: &ClassName) -> Option<&Class>
        ensures { option_copied result ≡ class_of self.now name.now }
    {
        match self.place(name) {
            Some(place) => self.classes.get(place),
            None => None,
        }
    }

    /// Whether the first class is the second, or extends it in any number of steps.
    pub fn is_below(&self, below: &ClassName, above: &ClassName) -> bool
        ensures { IsTrue result ↔ IsBelow self.now below.now above.now }
    {
        match (self.place(below), self.place(above)) {
            (Some(below), Some(above)) => self.hierarchy.is_at_or_below(below, above),
            _ => false,
        }
    }

    /// The extent that has the objects of a persistent class, named by its root class; `None` exactly where
    /// the schema has no persistent class of that name.
    pub fn extent(&self, name: &ClassName) -> Option<&ClassName>
        ensures { option_copied result ≡ extent_of self.now name.now }
    {
        let place = self.place(name)?;
        let class = self.classes.get(place)?;
        if !is_persistent(class.sort) {
            return None;
        }
        let root = self.classes.get(self.hierarchy.top(place))?;
        Some(&root.name)
    }

    /// Whether a global, named without `^`, is the data global or the index global of some extent. It
    /// takes no memory, and no walk over the classes.
    pub fn is_own(&self, global: &[u8]) -> bool
        ensures { result ≡ is_own_global self.now global.now }
    {
        self.globals.contains(global)
    }
}
