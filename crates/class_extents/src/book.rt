ghost use Rattle.std.specs.Prelude.{◌≡◌, [], OnOk};
ghost use Rattle.class_extents.specs.Books.{group_of, put_entry};

use crate::entry::Entry;
use indexmap::IndexMap;
use obj_kinds::{NoMemory, Text};
use sqlite_items::Items;
use std::alloc::Global;
use std::marker::Model;

/// Entries by their names.
#[derive(Drop)]
pub struct Book {
    groups: IndexMap<Text, Items<Entry>>,
}

impl Model for Book {
    ghost use Rattle.std.specs.Prelude.{ℕ, List};
    ghost use Rattle.class_extents.specs.declared.entry.Entry.{Entry};

    ghost Value = { List (List ℕ × List Entry) };

    ghost view = { λ b. b.groups.entries };
}

impl Book {
    /// A book without an entry.
    pub fn new(alloc: Global) -> Book
        ensures { result ≡ [] }
    {
        Book {
            groups: IndexMap::new(alloc),
        }
    }

    /// The entries of a name, in the order in which they were put.
    pub fn group(&self, name: &Text) -> &[Entry]
        ensures { result.now ≡ group_of name.now self.now }
    {
        match self.groups.get(name) {
            Some(entries) => entries.as_slice(),
            None => &[],
        }
    }

    /// Puts the entry last under its name.
    pub fn put(&mut self, alloc: Global, name: &Text, entry: Entry) -> Result<(), NoMemory>
        ensures { OnOk result (self.new ≡ put_entry self.old name.now entry) }
    {
        let mut group = Items::from_slice(alloc, self.group(name))?;
        group.push(entry)?;
        self.groups.insert(name.copy(alloc)?, group)?;
        Ok(())
    }
}
