ghost use Rattle.std.specs.Prelude.{◌≡◌, [], ◌∷◌, ◌++◌, IfOk, OnOk};
ghost use Rattle.std.specs.List.{list_any};
ghost use Rattle.obj_kinds.specs.Texts.{same_text};
ghost use Rattle.schema_kinds.specs.OwnGlobals.{put_name, put_globals, put_all_globals};
ghost use Rattle.schema_kinds.specs.Classes.{is_root};

use crate::class::Class;
use crate::names::NameTable;
use crate::schema::is_extent_root;
use indexmap::IndexSet;
use obj_kinds::NoMemory;
use std::alloc::Global;
use std::marker::Model;

/// Names of globals, each once, that are found without a search; seen as the list of them.
#[derive(Drop)]
pub(crate) struct GlobalNames {
    names: IndexSet<Vec<u8>>,
}

impl Model for GlobalNames {
    ghost use Rattle.std.specs.Prelude.{ℕ, List, map};

    ghost Value = { List (List ℕ) };

    ghost view = { λ t. map (λ v. v.items) t.names.keys };
}

impl GlobalNames {
    fn new(alloc: Global) -> GlobalNames
        ensures { result ≡ [] }
    {
        GlobalNames {
            names: IndexSet::new(alloc),
        }
    }

    fn insert(&mut self, name: Vec<u8>) -> Result<(), NoMemory>
        ensures { OnOk result (self.new ≡ put_name self.old name.items) }
    {
        self.names.insert_full(name)?;
        Ok(())
    }

    /// Whether the name is among them. It takes no memory.
    pub(crate) fn contains(&self, name: &[u8]) -> bool
        ensures { result ≡ list_any (same_text name.now) self.now }
    {
        self.names.contains(name)
    }
}

fn with_letter(alloc: Global, name: &[u8], letter: u8) -> Result<Vec<u8>, NoMemory>
    ensures { IfOk result (λ longer. longer.items ≡ name.now ++ letter ∷ []) }
{
    let mut longer = Vec::from_slice(alloc, name)?;
    longer.push(letter)?;
    Ok(longer)
}

fn put_globals_of(
    alloc: Global,
    names: &NameTable,
    class: &Class,
    globals: &mut GlobalNames,
) -> Result<(), NoMemory>
    ensures { OnOk result (globals.new ≡ put_globals names.now class.now globals.old) }
{
    if !is_extent_root(names, class) {
        return Ok(());
    }
    let name = class.name.0.as_slice();
    globals.insert(with_letter(alloc, name, b'D')?)?;
    globals.insert(with_letter(alloc, name, b'I')?)
}

/// The data and index globals of all extents; it fails only for want of memory.
pub(crate) fn find_globals(
    alloc: Global,
    names: &NameTable,
    classes: &[Class],
) -> Result<GlobalNames, NoMemory>
    ensures { IfOk result (λ globals. globals ≡ put_all_globals names.now classes.now []) }
{
    let mut globals = GlobalNames::new(alloc);
    for class in classes {
        put_globals_of(alloc, names, class, &mut globals)?;
    }
    Ok(globals)
}
