ghost use Rattle.std.specs.Prelude.{◌≡◌, [], ◌∷◌, ◌++◌, ◌<◌, not, length, position, IfOk, IfSome, OnErr, IsTrue, IsFalse};
ghost use Rattle.std.specs.List.{list_any};
ghost use Rattle.schema_kinds.specs.Hierarchy.{same_text};

use indexmap::IndexSet;
use obj_kinds::{NoMemory, Text};
use std::alloc::Global;
use std::marker::Model;

/// Names in the order in which they were declared, each once, that are found without a search.
#[derive(Drop)]
pub struct NameTable {
    names: IndexSet<Text>,
}

impl Model for NameTable {
    ghost use Rattle.std.specs.Prelude.{ℕ, List};

    ghost Value = { List (List ℕ) };

    ghost view = { λ t. t.names.keys };
}

impl NameTable {
    /// A table without a name.
    pub fn new(alloc: Global) -> NameTable
        ensures { result ≡ [] }
    {
        NameTable {
            names: IndexSet::new(alloc),
        }
    }

    /// Puts the name last and answers true, or answers false where it is there already.
    pub fn insert(&mut self, name: Text) -> Result<bool, NoMemory>
        ensures is_new { IfOk result (λ is_new. is_new ≡ not (list_any (same_text name) self.old)) }
        ensures put { IfOk result (λ is_new. IsTrue is_new → self.new ≡ self.old ++ name ∷ []) }
        ensures there { IfOk result (λ is_new. IsFalse is_new → self.new ≡ self.old) }
        ensures err { OnErr result (self.new ≡ self.old) }
    {
        let (_, is_new) = self.names.insert_full(name)?;
        Ok(is_new)
    }

    /// The place of a name, counted from 0.
    pub fn place(&self, name: &Text) -> Option<usize>
        ensures place { result ≡ position (same_text name.now) self.now }
        ensures within { IfSome result (λ place. place < length self.now) }
    {
        self.names.get_index_of(name)
    }
}
