ghost use Rattle.std.specs.Prelude.{◌≡◌, IfOk, IsTrue, ◌↔◌};
ghost use Rattle.schema_kinds.specs.Worlds.{key_cmp};

use obj_kinds::{ClassName, Id, NoMemory};
use std::alloc::Global;
use std::cmp::Ordering;

/// Which stored object is meant: its extent, named by the root class, and its id there.
#[derive(Debug, PartialEq, Eq, PartialOrd, Ord, Drop)]
pub struct Key {
    pub extent: ClassName,
    pub id: Id,
}

impl Key {
    /// The same again; it fails only for want of memory.
    pub fn copy(&self, alloc: Global) -> Result<Key, NoMemory>
        ensures { IfOk result (λ key. key ≡ self.now) }
    {
        let extent = self.extent.copy(alloc)?;
        Ok(Key {
            extent,
            id: self.id,
        })
    }

    /// The order of keys: by the bytes of the extent's name, and then by the numbers of the id.
    #[tactic(auto, unfolding(crate::specs::Worlds::key_cmp))]
    pub fn compare(&self, other: &Key) -> Ordering
        ensures { result ≡ key_cmp self.now other.now }
    {
        match self.extent.0.compare(&other.extent.0) {
            Ordering::Equal => self.id.compare(&other.id),
            order => order,
        }
    }

    /// Whether both name the same object.
    #[tactic(auto, using(crate::proofs::SameKeys::key_is_same))]
    pub fn is_same(&self, other: &Key) -> bool
        ensures { IsTrue result ↔ (self.now ≡ other.now) }
    {
        matches!(self.compare(other), Ordering::Equal)
    }
}
