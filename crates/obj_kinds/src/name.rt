ghost use Rattle.std.specs.Prelude.{◌≡◌, IfOk};

use crate::memory::NoMemory;
use crate::text::Text;
use std::alloc::Global;

/// The whole name of a class, its package before it: `Bank.Account`.
#[derive(Debug, PartialEq, Eq, PartialOrd, Ord, Hash, Drop)]
pub struct ClassName(pub Text);

impl ClassName {
    /// The same name again; it fails only for want of memory.
    pub fn copy(&self, alloc: Global) -> Result<ClassName, NoMemory>
        ensures { IfOk result (λ name. name ≡ self.now) }
    {
        Ok(ClassName(self.0.copy(alloc)?))
    }
}
