ghost use Rattle.std.specs.Prelude.{◌≡◌, IfOk};

use obj_kinds::{NoMemory, Op, Pid, Reply};
use std::alloc::Global;

/// What a process asked, and what the store answered.
#[derive(Debug, Drop)]
pub struct Entry {
    pub pid: Pid,
    pub op: Op,
    pub reply: Reply,
}

impl Entry {
    /// The same entry again; it fails only for want of memory.
    pub fn copy(&self, alloc: Global) -> Result<Entry, NoMemory>
        ensures { IfOk result (λ entry. entry ≡ self.now) }
    {
        Ok(Entry {
            pid: self.pid,
            op: self.op.copy(alloc)?,
            reply: self.reply.copy(alloc)?,
        })
    }
}
