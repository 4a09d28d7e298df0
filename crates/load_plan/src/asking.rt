ghost use Rattle.std.specs.Prelude.{◌≡◌, IfOk, Some};
ghost use Rattle.record_layout.specs.Rows.{data_node as row_of};
ghost use Rattle.object_calls.specs.Asking.{lock_counted, unlock as unlock_of};

use obj_kinds::{Keep, Mode, NoMemory, Op, Owner};
use schema_kinds::Key;
use std::alloc::Global;
use storage_map::data_node;

/// The counted lock of the row of a key, on behalf of an object call. It fails only for want of memory.
pub fn lock(alloc: Global, key: &Key, mode: Mode) -> Result<Op, NoMemory>
    ensures { IfOk result (λ op. op ≡ lock_counted mode (row_of key.now)) }
{
    let row = data_node(alloc, key)?;
    Ok(Op::Lock(row, mode, Owner::Object, Keep::Counted))
}

/// That the lock is given back. It fails only for want of memory.
pub fn unlock(alloc: Global, key: &Key, mode: Mode) -> Result<Op, NoMemory>
    ensures { IfOk result (λ op. op ≡ unlock_of mode (row_of key.now)) }
{
    let row = data_node(alloc, key)?;
    Ok(Op::Unlock(row, mode, Owner::Object))
}
