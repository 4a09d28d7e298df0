ghost use Rattle.std.specs.Prelude.{◌≡◌, ◌+◌, ◌<◌, ◌≤◌, ◌^◌, vec_len, vec_capacity, OnOk, OnErr};

use crate::entry::Entry;
use obj_kinds::NoMemory;

/// The entries of a store, in the order in which they came.
pub type History = Vec<Entry>;

/// Makes room for so many entries more. At a want of memory nothing changes.
pub fn make_room(history: &mut History, entries: usize) -> Result<(), NoMemory>
    ensures items { history.new.items ≡ history.old.items }
    ensures room { OnOk result (vec_len history.old + entries ≤ vec_capacity history.new) }
    ensures more { vec_capacity history.old ≤ vec_capacity history.new }
{
    history.reserve(entries)?;
    Ok(())
}
