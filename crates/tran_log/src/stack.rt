ghost use Rattle.std.specs.Prelude.{◌≡◌, ◌+◌, ◌<◌, ◌≤◌, [], vec_len, OnOk, OnErr};
ghost use Rattle.obj_kinds.specs.declared.node.Node.{Node};
ghost use Rattle.tran_log.specs.Levels.{committed, kept_by, pins_of};
ghost use Rattle.tran_log.specs.Kept.{levels_of, IsLog};

use crate::kept::{Kept, note_all, unpin_all};
use global_tree::Tree;
use obj_kinds::NoMemory;

/// Ends the only level, and gives its pins back.
pub fn drop_last(levels: &mut Vec<Kept>, tree: &mut Tree)
    requires one { vec_len levels.old ≡ 1 }
    requires log { IsLog levels.old.items }
    requires pins { (n : Node) → kept_by (levels_of levels.old.items) n ≤ pins_of tree.old.pins n }
    ensures log { IsLog levels.new.items }
    ensures levels { levels_of levels.new.items ≡ committed (levels_of levels.old.items) }
    ensures globals { tree.new.globals ≡ tree.old.globals }
    ensures pins { (n : Node) → pins_of tree.new.pins n + kept_by (levels_of levels.old.items) n ≡ pins_of tree.old.pins n + kept_by (levels_of levels.new.items) n }
{
    if let Some(top) = levels.pop() {
        unpin_all(&top, tree);
    }
}

/// Adds to the level below the top what it lacks, and gives the other pins of the top back.
pub fn join_top(levels: &mut Vec<Kept>, tree: &mut Tree) -> Result<(), NoMemory>
    requires inner { 2 ≤ vec_len levels.old }
    requires log { IsLog levels.old.items }
    requires pins { (n : Node) → kept_by (levels_of levels.old.items) n ≤ pins_of tree.old.pins n }
    ensures log { IsLog levels.new.items }
    ensures levels { OnOk result (levels_of levels.new.items ≡ committed (levels_of levels.old.items)) }
    ensures globals { tree.new.globals ≡ tree.old.globals }
    ensures pins { OnOk result ((n : Node) → pins_of tree.new.pins n + kept_by (levels_of levels.old.items) n ≡ pins_of tree.old.pins n + kept_by (levels_of levels.new.items) n) }
    ensures err { OnErr result ((levels_of levels.new.items ≡ levels_of levels.old.items) × (tree.new ≡ tree.old)) }
{
    let top = levels.len() - 1;
    let more = levels[top].len();
    levels[top - 1].reserve(more)?;
    if let Some(kept) = levels.pop() {
        note_all(&mut levels[top - 1], kept, tree);
    }
    Ok(())
}
