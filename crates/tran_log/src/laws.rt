ghost use Rattle.std.specs.Prelude.{◌≡◌, ◌∷◌, Option, Some, None, unwrap_or};
ghost use Rattle.std.specs.Option.{option_or};
ghost use Rattle.std.specs.FinMap.{get, find};
ghost use Rattle.obj_kinds.specs.declared.node.Node.{Node};
ghost use Rattle.obj_kinds.specs.declared.value.Value.{Value};
ghost use Rattle.obj_kinds.specs.Order.{node_cmp};
ghost use Rattle.tran_log.specs.Levels.{Level, Levels, Globals, Olds, noted, undone, all_undone, committed};

/// A law of levels, for every level, list of pairs and globals: a level keeps of each node the
/// first value, and undoing the level gives exactly the nodes that it keeps these values again.
pub fn levels_keep_first_values()
    ensures first { (l : Level) (es : Olds) (n : Node) → get (noted l es) n ≡ option_or (get l n) (find node_cmp n es) }
    ensures undone { (l : Level) (g : Globals) (n : Node) → get (undone g l) n ≡ unwrap_or (get l n) (get g n) }
{}

/// A law of levels: where the old values of all nodes that a write changes are noted, undoing the
/// level takes the write back too.
pub fn noted_writes_are_undone()
    ensures { (l : Level) (g h : Globals) (es : Olds) → ((n : Node) (v : Option Value) → find node_cmp n es ≡ Some v → v ≡ get g n) → ((n : Node) → find node_cmp n es ≡ None → get h n ≡ get g n) → undone h (noted l es) ≡ undone g l }
{}

/// A law of levels: the commit of an inner level leaves what undoing all levels gives as it was.
pub fn inner_commits_keep_what_undoing_all_gives()
    ensures { (g : Globals) (l k : Level) (ls : Levels) → all_undone g (committed (l ∷ k ∷ ls)) ≡ all_undone g (l ∷ k ∷ ls) }
{}
