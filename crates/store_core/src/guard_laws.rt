ghost use Rattle.std.specs.Prelude.{◌≡◌, ◌<◌, ◌≤◌, ◌≢◌, ℕ, true, false, List, ◌∷◌, ◌++◌, unwrap_or};
ghost use Rattle.std.specs.FinMap.{get};
ghost use Rattle.obj_kinds.specs.declared.node.Node.{Node};
ghost use Rattle.obj_kinds.specs.declared.op.Pid.{Pid};
ghost use Rattle.obj_kinds.specs.declared.op.Op.{Op};
ghost use Rattle.global_tree.specs.Contents.{Globals};
ghost use Rattle.lock_table.specs.declared.hold.Hold.{Hold};
ghost use Rattle.lock_table.specs.Holds.{kept};
ghost use Rattle.store_core.specs.declared.entry.Entry.{Entry};
ghost use Rattle.store_core.specs.Machine.{State, is_live, levels_at, after, opening};
ghost use Rattle.store_core.specs.Cleared.{cleared, outermost};
ghost use Rattle.store_core.specs.History.{state_after};
ghost use Rattle.store_core.specs.Guard.{Guard, Closed, is_guarded, names, Respects, IsLegalUnder, IsGuarded};
ghost use Rattle.store_core.specs.Guard.{MovesAtCommits, last_committed, ends};

/// A law of locks kept to the end, for every state, process and operation: such a lock stays unless
/// the operation ends its process, or leaves the last of its process's levels, and then it goes. An
/// unlock doesn't take it.
pub fn locks_last_to_the_end()
    ensures stay { (s : State) (p : Pid) (op : Op) (h : Hold)
        → (kept s.holds h).to_end ≡ true
        → (h.pid.0 ≡ p.0 → ends op (levels_at s p.0) (levels_at (after s p op) p.0) ≡ false)
        → (kept (after s p op).holds h).to_end ≡ true }
    ensures go { (s : State) (p : Pid) (op : Op) (h : Hold)
        → h.pid.0 ≡ p.0 → ends op (levels_at s p.0) (levels_at (after s p op) p.0) ≡ true
        → (kept (after s p op).holds h).to_end ≡ false }
{}

/// A law of guarded nodes, for every guard: the store is guarded at the opening, and each operation
/// of a live process that respects the guard leaves it so. Then no guarded node is in levels of two
/// processes, and one that no process may write is in none and keeps its value.
pub fn guards_keep_writers_apart()
    ensures opening { (guard : Guard) (pids : ℕ) (g : Globals) → IsGuarded guard (opening pids g) }
    ensures kept { (guard : Guard) (s : State) (p : Pid) (op : Op)
        → is_live s p ≡ true → Respects guard s p op → IsGuarded guard s → IsGuarded guard (after s p op) }
    ensures alone { (guard : Guard) (s : State) (p q : Pid) (n : Node)
        → is_guarded guard n ≡ true → IsGuarded guard s
        → names (levels_at s p.0) n ≡ true → names (levels_at s q.0) n ≡ true → p.0 ≡ q.0 }
    ensures closed { (guard : Guard) (s : State) (p : Pid) (n : Node)
        → guard n ≡ Closed → IsGuarded guard s → names (levels_at s p.0) n ≡ false }
    ensures unchanged { (guard : Guard) (s : State) (p : Pid) (op : Op) (n : Node)
        → guard n ≡ Closed → Respects guard s p op → IsGuarded guard s
        → get (after s p op).globals n ≡ get s.globals n }
{}

/// A law of cleared globals: where one process alone may have a node in its levels, the node's
/// cleared value is what the outermost of them that has it keeps, and otherwise the present value.
/// In a guarded store this is so of each guarded node that a process has in a level.
pub fn cleared_values_are_of_one_process()
    ensures alone { (s : State) (p : ℕ) (n : Node)
        → 0 < p → p ≤ s.pids → ((q : ℕ) → q ≢ p → names (levels_at s q) n ≡ false)
        → cleared s n ≡ unwrap_or (outermost (levels_at s p) n) (get s.globals n) }
    ensures guarded { (guard : Guard) (s : State) (p : Pid) (n : Node)
        → is_guarded guard n ≡ true → IsGuarded guard s → names (levels_at s p.0) n ≡ true
        → cleared s n ≡ unwrap_or (outermost (levels_at s p.0) n) (get s.globals n) }
{}

/// A law of guarded nodes, for every operation of a live process that respects the guard: it leaves
/// the cleared value of each guarded node as it was, unless it is the outermost commit of a process
/// that has the node in its level. Then the cleared value becomes the present one.
pub fn cleared_values_move_at_commits()
    ensures { (guard : Guard) (s : State) (p : Pid) (op : Op)
        → is_live s p ≡ true → Respects guard s p op → IsGuarded guard s → MovesAtCommits guard s p op }
{}

/// The laws of guarded nodes over whole legal histories in which each operation respects the guard:
/// the store is guarded after every front of the history, and each entry moves cleared values at
/// outermost commits alone. So the cleared value of a guarded node is what it had at the last
/// outermost commit with it in its level, and at the opening where there was none. What no process
/// may write is as it was at the opening.
pub fn histories_respect_guards()
    ensures guarded { (guard : Guard) (pids : ℕ) (g : Globals) (es fs : List Entry)
        → IsLegalUnder guard (opening pids g) (es ++ fs) → IsGuarded guard (state_after (opening pids g) es) }
    ensures cleared { (guard : Guard) (pids : ℕ) (g : Globals) (es fs : List Entry) (e : Entry)
        → IsLegalUnder guard (opening pids g) (es ++ e ∷ fs)
        → MovesAtCommits guard (state_after (opening pids g) es) e.pid e.op }
    ensures committed { (guard : Guard) (pids : ℕ) (g : Globals) (es : List Entry) (n : Node)
        → is_guarded guard n ≡ true → IsLegalUnder guard (opening pids g) es
        → cleared (state_after (opening pids g) es) n ≡ last_committed (opening pids g) es n (get g n) }
    ensures closed { (guard : Guard) (pids : ℕ) (g : Globals) (es : List Entry) (n : Node)
        → guard n ≡ Closed → IsLegalUnder guard (opening pids g) es
        → get (state_after (opening pids g) es).globals n ≡ get g n }
{}
