ghost use Rattle.std.specs.Prelude.{◌≡◌, ◌+◌, ◌≤◌, ◌≢◌, ◌==◌, ℕ, true, false, cond, None, List, [], ◌∷◌, ◌++◌, All};
ghost use Rattle.std.specs.List.{list_all};
ghost use Rattle.obj_kinds.specs.declared.op.Pid.{Pid};
ghost use Rattle.obj_kinds.specs.declared.op.Op.{Op};
ghost use Rattle.obj_kinds.specs.declared.op.Op.TheVariants.{End};
ghost use Rattle.std.specs.FinMap.{get, contains_key, from_entries};
ghost use Rattle.obj_kinds.specs.declared.node.Node.{Node};
ghost use Rattle.global_tree.specs.Contents.{Globals};
ghost use Rattle.lock_table.specs.declared.hold.Hold.{Hold};
ghost use Rattle.lock_table.specs.Calls.{IsFree};
ghost use Rattle.store_core.specs.Cleared.{cleared, outermost};
ghost use Rattle.store_core.specs.declared.entry.Entry.{Entry};
ghost use Rattle.store_core.specs.Machine.{State, is_live, levels_at, after, reply, opening};
ghost use Rattle.store_core.specs.Within.{AreLegal, is_legal_pair, IsWithinLimits, AreLegalOps, AreLegalReplies};
ghost use Rattle.obj_kinds.specs.Limits.{is_legal_reply};
ghost use Rattle.store_core.specs.History.{IsLegal, IsLegalWithin, state_after, entry_of, part_of};
ghost use Rattle.store_core.specs.Ledger.{Ledger, Pairs, state_of, next_entry, end_entry, IsSound, ran, AreAccepted, after_all, entries_of};
ghost use Rattle.store_core.specs.Live.{ends, live_count};
ghost use Rattle.store_core.specs.Volume.{entry_volume, volume};

/// A law of histories, for every state that they begin in: with the entry that the machine makes of
/// an operation of a live process a legal history stays legal, its state is the machine's next one,
/// and its volume grows by that of the entry.
pub fn steps_keep_histories_legal()
    ensures legal { (s : State) (es : List Entry) (p : Pid) (op : Op) → IsLegal s es → is_live (state_after s es) p ≡ true → IsLegal s (es ++ entry_of (state_after s es) p op ∷ []) }
    ensures state { (s : State) (es : List Entry) (e : Entry) → state_after s (es ++ e ∷ []) ≡ after (state_after s es) e.pid e.op }
    ensures volume { (es : List Entry) (e : Entry) → volume (es ++ e ∷ []) ≡ volume es + entry_volume e }
{}

/// A law of the store machine, for every state, process and operation: the levels of all other
/// processes stay as they were, and holds that are free of conflict stay so.
pub fn turns_leave_others_alone()
    ensures levels { (s : State) (p : Pid) (op : Op) (q : ℕ) → q ≢ p.0 → levels_at (after s p op) q ≡ levels_at s q }
    ensures free { (s : State) (p : Pid) (op : Op) → IsFree s.holds → IsFree (after s p op).holds }
{}

/// A law of cleared globals: where no process has a level that names a node, its cleared value is
/// the present one; so it is everywhere at the opening.
pub fn cleared_without_levels()
    ensures same { (s : State) (n : Node) → ((q : ℕ) → outermost (levels_at s q) n ≡ None) → cleared s n ≡ get s.globals n }
    ensures opening { (pids : ℕ) (g : Globals) (n : Node) → cleared (opening pids g) n ≡ get g n }
{}

/// A law of the end of a process, for every state and process: after it the process isn't live and
/// has no level, and no hold is its own.
pub fn ended_processes_hold_nothing()
    ensures live { (s : State) (p : Pid) → is_live (after s p End) p ≡ false }
    ensures levels { (s : State) (p : Pid) → levels_at (after s p End) p.0 ≡ [] }
    ensures holds { (s : State) (p : Pid) (h : Hold) → h.pid.0 ≡ p.0 → contains_key (after s p End).holds h ≡ false }
{}

/// A law of legal histories: each end makes one process fewer live, only processes of the opening
/// are live, and one that isn't live has no further entry and is never live again.
pub fn processes_end_once()
    ensures counted { (pids : ℕ) (g : Globals) (es : List Entry) → IsLegal (opening pids g) es → ends es + live_count (state_after (opening pids g) es) ≡ pids }
    ensures numbered { (pids : ℕ) (g : Globals) (es : List Entry) (p : Pid) → IsLegal (opening pids g) es → is_live (state_after (opening pids g) es) p ≡ true → (1 ≤ p.0) × (p.0 ≤ pids) }
    ensures silent { (s : State) (es : List Entry) (p : Pid) → IsLegal s es → is_live s p ≡ false → All (λ e. e.pid.0 ≢ p.0) es }
    ensures ended { (s : State) (es : List Entry) (p : Pid) → IsLegal s es → is_live s p ≡ false → is_live (state_after s es) p ≡ false }
{}

/// A law over all runs of calls, by what [`crate::Store::apply`] and [`crate::Store::apply_end`]
/// say of one call: after any list of accepted operations the opening, the number of processes and
/// the volume are as they were, the history has grown by what the machine answers to each of them
/// in turn, its state is the machine's, and it is legal and within its volume. So was each
/// beginning of it.
pub fn runs_keep_stores_sound()
    ensures opened { (l : Ledger) (asked : List (Pid × Op)) → ((ran l asked).nodes ≡ l.nodes) × (((ran l asked).pids ≡ l.pids) × ((ran l asked).limit ≡ l.limit)) }
    ensures history { (l : Ledger) (asked : List (Pid × Op)) → (ran l asked).history ≡ l.history ++ entries_of (state_of l) asked }
    ensures state { (l : Ledger) (asked : List (Pid × Op)) → state_of (ran l asked) ≡ after_all (state_of l) asked }
    ensures sound { (l : Ledger) (asked : List (Pid × Op)) → IsSound l → AreAccepted l asked → IsSound (ran l asked) }
    ensures ends { (l : Ledger) (p : Pid) → next_entry l p End ≡ end_entry p }
    ensures beginnings { (v : ℕ) (s : State) (es fs : List Entry) → IsLegalWithin v s (es ++ fs) → IsLegalWithin v s es }
{}

/// A law of legal histories whose opening nodes and operations are within the limits of nodes,
/// values and numbers: each state after such a history is within them, its globals, holds and
/// levels, and so is each of its replies, and the next one. [`crate::Store::opening`] and
/// [`crate::Store::history`] say that a store's nodes and operations are so, and so are those of each
/// beginning of its history.
pub fn histories_stay_within_limits()
    ensures opening { (nodes : Pairs) → list_all is_legal_pair nodes ≡ true → AreLegal (from_entries nodes) }
    ensures beginnings { (es fs : List Entry) → AreLegalOps (es ++ fs) → AreLegalOps es }
    ensures states { (pids : ℕ) (g : Globals) (es : List Entry) → AreLegal g → AreLegalOps es → IsWithinLimits (state_after (opening pids g) es) }
    ensures replies { (pids : ℕ) (g : Globals) (es : List Entry) → AreLegal g → AreLegalOps es → IsLegal (opening pids g) es → AreLegalReplies es }
    ensures next { (pids : ℕ) (g : Globals) (es : List Entry) (p : Pid) (op : Op) → AreLegal g → AreLegalOps es → is_legal_reply (reply (state_after (opening pids g) es) p op) ≡ true }
{}

/// A law of the entries of single processes: a process of a store is live until its own entries have
/// an end, and an entry more is one of its process alone.
pub fn entries_tell_who_is_live()
    ensures live { (l : Ledger) (p : Pid) → 1 ≤ p.0 → p.0 ≤ l.pids → ends (part_of p.0 l.history) ≡ 0 → is_live (state_of l) p ≡ true }
    ensures own { (p : ℕ) (es : List Entry) (e : Entry) → part_of p (es ++ e ∷ []) ≡ part_of p es ++ cond (e.pid.0 == p) (e ∷ []) [] }
{}
