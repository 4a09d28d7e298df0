ghost use Rattle.std.specs.Prelude.{◌≡◌, ◌↔◌, ◌==◌, Bool, List, Some, None, true, false, cond};
ghost use Rattle.std.specs.FinMap.{contains_key};
ghost use Rattle.obj_kinds.specs.declared.op.Pid.{Pid};
ghost use Rattle.obj_kinds.specs.declared.op.Owner.{Owner};
ghost use Rattle.obj_kinds.specs.declared.op.Keep.{Keep};
ghost use Rattle.lock_table.specs.declared.hold.Hold.{Hold};
ghost use Rattle.lock_table.specs.Holds.{Holds, is_same, is_counted, kept, unheld, raised, granted, one_back, given_back, all_back, all_given_back, without_end, tran_ended, all_dropped};
ghost use Rattle.lock_table.specs.Conflict.{conflicts, refusing};
ghost use Rattle.lock_table.specs.Calls.{Call, after_all, IsFree, AllHeld, IsFirstAgainst};

/// What holds of the table after any calls: no two of its holds are in conflict, and each is
/// counted or stays to the end.
pub fn no_two_conflict()
    ensures free { (calls : List Call) → IsFree (after_all calls) }
    ensures held { (calls : List Call) → AllHeld (after_all calls) }
{}

/// Which hold refuses another: the first of those in conflict with it. Where there is none, the
/// lock is granted.
pub fn first_refuses()
    ensures first { (hs : Holds) (h x : Hold) → (refusing hs h ≡ Some x) ↔ IsFirstAgainst hs h x }
    ensures none { (hs : Holds) (h : Hold) → (refusing hs h ≡ None) ↔ ((x : Hold) → contains_key hs x ≡ true → conflicts h x ≡ false) }
{}

/// How each hold is kept after each change of the table: what the change is about is kept anew, and
/// all others stay as they were.
pub fn kept_after_changes()
    ensures granted { (hs : Holds) (h x : Hold) (k : Keep) → kept (granted hs h k) x ≡ cond (is_same x h) (raised k (kept hs x)) (kept hs x) }
    ensures given_back { (hs : Holds) (h x : Hold) (in_tran : Bool) → kept (given_back hs h in_tran) x ≡ cond (is_same x h) (cond (is_counted (kept hs x)) (one_back in_tran x (kept hs x)) (kept hs x)) (kept hs x) }
    ensures all_given_back { (hs : Holds) (p : Pid) (o : Owner) (in_tran : Bool) (x : Hold) → kept (all_given_back hs p o in_tran) x ≡ all_back p o in_tran x (kept hs x) }
    ensures tran_ended { (hs : Holds) (p : Pid) (x : Hold) → kept (tran_ended hs p) x ≡ without_end p x (kept hs x) }
    ensures all_dropped { (hs : Holds) (p : Pid) (x : Hold) → kept (all_dropped hs p) x ≡ cond (x.pid.0 == p.0) unheld (kept hs x) }
{}
