//! Laws of calls and of plans.

ghost use Rattle.std.specs.Prelude.{◌≡◌, ◌<◌, ◌≤◌, ◌-◌, ℕ, Bool, true, List, ◌++◌, length};
ghost use Rattle.obj_kinds.specs.declared.node.Node.{Node};
ghost use Rattle.obj_kinds.specs.declared.value.Value.{Value};
ghost use Rattle.obj_kinds.specs.declared.op.Op.{Op};
ghost use Rattle.obj_kinds.specs.declared.op.Reply.{Reply};
ghost use Rattle.store_calls.specs.Calls.{Call, Tag, Awaits, Tried, Round, bind, turns, run, go_on, within};
ghost use Rattle.store_calls.specs.Plans.{Bounded, IsAfter, IsAfterAll, AsksFor, Tells, SaysNext, TakesReplies, AsksGoOn};
ghost use Rattle.store_calls.specs.WalkPlan.{WalkPhase, walk_to_come, walk_says, walk_takes, is_walking};

/// The law of parts: a call that is one part and then another does the second on the replies that the first left.
#[tactic(auto, using(crate::proofs::TurnRules::run_bind))]
pub fn a_part_has_the_replies_that_are_left<A, B>(_first: &A, _second: &B)
    ensures { (c : Call A) (f : A → Call B) (rs : List Reply) → run (bind c f) rs ≡ go_on f (run c rs) }
{}

/// The law of plans within plans: where an inner plan took a reply as it promised, so did the outer one.
#[tactic(auto, using(crate::proofs::TurnRules::after_bind))]
pub fn a_plan_within_a_plan_keeps_its_promise<A, B>(_inner: &A, _outer: &B)
    ensures { (r : Reply) (before now : Bounded A) (f : ℕ → A → Call B) → IsAfter r before now → IsAfter r (λ most. bind (before most) (f most)) (λ most. bind (now most) (f most)) }
{}

/// The law of walks: where each turn but the last takes a reply, all bounds above the number of replies are alike.
#[tactic(auto, using(crate::proofs::TurnRules::turns_enough))]
pub fn walks_need_a_turn_for_each_reply<S, A>(_state: &S, _answer: &A)
    ensures { (body : S → Call (Tried (Round S A))) → TakesReplies body → (m n : ℕ) (s : S) (rs : List Reply) → length rs < m → length rs < n → run (turns m body s) rs ≡ run (turns n body s) rs }
{}

/// The law of what is asked: with more replies a call asks more, and what it asked before stays.
#[tactic(auto, using(crate::proofs::AskedRules::goes_on))]
pub fn what_is_asked_goes_on<A>(_answer: &A)
    ensures { (c : Call A) → AsksGoOn c }
{}

/// The law of units: with fewer replies than units a call does what it does without a limit.
#[tactic(auto, using(crate::proofs::UnitRules::run_within))]
pub fn units_show_only_where_they_end<A>(_answer: &A)
    ensures { (u : ℕ) (c : Call A) (rs : List Reply) → length rs < u → run (within u c) rs ≡ run c rs }
{}

/// A plan within a process, which makes as many turns as the process has units at most: what the plan asks next the process asks,
/// as long as it has a unit for it.
#[tactic(auto, using(crate::proofs::ProcessRules::asks_within))]
pub fn a_plan_asks_within_a_process<A, B>(_inner: &A, _process: &B)
    ensures { (qs : List Reply) (c now : Bounded A) (f : A → Call B) (op : Op) (u n : ℕ) → IsAfterAll qs c now → SaysNext (AsksFor op) now → length qs < u → u ≤ n → (tag : Tag) × (run (within u (bind (c n) f)) qs ≡ Awaits op tag) }
{}

/// Where the plan has answered, the process goes on with the answer and with the units that are left.
#[tactic(auto, using(crate::proofs::ProcessRules::goes_on_within))]
pub fn a_plan_ends_within_a_process<A, B>(_inner: &A, _process: &B)
    ensures { (qs : List Reply) (c now : Bounded A) (f : A → Call B) (a : A) (u n : ℕ) → IsAfterAll qs c now → SaysNext (Tells a) now → u ≤ n → (rs : List Reply) → length (qs ++ rs) < u → run (within u (bind (c n) f)) (qs ++ rs) ≡ run (within (u - length qs) (f a)) rs }
{}

/// The plan of a walk over an array keeps its promise: it says what the walk asks next, and takes each reply as the walk does.
#[tactic(auto, using(crate::proofs::WalkRules::walk_after, crate::proofs::WalkRules::walk_says_next))]
pub fn walks_keep_their_plan()
    ensures takes { (n : Node) (tag : Tag) (is_form : Node → Value → Bool) (phase : WalkPhase) (r : Reply) → is_walking phase ≡ true → IsAfter r (walk_to_come n tag is_form phase) (walk_to_come n tag is_form (walk_takes n tag is_form phase r)) }
    ensures says { (n : Node) (tag : Tag) (is_form : Node → Value → Bool) (phase : WalkPhase) → SaysNext (walk_says n tag is_form phase) (walk_to_come n tag is_form phase) }
{}
