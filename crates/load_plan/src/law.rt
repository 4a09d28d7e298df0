//! The law of what a load asks.

ghost use Rattle.std.specs.Prelude.{ℕ, List};
ghost use Rattle.obj_kinds.specs.declared.name.ClassName.{ClassName};
ghost use Rattle.obj_kinds.specs.declared.op.Reply.{Reply};
ghost use Rattle.schema_kinds.specs.declared.class.Class.{Class};
ghost use Rattle.schema_kinds.specs.declared.key.Key.{Key};
ghost use Rattle.store_calls.specs.Calls.{asked};
ghost use Rattle.object_calls.specs.Loads.{LoadCall, load, raise};
ghost use Rattle.load_plan.specs.Own.{IsOfKey, AsksOnly, AreAll};

/// Each operation that a load can ask, whatever is replied, is on the nodes of its own key: a lock of the row or its giving
/// back, or a read of the row or of a node below it. So are the locks of a raise.
pub fn loads_ask_for_their_own_key_alone()
    ensures calls { (classes : List Class) (tries most : ℕ) (l : LoadCall) → AsksOnly (IsOfKey l.key) (load classes tries most l) }
    ensures asked { (classes : List Class) (tries most : ℕ) (l : LoadCall) (rs : List Reply) → AreAll (IsOfKey l.key) (asked (load classes tries most l) rs) }
    ensures raises { (tries : ℕ) (key : Key) (class : ClassName) (u v : ℕ) → AsksOnly (IsOfKey key) (raise tries key class u v) }
{}
