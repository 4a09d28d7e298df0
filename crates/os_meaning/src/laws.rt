//! Laws of the meaning of scripts.

ghost use Rattle.std.specs.Prelude.{ℕ, suc, ◌+◌, ◌≤◌, false, List, Option};
ghost use Rattle.os_kinds.specs.declared.val.Val.{Val};
ghost use Rattle.os_kinds.specs.declared.command.Command.{Command};
ghost use Rattle.os_meaning.specs.Samples.{samples, AreShown};
ghost use Rattle.os_meaning.specs.Frames.{Vars};
ghost use Rattle.os_meaning.specs.Meaning.{meaning};
ghost use Rattle.os_meaning.specs.Accounts.{Balances, count_some, count_vars};
ghost use Rattle.os_meaning.specs.Units.{IsMetered, units_taken, points_passed};
ghost use Rattle.os_kinds.specs.declared.call.Answer.{Answer};

/// Small scripts mean what they are worked out to show: prints, calls, places of objects, units, points, and how they end.
#[tactic(auto, using(crate::proofs::Sampled::all_shown))]
pub fn small_scripts_mean_what_they_show()
    ensures { AreShown samples }
{}

/// Each object has exactly the places that a script's events say: a place that is told to be lost was there, and when the
/// script ends with a value, no places are left but those of this value.
#[tactic(auto, using(crate::proofs::ScriptBalances::accounted))]
pub fn places_of_objects_are_accounted_for()
    ensures { (o : ℕ) (this : Option Val) (units : ℕ) (script : List Command) (vars : Vars) → Balances o (meaning this units script vars) (count_some o this + count_vars o vars) }
{}

/// Each unit that a script takes is that of one argument of a command, of one condition or of one turn, which ends at a point of its
/// own before the next unit is taken. So a script takes at most one unit more than it has passed points.
#[tactic(auto, using(crate::proofs::ScriptBalances::metered, crate::proofs::ScriptBalances::bounded))]
pub fn each_unit_has_its_own_point()
    ensures metered { (this : Option Val) (units : ℕ) (script : List Command) (vars : Vars) → IsMetered false (meaning this units script vars) }
    ensures bounded { (this : Option Val) (units : ℕ) (script : List Command) (vars : Vars) (answers : List Answer) → units_taken (meaning this units script vars) answers ≤ suc (points_passed (meaning this units script vars) answers) }
{}
