//! Laws of runs.

ghost use Rattle.std.specs.Prelude.{ℕ, List};
ghost use Rattle.std.specs.FinMap.{empty};
ghost use Rattle.schema_kinds.specs.declared.class.Class.{Class};
ghost use Rattle.schema_kinds.specs.Worlds.{World};
ghost use Rattle.global_tree.specs.Contents.{Globals};
ghost use Rattle.store_core.specs.Machine.{opening};
ghost use Rattle.object_runs.specs.ObjectMachine.{first_desks};
ghost use Rattle.object_runs.specs.Runs.{start};
ghost use Rattle.object_runs.specs.Headline.{Opening, ClearedIsImage};
ghost use Rattle.object_runs.specs.Invariant.{IsInvariant};
ghost use Rattle.object_runs.specs.MarkSamples.{OpensAccount, SavesAccount, FailsToSave, DeletesAccount, FailsToDelete};

/// An empty store and an empty world are a start that the headline asks for.
pub fn an_empty_start_opens()
    ensures { (classes : List Class) → Opening classes empty empty }
{}

/// The invariant holds at every start that the headline asks for.
pub fn the_invariant_holds_at_the_start()
    ensures { (classes : List Class) (pids : ℕ) (g : Globals) (w : World) → Opening classes g w → IsInvariant classes (opening pids g) (first_desks w) }
{}

/// And there the cleared globals are the image of the world.
#[tactic(auto, using(crate::proofs::StartLaws::start_image))]
pub fn the_start_is_the_image_of_its_world()
    ensures { (classes : List Class) (pids : ℕ) (g : Globals) (w : World) → Opening classes g w → ClearedIsImage classes (start pids g w) }
{}

/// Worked calls note, at the entries that were worked out by hand, what they loaded, saved, deleted or failed by.
#[tactic(auto, using(crate::proofs::MarksSampled::opens_account, crate::proofs::MarksSampled::saves_account, crate::proofs::MarksSampled::fails_to_save, crate::proofs::MarksSampled::deletes_account, crate::proofs::MarksSampled::fails_to_delete))]
pub fn worked_calls_note_what_they_show()
    ensures opens { OpensAccount }
    ensures saves { SavesAccount }
    ensures fails_to_save { FailsToSave }
    ensures deletes { DeletesAccount }
    ensures fails_to_delete { FailsToDelete }
{}
