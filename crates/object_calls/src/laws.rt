//! Laws of the calls of objects.

ghost use Rattle.std.specs.Prelude.{List, Option};
ghost use Rattle.schema_kinds.specs.declared.class.Class.{Class};
ghost use Rattle.schema_kinds.specs.declared.key.Key.{Key};
ghost use Rattle.schema_kinds.specs.declared.record.Record.{Record};
ghost use Rattle.storage_map.specs.Changes.{AreChanges};
ghost use Rattle.object_calls.specs.Edits.{edits_of};
ghost use Rattle.object_calls.specs.LoadSamples.{loads, AreLoadsSeen, raises, AreRaisesSeen};
ghost use Rattle.object_calls.specs.DeleteSamples.{deletes, AreDeletesSeen};
ghost use Rattle.object_calls.specs.SaveSamples.{saves, AreSavesSeen};
ghost use Rattle.object_calls.specs.MemberSamples.{walks, AreMembersSeen};

/// What a save or delete writes of an object are the changes that turn the nodes of the one record into those of the other.
#[tactic(auto, using(crate::proofs::EditLaws::edits_are_changes))]
pub fn saves_write_the_changes_of_records()
    ensures { (classes : List Class) (key : Key) (old new : Option Record) → AreChanges classes key old new (edits_of classes key old new) }
{}

/// Worked loads, and raises of a live object, ask, note and answer what was worked out by hand.
#[tactic(auto, using(crate::proofs::LoadsSampled::loads_seen, crate::proofs::LoadsSampled::raises_seen))]
pub fn worked_loads_ask_what_they_show()
    ensures loads { AreLoadsSeen loads }
    ensures raises { AreRaisesSeen raises }
{}

/// Worked deletes ask, note and answer what was worked out by hand.
#[tactic(auto, using(crate::proofs::DeletesSampled::deletes_seen))]
pub fn worked_deletes_ask_what_they_show()
    ensures { AreDeletesSeen deletes }
{}

/// Worked saves ask, note and answer what was worked out by hand.
#[tactic(auto, using(crate::proofs::SavesSampled::saves_seen))]
pub fn worked_saves_ask_what_they_show()
    ensures { AreSavesSeen saves }
{}

/// So do walks over the members of a many side.
#[tactic(auto, using(crate::proofs::SavesSampled::walks_seen))]
pub fn worked_walks_over_members_ask_what_they_show()
    ensures { AreMembersSeen walks }
{}
