//! What is asked of the objects of a save, on worked objects.

ghost use Rattle.saving_rules.specs.Worked.{WorkedCanBeSaved};

/// A new branch, an account whose number changes, and a clerk whose branch is known, have all that is asked of the objects of a save, whatever
/// id is drawn for the branch.
pub fn worked_objects_can_be_saved()
    ensures { WorkedCanBeSaved }
{}
