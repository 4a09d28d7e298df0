//! The law of deletes.

ghost use Rattle.good_deletes.specs.Laws.{DeletesAreGood};

/// A delete of level 1 to 4, of a key of the schema, asks only what may come, whatever the other processes do meanwhile: it kills only what
/// it holds, at its `Commit` what it killed turns its view into the view without the key and the change is safe, and it leaves the process
/// within no save or delete.
pub fn deletes_are_good()
    ensures { DeletesAreGood }
{}
