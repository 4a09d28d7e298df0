//! The law of saves.

ghost use Rattle.good_saves.specs.Laws.{SavesAreGood};

/// A save of objects of level 1 to 4, whose records fit their keys and whose targets the process knows, asks only what may come, whatever the
/// other processes do meanwhile: it writes only what it holds, at its `Commit` what it wrote turns its view into the view with the objects put and
/// the change is safe, and it leaves the process within no save or delete.
pub fn saves_are_good()
    ensures { SavesAreGood }
{}
