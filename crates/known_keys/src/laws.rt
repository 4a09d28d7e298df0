//! Laws of what a process knows of keys: with which class an object of a key may stand, in all worlds that are or may come.

ghost use Rattle.known_keys.specs.Laws.{OthersKeepKnown, OwnKeepsKnown, OthersKeepKnowledge, PlainKeepsKnowledge};

/// A key that a process knows stays known through whatever the other processes ask, also while the process is within a save of its own
/// that doesn't draw the key.
pub fn others_keep_known_keys()
    ensures { OthersKeepKnown }
{}

/// And through each operation of its own that may come: no count draws a known key, and a commit puts it with its class.
pub fn own_entries_keep_known_keys()
    ensures { OwnKeepsKnown }
{}

/// What a process at rest knows, it still knows behind an operation of another one.
pub fn others_keep_what_is_known()
    ensures { OthersKeepKnowledge }
{}

/// And behind an operation of its script that writes nothing which the schema owns.
pub fn plain_entries_keep_what_is_known()
    ensures { PlainKeepsKnowledge }
{}
