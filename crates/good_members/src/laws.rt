//! Laws of the objects of a process over a store: its memory stays good, and names no keys but those that it knows.

ghost use Rattle.good_members.specs.Laws.{PlacesKeepMemory, EntriesKeepMemory, QuietCallsAreGood, QuietMembersAreGood};

/// The first memory is as it is asked to be, and so is memory behind a place more or less, and once what was told of released objects is
/// forgotten.
pub fn places_keep_memory()
    ensures { PlacesKeepMemory }
{}

/// What the other processes ask, and what the script itself asks, leaves memory as it is asked to be.
pub fn entries_keep_memory()
    ensures { EntriesKeepMemory }
{}

/// A call that asks nothing, and leaves a fine memory, is a good call.
pub fn quiet_calls_are_good()
    ensures { QuietCallsAreGood }
{}

/// Sets of properties, and the calls by the names of members that ask nothing, are good calls.
pub fn members_that_ask_nothing_are_good()
    ensures { QuietMembersAreGood }
{}
