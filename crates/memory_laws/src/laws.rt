//! Laws of the memory of a process.

ghost use Rattle.memory_laws.specs.Made.{NewObjectsKeep, LoadedObjectsKeep, SavedObjectsKeep};
ghost use Rattle.memory_laws.specs.Kept.{StartsGood, PlacesKeep, CallsKeep, SlotSetsKeep};
ghost use Rattle.memory_laws.specs.Sets.{SetsKeep, ElementsKeep, OneSidesKeep, MembersKeep};
ghost use Rattle.memory_laws.specs.Writes.{WritesCome, WritesKeep};

/// A process begins with a good memory, which nothing holds.
pub fn memory_starts_good()
    ensures { StartsGood }
{}

/// A place more of a process holds its object once more, and a place less once less; what is told of released objects is no matter of
/// holds. Memory stays good.
pub fn places_are_holds()
    ensures { PlacesKeep }
{}

/// A call that holds a live object, or gives an object another level, leaves a good memory.
pub fn calls_hold_what_they_answer()
    ensures { CallsKeep }
{}

/// What fits a property is put into its slot: the holds that pass into it are no longer outside, and memory stays good.
pub fn sets_take_holds_in()
    ensures { SlotSetsKeep }
{}

/// A property of one element is set, a part as a copy with the objects that it has of its own: the hold on what is set is the set's from
/// then on, and memory stays good.
pub fn sets_of_properties_keep_memory()
    ensures { SetsKeep }
{}

/// An element is set, as a property of one element or as one of a list or of an array: the hold on what is set is the set's from then on,
/// and memory stays good.
pub fn elements_keep_memory()
    ensures { ElementsKeep }
{}

/// A one side is set: the touched members of its targets are kept in step, and memory stays good.
pub fn one_sides_keep_memory()
    ensures { OneSidesKeep }
{}

/// A member of a many side was opened: it and its holder name each other, and memory stays good.
pub fn opened_members_keep_memory()
    ensures { MembersKeep }
{}

/// A new object has its number, one hold of the caller, and its initial values; memory stays good.
pub fn new_objects_keep_memory()
    ensures { NewObjectsKeep }
{}

/// A loaded object has one hold of the caller, and memory stays good, where what stands in its slots fits and no live object has its key.
pub fn loaded_objects_keep_memory()
    ensures { LoadedObjectsKeep }
{}

/// Objects that were saved have the ids that were drawn for them, and memory stays good, where these are ids of their extents and no two
/// objects come to have one key.
pub fn saved_objects_keep_memory()
    ensures { SavedObjectsKeep }
{}

/// A set that a process asks for asks no operation: it is done, and the property has what stands there by the rules of sets, or it is
/// refused with an error and changes nothing.
pub fn writes_are_done_or_refused()
    ensures { WritesCome }
{}

/// A set that a process asks for, whether it is done or refused, leaves a good memory and holds outside as they were, where the schema's
/// sides fit each other and its parts nest as linking has them.
pub fn writes_leave_holds_as_they_were()
    ensures { WritesKeep }
{}
