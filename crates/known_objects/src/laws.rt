//! Laws of the keys that the memory of a process names: its live objects' own, and the targets whose ids stand in their one sides.

ghost use Rattle.known_objects.specs.Laws.{PlacesNameNoMore, CallsNameNoMore, NewObjectsNameNoMore, SlotSetsNameNoMore, OneSidesNameNoMore, ElementsNameNoMore, WritesNameNoMore};

/// The empty memory names no key, and neither a place more or less nor what is told of released objects is a matter of keys.
pub fn places_name_no_more_keys()
    ensures { PlacesNameNoMore }
{}

/// A call that holds an object, gives it a level of 2 at least, or makes a member and its holder name each other, leaves a memory that names
/// no more keys.
pub fn calls_name_no_more_keys()
    ensures { CallsNameNoMore }
{}

/// A new object names no key.
pub fn new_objects_name_no_more_keys()
    ensures { NewObjectsNameNoMore }
{}

/// What names no more keys, whatever property has it, is put into a slot.
pub fn slot_sets_name_no_more_keys()
    ensures { SlotSetsNameNoMore }
{}

/// A one side is set with the touched members of its targets.
pub fn one_sides_name_no_more_keys()
    ensures { OneSidesNameNoMore }
{}

/// An element is set, as a property of one element or as one of a list or of an array, in a schema whose parts have no one sides.
pub fn elements_name_no_more_keys()
    ensures { ElementsNameNoMore }
{}

/// A set that a process asks for, done or refused, leaves a memory that names no more keys.
pub fn writes_name_no_more_keys()
    ensures { WritesNameNoMore }
{}
