//! Laws of calls of objects that ask no operation: memory stays good and names no more keys.

ghost use Rattle.quiet_members.specs.Laws.{WritesAreQuiet, NewsAreQuiet, ListsAreQuiet, ArraysAreQuiet, InsertsAreQuiet, ClassesAreQuiet, ObjectsAreQuiet, ItemsAreQuiet};

/// A set of a property asks nothing, whatever the object, the property and the value.
pub fn writes_are_quiet()
    ensures { WritesAreQuiet }
{}

/// `%New` of a class of the schema asks nothing.
pub fn new_objects_are_quiet()
    ensures { NewsAreQuiet }
{}

/// The members of a list ask nothing, but for `GetAt`, which opens what stands there as an id.
pub fn members_of_lists_are_quiet()
    ensures { ListsAreQuiet }
{}

/// So do the members of an array: a key is a subscript within the limits, or it is refused.
pub fn members_of_arrays_are_quiet()
    ensures { ArraysAreQuiet }
{}

/// `Insert` of a many side asks nothing: the object becomes a member, or what is given is refused.
pub fn inserts_are_quiet()
    ensures { InsertsAreQuiet }
{}

/// A call of a class asks nothing, whatever it is, but for `%OpenId` and `%DeleteId`.
pub fn calls_of_classes_are_quiet()
    ensures { ClassesAreQuiet }
{}

/// A call of an object asks nothing, whatever it is, but for `%Save` and these two.
pub fn calls_of_objects_are_quiet()
    ensures { ObjectsAreQuiet }
{}

/// A call of a collection or of a many side asks nothing, whatever it is, but for `GetAt` and `Next`.
pub fn calls_of_items_are_quiet()
    ensures { ItemsAreQuiet }
{}
