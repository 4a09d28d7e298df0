//! What linking gives for storage: each class of an extent has a place for each field.
#![tactic(auto)]

ghost use Rattle.linked_storage.specs.Linked.{LinkedIsStorable, LinkedIsEven, LinkedExtentsAreEven};

/// In a schema that was linked, each class of an extent has all that the laws of storage ask of it: it begins with
/// the properties of the class above it, each of its kind, and no two names behind an id are one.
pub fn linked_classes_are_storable()
    ensures { LinkedIsStorable }
{}

/// In a schema that was linked, the entries of one name of each class of an extent have as many values.
pub fn linked_entries_are_even()
    ensures { LinkedIsEven }
{}

/// In a schema that was linked, the entries of one name of all classes of an extent have as many values.
pub fn linked_extents_are_even()
    ensures { LinkedExtentsAreEven }
{}
