//! Laws of schemas that were linked.

ghost use Rattle.linked_runs.specs.Laws.{LinkedIndexesAreOnSides, LinkedIsStorableSchema, LinkedIsPaired};

/// In a schema that was linked, an index that isn't unique has the name of no one side of its extent, or is on that side alone.
pub fn linked_indexes_are_on_sides()
    ensures { LinkedIndexesAreOnSides }
{}

/// A schema that was linked is as runs ask of one whose objects are stored.
pub fn linked_schemas_are_storable()
    ensures { LinkedIsStorableSchema }
{}

/// In a schema that was linked, each one side has its other side in each class at or below the one that it names.
pub fn linked_sides_are_paired()
    ensures { LinkedIsPaired }
{}
