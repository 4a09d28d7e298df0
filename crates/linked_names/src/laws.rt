//! Laws of the names of members in schemas that were linked.

ghost use Rattle.linked_names.specs.Laws.{LinkedFormsAreOwn, LinkedSidesAreApart, LinkedIndexesAreApart, LinkedHasApartIndexes};

/// In a schema that was linked, the fields of a class's records are those of the class's own properties, as they were gathered.
pub fn linked_forms_are_own()
    ensures { LinkedFormsAreOwn }
{}

/// In a schema that was linked, no one side of an extent has the name of a unique index of it.
pub fn linked_sides_are_apart()
    ensures { LinkedSidesAreApart }
{}

/// In a schema that was linked, no index of an extent that isn't unique has the name of a unique one of it.
pub fn linked_indexes_are_apart()
    ensures { LinkedIndexesAreApart }
{}

/// In a schema that was linked, the unique indexes of a class of an extent have different names.
pub fn linked_indexes_differ()
    ensures { LinkedHasApartIndexes }
{}
