//! The law of schemas that were linked.

ghost use Rattle.linked_shapes.specs.Laws.{LinkedIsWhole};

/// A schema that was linked is as the calls on objects in memory ask of one: no class has more than 200 properties, and the class of each part is one of
/// the schema.
pub fn linked_schemas_are_whole()
    ensures { LinkedIsWhole }
{}
