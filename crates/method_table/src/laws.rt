//! The law of methods: places lead to the methods that calls mean.

ghost use Rattle.method_table.specs.Tables.{PlacesAreMethods};

/// A class has a place for a name exactly where a call of this name means a method, and at this place the method stands, with its class
/// and its body.
pub fn places_are_those_of_methods()
    ensures { PlacesAreMethods }
{}
