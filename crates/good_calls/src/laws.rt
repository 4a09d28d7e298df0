//! Laws of loads, raises and walks over members.

ghost use Rattle.good_calls.specs.Laws.{LoadsAreGood, LoadsTellTrue, MembersAreGood, MembersTellTrue, RaisesAreGood, RaisesTellTrue};

/// A load of level 2 to 4, of a key of the schema, asks only what may come, whatever the other processes do meanwhile; what it tells of an
/// object is what the view of the process had under the key at the first `Get`; and it leaves the process within no save or delete.
pub fn loads_are_good()
    ensures { LoadsAreGood }
{}

/// So does the raise of a live object.
pub fn raises_are_good()
    ensures { RaisesAreGood }
{}

/// So does the step to the next member of a many side.
pub fn members_are_good()
    ensures { MembersAreGood }
{}

/// What a load tells is true: it shows the view, or fails for a cause that is true at the reply that decided: each try of its lock was refused, the
/// view had no object there, or one of another class.
pub fn loads_tell_true()
    ensures { LoadsTellTrue }
{}

/// A raise fails only where each try of its lock was refused.
pub fn raises_tell_true()
    ensures { RaisesTellTrue }
{}

/// The step to the next member fails only where each try of its lock was refused, or a subscript below the node of the members is no id.
pub fn members_tell_true()
    ensures { MembersTellTrue }
{}
