//! Laws of the objects of a process.

ghost use Rattle.object_members.specs.SetLaws.{TakesByTheRules, SetsByTheRules, RefusesByTheRules};

/// What a set takes is exactly what the rules of sets say, with texts within the limits. Such a set of a property, unless it is a one side,
/// leaves the memory that they say; and where they refuse it, it is refused with their error.
#[tactic(auto, using(crate::proofs::StandLaws::takes_by_rules))]
pub fn sets_follow_their_rules()
    ensures takes { TakesByTheRules }
    ensures sets { SetsByTheRules }
    ensures refuses { RefusesByTheRules }
{}
