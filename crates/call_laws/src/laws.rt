//! Laws that join definitions.

ghost use Rattle.call_laws.specs.Below.{TestTellsBelow};
ghost use Rattle.call_laws.specs.Reaching.{ReachFollowsPaths, ReachKeepsOrder};

/// The law of superclasses: a class passes the test against another exactly where it is that class or below it, however
/// many steps up that takes.
#[tactic(auto, using(crate::proofs::BelowLaws::below_told))]
pub fn the_test_of_classes_is_the_closure()
    ensures { TestTellsBelow }
{}

/// The law of reach: a live object reaches exactly what paths of OREFs lead to from it, in the order of the live objects.
#[tactic(auto, using(crate::proofs::ReachLaws::reach_follows, crate::proofs::ReachLaws::reach_keeps))]
pub fn what_is_reached_is_what_paths_lead_to()
    ensures paths { ReachFollowsPaths }
    ensures order { ReachKeepsOrder }
{}
