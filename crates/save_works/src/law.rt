//! What these lists are to a save.

ghost use Rattle.save_works.specs.Steps.{AsksLocks, AsksTargets, AsksKills, AsksWrites};

/// Where each lock is asked so many times at most, asking the lists of an object one after the other is what a save does with that
/// object at each of its steps.
#[tactic(auto, using(crate::proofs::StepLaws::asks_targets, crate::proofs::StepLaws::asks_kills, crate::proofs::StepLaws::asks_writes))]
pub fn what_is_asked_is_what_a_save_does()
    ensures locks { AsksLocks }
    ensures targets { AsksTargets }
    ensures kills { AsksKills }
    ensures writes { AsksWrites }
{}
