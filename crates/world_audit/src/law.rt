//! Laws of the audit.

ghost use Rattle.world_audit.specs.Laws.{FaultlessIsOpening, OneWorld};

/// A run may start with nodes and a world exactly where no node is a fault and the world is the one that they give.
pub fn faultless_nodes_are_openings()
    ensures { FaultlessIsOpening }
{}

/// There is no other world that a run may start with.
#[tactic(auto, using(crate::proofs::OpeningLaws::one_world))]
pub fn openings_have_one_world()
    ensures { OneWorld }
{}
