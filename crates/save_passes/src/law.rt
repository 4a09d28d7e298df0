//! What a pass is to a save.

ghost use Rattle.save_passes.specs.Works.{AsksWhatASaveDoes};

/// Where each lock is asked so many times at most, and the keys are those of the objects of the save: what a pass asks for an object,
/// one after the other, is what a save does with that object at this step.
#[tactic(auto, using(crate::proofs::PassLaws::stage_asked))]
pub fn a_pass_asks_what_a_save_does()
    ensures { AsksWhatASaveDoes }
{}
