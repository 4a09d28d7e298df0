ghost use Rattle.object_calls.specs.Banking.{bank};
ghost use Rattle.sound_runs.specs.Pairs.{ArePaired};
ghost use Rattle.sound_runs.specs.Swap.{SwapsAreSafe};

/// A worked save: two accounts of a sound world swap their numbers, with rows and key nodes held. It is safe.
pub fn swaps_are_safe()
    ensures { SwapsAreSafe }
{}

/// The worked classes, branches with their clerks among them, are paired.
pub fn worked_classes_are_paired()
    ensures { ArePaired bank }
{}
