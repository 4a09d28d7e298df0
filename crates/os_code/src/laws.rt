//! Laws of flat code.

ghost use Rattle.os_code.specs.Laws.{Agrees, BoundsAgree};

/// The law of flat code: with any number of units, running the code of a script from its start shows exactly what the script means.
#[tactic(auto, using(crate::proofs::Simulation::agrees))]
pub fn code_means_its_script()
    ensures { Agrees }
{}

/// The law of loops: where a script's loops may make as many turns as there are units, a greater bound changes nothing.
#[tactic(auto, using(crate::proofs::Simulation::bounds_agree))]
pub fn bounds_of_loops_do_not_matter()
    ensures { BoundsAgree }
{}
