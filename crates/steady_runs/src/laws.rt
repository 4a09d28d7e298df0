//! Laws of steady runs.

ghost use Rattle.steady_runs.specs.Steady.{EntriesKeepSteady, StartsAreSteady, SafeRunsAreSteady};

/// Every entry that may come, of whatever process, keeps the whole invariant, where one sides have their other sides.
pub fn entries_keep_steady()
    ensures { EntriesKeepSteady }
{}

/// It holds at every start that the headline asks for.
pub fn starts_are_steady()
    ensures { StartsAreSteady }
{}

/// So it holds after every front of a run whose processes ask only what may come, and the run keeps worlds, levels and failed lists.
pub fn safe_runs_are_steady()
    ensures { SafeRunsAreSteady }
{}
