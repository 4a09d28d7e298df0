//! The law of kept runs.

ghost use Rattle.kept_runs.specs.Laws.{KeptRunsAreSteady};

/// In a run whose marks tell of no raw write and no low level, and whose processes ask only what may come up to such a mark, the cleared
/// globals are the image of the world, levels show views, failures change nothing, each state is steady, and each load that is told shows the
/// view of its process.
pub fn kept_runs_are_steady()
    ensures { KeptRunsAreSteady }
{}
