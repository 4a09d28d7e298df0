//! Laws of entries that may come, and of runs of them.

ghost use Rattle.run_rules.specs.Laws.{KeepsStructure, GoodRunsKeepWorlds};

/// Every entry that may come keeps the parts of the invariant that speak of holds, levels and lists: plain operations of scripts, the
/// begin, each step, the commit and the rollback of a save or delete, at whatever level, and the end of a process anywhere.
pub fn entries_keep_the_structure()
    ensures { KeepsStructure }
{}

/// In a run whose processes ask only what may come, whatever the schedule, after every front of the history the cleared globals are the
/// image of the world, levels show views, and failures change nothing.
pub fn good_runs_keep_worlds()
    ensures { GoodRunsKeepWorlds }
{}
