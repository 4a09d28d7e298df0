ghost use Rattle.sound_runs.specs.Laws.{EntriesKeepSound, EntriesKeepBacked, StartIsBacked};

/// Where the invariant holds, each orderly entry of whatever process leaves all worlds that are or may come sound, the counters at
/// least as high as all ids, one class to each key, the targets of pending one sides and the nodes of members of pending deletes held;
/// and no counter in a level, drawn keys apart and unborn, and pending key nodes held.
pub fn entries_keep_worlds_sound()
    ensures sound { EntriesKeepSound }
    ensures backed { EntriesKeepBacked }
{}

/// At the start no counter is in a level, nothing is drawn and nothing pending.
pub fn starts_are_backed()
    ensures { StartIsBacked }
{}
