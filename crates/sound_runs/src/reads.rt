ghost use Rattle.sound_runs.specs.Ids.{NextIsAnId, NoNextIsBare};
ghost use Rattle.sound_runs.specs.Reads.{RowsAreAsViewed, GuardedAreAsViewed, RowsTellObjects, DrawsAreFresh, DrawnAreBare};

/// Where a process holds the row of a key, it finds each node of the key as its view has it, under what its save in progress wrote; so it
/// does each node that no other process has in a level, whoever holds the row. So an absent row tells that its object isn't in the view.
pub fn reads_show_views()
    ensures rows { RowsAreAsViewed }
    ensures guarded { GuardedAreAsViewed }
    ensures objects { RowsTellObjects }
{}

/// A number that a counter gives is no id of an object that the process knows, and nothing stands under a drawn key before its save
/// writes there: so no id is taken.
pub fn drawn_ids_are_fresh()
    ensures fresh { DrawsAreFresh }
    ensures bare { DrawnAreBare }
{}

/// What stands first below a node of an index with all its values is an id of the extent, and its entry has a value; where nothing is found, no
/// entry stands there. So no such node is damaged, in extents whose entries of one name have as many values.
pub fn ids_stand_below_keys()
    ensures next { NextIsAnId }
    ensures bare { NoNextIsBare }
{}
