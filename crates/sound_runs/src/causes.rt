ghost use Rattle.sound_runs.specs.Taken.{StandsWhereSearched, NotItself, VacantIsFree, FoundIsTaken};

/// While a save writes, an entry of another object stands below a new key node exactly where that object has the key node in the world
/// that the true cause searches, where unique indexes of a class have different names; so a vacant node is free there, and what is found
/// first below one that isn't vacant is the index and the id that the true cause names, and the change would clash.
pub fn taken_keys_are_not_unique()
    ensures stands { StandsWhereSearched }
    ensures itself { NotItself }
    ensures vacant { VacantIsFree }
    ensures found { FoundIsTaken }
{}
