ghost use Rattle.sound_runs.specs.Laws.{SavesKeepSound, DeletesKeepSound, ApartStaysSound};

/// A save whose facts at its commit are those of a safe one turns a sound view into a sound world, also where objects of the save swap
/// their unique keys.
pub fn saves_keep_views_sound()
    ensures { SavesKeepSound }
{}

/// A safe delete turns a sound view into a sound world, in a schema whose one sides have their other sides.
pub fn deletes_keep_views_sound()
    ensures { DeletesKeepSound }
{}

/// The changes of two processes over one world that are apart in keys, new key nodes and newly named targets leave a sound world, where
/// each of them alone does.
pub fn changes_apart_stay_sound()
    ensures { ApartStaysSound }
{}
