//! Laws of saves and deletes, and the worlds whose images the globals have.

ghost use Rattle.image_laws.specs.Changed.{SavesShow, DeletesShow, SavedAreRead, DeletedAreGone};
ghost use Rattle.image_laws.specs.Played.{WritesAreWritten};

/// Where the globals have the image of a world, they have, once a save or delete has written what it writes for a key, the image of the
/// world with the saved record under the key, or with none.
pub fn saves_and_deletes_show()
    ensures saves { SavesShow }
    ensures deletes { DeletesShow }
{}

/// By the replies of such a store, which nobody changes meanwhile, a read of the key answers the record that was saved, and none where
/// it was deleted.
pub fn saved_records_are_read()
    ensures saved { SavedAreRead }
    ensures deleted { DeletedAreGone }
{}

/// The kills of a change and then its sets, one after another through the store machine, leave the globals that all kills and then all
/// sets at once leave.
pub fn writes_leave_what_is_written()
    ensures { WritesAreWritten }
{}
