ghost use Rattle.record_layout.specs.Laws.{DamagedIsFirst, ItemsTellFields, ReadWhereTheyStand, ReadWholeIsRows, RecordsAreTheirRows, RowsAreRead};
ghost use Rattle.record_layout.specs.Schemas.{StorableIsLaidOut};

/// What is read of an item is the one field of its shape that is written so.
pub fn items_tell_fields()
    ensures { ItemsTellFields }
{}

/// A record is read exactly where it is in shape and its nodes are there.
pub fn records_are_read_where_they_stand()
    ensures { ReadWhereTheyStand }
{}

/// Where no record is read, the node that is named is the first one that is missing or has the wrong form.
pub fn damaged_nodes_are_first()
    ensures { DamagedIsFirst }
{}

/// Where a record was read and no further node is there, the nodes are the rows of the record.
pub fn whole_records_are_their_rows()
    ensures { ReadWholeIsRows }
{}

/// The rows of a record in shape are read as the record.
pub fn rows_give_their_record()
    ensures { RowsAreRead }
{}

/// A record is read, and no further node is there, exactly where the record is in shape and the nodes are its rows.
pub fn records_are_their_rows()
    ensures { RecordsAreTheirRows }
{}

/// Where each class extends the one above it and no two names behind an id are one, each field of a record has its
/// place, and no two of its nodes are one.
pub fn storable_classes_are_laid_out()
    ensures { StorableIsLaidOut }
{}
