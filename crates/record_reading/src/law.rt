ghost use Rattle.record_reading.specs.Laws.{MarkersTellClasses, RecordsComeFromTheirRows, RowsTellRecords};

/// The marker of a row names a class exactly where it is that of a class of the extent.
pub fn markers_tell_classes()
    ensures { MarkersTellClasses }
{}

/// Nodes give a record exactly where they are its rows, the record is in the shape of a class of the extent, and
/// no entry of it passes a limit.
pub fn records_come_from_their_rows()
    ensures { RecordsComeFromTheirRows }
{}

/// Two records in shape whose rows are the same are one.
pub fn rows_tell_records()
    ensures { RowsTellRecords }
{}
