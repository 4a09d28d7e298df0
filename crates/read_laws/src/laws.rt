//! Laws of reads by replies.

ghost use Rattle.read_laws.specs.Shown.{ReadsShowWorlds};
ghost use Rattle.read_laws.specs.Undisturbed.{ReadsTellNodes, ReadsAnswerRecords, ReadsAnswerStoredRecords};

/// The law of reads: by the replies of a store that nobody changes meanwhile, a read of a key answers what the nodes of its globals
/// tell: the record that they are read as, that there is no row, or the first node that is missing or has the wrong form.
#[tactic(auto, using(crate::proofs::ReadingLaws::reads_tell_nodes, crate::proofs::ReadingLaws::reads_answer_records))]
pub fn reads_tell_what_nodes_are()
    ensures nodes { ReadsTellNodes }
    ensures records { ReadsAnswerRecords }
{}

/// The law of stored records: where the globals have at and below the row of a key what the rows of a record have there, and the
/// record is one that may stand there, a read of the key answers it.
#[tactic(auto, using(crate::proofs::StoredLaws::reads_answer_stored_records))]
pub fn reads_answer_what_stands()
    ensures { ReadsAnswerStoredRecords }
{}

/// The law of shown worlds: where the nodes of a key are as the image of a world has them, a read of the key answers what the world has
/// there, a record or none, whatever else stands in the globals.
#[tactic(auto, using(crate::proofs::ShownLaws::reads_show_worlds))]
pub fn reads_show_worlds()
    ensures { ReadsShowWorlds }
{}
