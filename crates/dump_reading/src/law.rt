//! What is written is read back.

ghost use Rattle.dump_reading.specs.Laws.{NodesAreReadBack, LinesAreReadBack, DumpsAreReadBack, NodesAreExact, LinesAreExact};

/// A node within its limits is read from the text that is written of it.
#[tactic(auto, using(crate::proofs::LineLaws::node_is_read_back))]
pub fn nodes_are_read_back()
    ensures { NodesAreReadBack }
{}

/// A node and a value within their limits are read from the line that is written of them.
#[tactic(auto, using(crate::proofs::LineLaws::line_is_read))]
pub fn lines_are_read_back()
    ensures { LinesAreReadBack }
{}

/// Nodes in rising order with their values, all within their limits, are read from the dump that is written of them.
#[tactic(auto, using(crate::proofs::DumpLaws::dump_is_read))]
pub fn dumps_are_read_back()
    ensures { DumpsAreReadBack }
{}

/// Nothing else is read as a node than its spellings, and each of these is where the node is within its limits.
pub fn nodes_are_read_exactly()
    ensures { NodesAreExact }
{}

/// Nothing else is read as a line than its spellings, and each of these is where node and value are within their limits.
pub fn lines_are_read_exactly()
    ensures { LinesAreExact }
{}
