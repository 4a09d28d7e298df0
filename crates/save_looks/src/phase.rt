use crate::call::Looked;
use read_plan::{Outcome, ReadPlan};

/// What a look waits for.
#[derive(Drop)]
pub enum Phase<'s> {
    /// The row of a new object.
    AtRow,
    /// What the read of an old object waits for.
    Reading(ReadPlan<'s>),
    /// Nothing: this was read of an old object.
    Read(Outcome),
    /// Nothing: it has ended, and this is the answer.
    Over(Looked),
    /// Nothing: the answer was handed out.
    Told,
}
