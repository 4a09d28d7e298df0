use crate::call::Loaded;
use obj_kinds::Mode;
use read_plan::ReadPlan;

/// A load that is at its read.
#[derive(Drop)]
pub struct Reading<'s> {
    pub read: ReadPlan<'s>,
    /// The mode of the lock that it holds, where it holds one.
    pub lock: Option<Mode>,
}

/// What a load waits for.
#[derive(Drop)]
pub enum Phase<'s> {
    /// The lock of the row in this mode, which is asked for so many times more where it is refused.
    Locking(Mode, u32),
    /// What its read waits for.
    Reading(Reading<'s>),
    /// That the lock is given back, behind which this is the answer.
    Unlocking(Mode, Loaded),
    /// Nothing: it has ended, and this is the answer.
    Over(Loaded),
    /// Nothing: the answer was handed out.
    Told,
}
