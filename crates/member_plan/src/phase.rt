use crate::call::Member;

/// What a walk waits for.
#[derive(Drop)]
pub enum MemberPhase {
    /// The shared lock of the members' node, which is asked for so many times more where it is refused.
    Locking(u32),
    /// The next key below the members' node, which is locked or not.
    AtKey(bool),
    /// That the lock is given back, behind which this is the answer.
    Unlocking(Member),
    /// Nothing: it has ended, and this is the answer.
    Over(Member),
    /// Nothing: the answer was handed out.
    Told,
}
