use obj_kinds::{Cause, ClassName, Id, Op, Text};

/// Which member is looked for.
#[derive(Drop)]
pub struct MemberCall {
    /// The class of the members.
    pub class: ClassName,
    /// Their one side, which names the holder.
    pub side: Text,
    /// The id of the holder.
    pub holder: Id,
    /// The level of concurrency of the holder, from 0 to 4.
    pub level: u8,
    /// How often a lock is asked for at most, 1 or more.
    pub tries: u32,
    /// The member behind which the next one is looked for; with none, the first one is.
    pub behind: Option<Id>,
}

/// What a walk answers: the id of the next member, or none at the end. `Busy` names the process and the node by which
/// the last try of the lock was refused; `Damaged` has the members' node, below which a subscript is no id.
pub type Member = Result<Option<Id>, Cause>;

/// What a walk does next.
#[derive(Drop)]
pub enum MemberStep {
    /// It asks this of the store, and waits for the reply.
    Ask(Op),
    /// It has ended.
    Member(Member),
}
