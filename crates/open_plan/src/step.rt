use obj_kinds::{Cause, Op};
use oref_table::Held;

/// What an opening does next.
pub enum OpenStep {
    /// It asks this of the store, and waits for the reply.
    Ask(Op),
    /// It has ended: with the object, which the caller holds once more, or with why there is none.
    Open(Result<Held, Cause>),
}
