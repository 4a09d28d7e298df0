//! Where jumps out of a piece of code lead.

/// Where a jump out of a piece of code leads.
#[derive(Clone, Copy, Debug, PartialEq, Eq)]
pub(crate) enum Exit {
    /// To what follows the piece, as a `QUIT` of the whole script.
    Next,
    /// Past the jump back of a loop, as a test of it that fails.
    Missed,
    /// Past the jump back of a loop and the point of the failed test, as a `QUIT` in it.
    Left,
}
