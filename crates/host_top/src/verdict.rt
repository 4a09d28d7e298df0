ghost use Rattle.std.specs.Prelude.{◌≡◌};
ghost use Rattle.host_top.specs.Verdict.{verdict_status};

use crate::refusal::Refusal;

/// How a run ended.
#[derive(Debug, Drop)]
pub enum Verdict<'a> {
    /// The process did all its lines, and the report was put.
    Done,
    /// A put of the process's device failed, and the report was put.
    Stopped,
    /// The run was refused, and its message was put.
    Refused(Refusal<'a>),
    /// Memory ran out.
    NoMemory,
    /// The report or the message could not be put.
    NotPut,
}

impl Verdict<'_> {
    /// The exit status.
    pub(crate) fn status(&self) -> u8
        ensures { result ≡ verdict_status self.now }
    {
        match self {
            Verdict::Done => 0,
            Verdict::Stopped => 1,
            Verdict::Refused(refusal) => refusal.status(),
            Verdict::NoMemory => 3,
            Verdict::NotPut => 5,
        }
    }
}
