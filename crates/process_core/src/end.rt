//! How a process of one script ends.

ghost use Rattle.std.specs.Prelude.{◌≡◌};
ghost use Rattle.process_core.specs.Ends.{ending_by, end_by, end_refused};

use host_meaning::Ending;
use obj_kinds::ErrorName;
use os_kinds::ScriptEnd;
use store_core::ApplyError;

/// How a process ends whose script has no method: an error has no class.
#[derive(Clone, Copy, Debug, PartialEq, Eq)]
pub(crate) enum End {
    Done,
    Error(ErrorName, u32),
    NoMemory,
    Fuel,
    Volume,
    DeviceFault,
}

/// The same as others see it.
pub(crate) fn ending_by(end: End) -> Ending
    ensures { result ≡ ending_by end }
{
    match end {
        End::Done => Ending::Done,
        End::Error(name, line) => Ending::Error {
            name,
            class: None,
            line,
        },
        End::NoMemory => Ending::NoMemory,
        End::Fuel => Ending::Fuel,
        End::Volume => Ending::Volume,
        End::DeviceFault => Ending::DeviceFault,
    }
}

/// How the process ends with the frame of its script.
pub(crate) fn end_by(end: ScriptEnd) -> End
    ensures { result ≡ end_by end }
{
    match end {
        ScriptEnd::Done(_) => End::Done,
        ScriptEnd::Halt => End::Done,
        ScriptEnd::Error { name, line } => End::Error(name, line),
        ScriptEnd::Fuel => End::Fuel,
    }
}

/// How the process ends whose operation was refused.
pub(crate) fn end_refused(error: ApplyError) -> End
    ensures { result ≡ end_refused error }
{
    match error {
        ApplyError::NoMemory => End::NoMemory,
        ApplyError::Volume => End::Volume,
    }
}
