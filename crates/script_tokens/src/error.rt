//! Why a script is refused.

use text_reading::Stop;

/// Why a script is refused. At one place the first of these that holds is the reason.
#[derive(Clone, Copy, Debug, PartialEq, Eq)]
pub enum ScriptWhy {
    /// A byte that a script may not have: other than 9, 10, 13 and 32 to 126.
    NotAscii,
    /// The script ends, but the grammar goes on.
    UnexpectedEnd,
    /// A token that can't follow what stands before it.
    UnexpectedToken,
    /// A word where a command may stand that is no command.
    UnknownCommand,
    /// `$` and a name that is no function.
    UnknownFunction,
    /// More arguments than a function has, or fewer.
    BadArguments,
    /// A number with more than 18 digits behind its leading zeros.
    NumberTooLong,
    /// A global's name over 64 bytes, a class's name over 60, or another name over 31.
    NameTooLong,
    /// A string of more than 32,767 bytes.
    TextTooLong,
    /// The 65th open block or parenthesis.
    TooDeep,
    /// A `QUIT` with a value within a `FOR` or `WHILE`.
    QuitValueInLoop,
}

/// What ends the reading of a script.
pub type ScriptStop = Stop<ScriptWhy>;
