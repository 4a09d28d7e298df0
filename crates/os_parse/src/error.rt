//! Why no script is read.

use script_tokens::ScriptWhy;
use thiserror::Error;

/// Why no script is read.
#[derive(Clone, Copy, Debug, PartialEq, Eq, Error)]
pub enum ScriptError {
    /// The text is no script: the place, with columns in bytes, and the reason.
    #[error("the text is no script")]
    BadScript {
        line: u32,
        column: u32,
        why: ScriptWhy,
    },
    /// Memory ran out.
    #[error("memory ran out")]
    NoMemory,
}
