//! Why no classes are read.

use class_tokens::ClassWhy;
use thiserror::Error;

/// Why no classes are read.
#[derive(Clone, Copy, Debug, PartialEq, Eq, Error)]
pub enum ReadError {
    /// The text is no class file: the place, counted from 1 with columns in bytes, and the reason.
    #[error("the text is no class file")]
    BadClass {
        line: u32,
        column: u32,
        why: ClassWhy,
    },
    /// Memory ran out.
    #[error("memory ran out")]
    NoMemory,
}
