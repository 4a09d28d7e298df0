//! Why a dump, a line or a node isn't read.

use obj_kinds::NoMemory;
use text_lines::{LineStop, TextStop};
use thiserror::Error;

/// The reasons against a line of a dump. The first that holds is told.
#[derive(Clone, Copy, Debug, PartialEq, Eq)]
pub enum DumpWhy {
    /// The line doesn't begin with a node and `=`.
    BadNode,
    /// What stands behind `=` is no value.
    BadValue,
    /// The node or the value passes a limit.
    TooLong,
    /// The node has a value already, by an earlier line.
    Repeated,
}

/// Why a line or a node isn't read.
#[derive(Clone, Copy, Debug, PartialEq, Eq, Error)]
pub enum LineError {
    /// It isn't in the form of a dump's.
    #[error("the line is not one of a dump")]
    Bad(DumpWhy),
    /// Memory ran out.
    #[error("memory ran out")]
    NoMemory,
}

/// Why a dump isn't read.
#[derive(Clone, Copy, Debug, PartialEq, Eq, Error)]
pub enum DumpError {
    /// The first bad line, counted from 1, and the first reason against it.
    #[error("the text is no dump")]
    BadDump { line: u32, why: DumpWhy },
    /// Memory ran out.
    #[error("memory ran out")]
    NoMemory,
}
