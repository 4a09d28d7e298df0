//! Why the reading of a text of lines stops.

use obj_kinds::NoMemory;
use std::alloc::{AllocError, AllocFailed};

/// What ends the reading of one line: want of memory, or the reason against it.
#[derive(Clone, Copy, Debug, PartialEq, Eq)]
pub enum LineStop<W> {
    Memory,
    Bad(W),
}

/// Which line is bad, counted from 1, and why.
#[derive(Clone, Copy, Debug, PartialEq, Eq)]
pub struct BadLine<W> {
    pub line: u32,
    pub why: W,
}

/// What ends the reading of a text of lines: want of memory, or the first bad line.
#[derive(Clone, Copy, Debug, PartialEq, Eq)]
pub enum TextStop<W> {
    Memory,
    Bad(BadLine<W>),
}

impl<W> From<AllocError> for LineStop<W> {
    ghost use Rattle.std.specs.Prelude.{◌≡◌};
    ghost use Rattle.text_lines.specs.declared.stop.LineStop.TheVariants.{Memory};

    ghost from_gives = { λ _ stop. stop ≡ Memory };

    fn from(_: AllocError) -> LineStop<W> {
        LineStop::Memory
    }
}

impl<W, T: Drop> From<AllocFailed<T>> for LineStop<W> {
    ghost use Rattle.std.specs.Prelude.{◌≡◌};
    ghost use Rattle.text_lines.specs.declared.stop.LineStop.TheVariants.{Memory};

    ghost from_gives = { λ _ stop. stop ≡ Memory };

    fn from(_: AllocFailed<T>) -> LineStop<W> {
        LineStop::Memory
    }
}

impl<W> From<NoMemory> for LineStop<W> {
    ghost use Rattle.std.specs.Prelude.{◌≡◌};
    ghost use Rattle.text_lines.specs.declared.stop.LineStop.TheVariants.{Memory};

    ghost from_gives = { λ _ stop. stop ≡ Memory };

    fn from(_: NoMemory) -> LineStop<W> {
        LineStop::Memory
    }
}
