//! Reads a text line by line.

ghost use Rattle.std.specs.Prelude.{◌≡◌, ◌≤◌, ◌<◌, ◌+◌, ◌^◌, ℕ, Bool, List, Some, Result, Ok, Err, length};
ghost use Rattle.text_lines.specs.Reading as spec;
ghost use Rattle.text_lines.specs.Lines.{lines};

use crate::lines::split_line;
use crate::stop::{BadLine, LineStop, TextStop};
use std::alloc::Global;

/// What one line says, behind the lines before it.
pub trait LineReader<A, W> {
    // What the line makes of what was said before it, or the reason against it.
    ghost step: { Self → A → List ℕ → Result A W };

    /// What is said behind this line, which has no line feed.
    fn line(&self, alloc: Global, said: A, line: &[u8]) -> Result<A, LineStop<W>>
        ensures { spec.SaysLine (step self.now said line.now) result };
}

/// What the lines of a text say, one after the other, or the first bad one, which is refused for its first reason.
#[tactic(auto, using(crate::proofs::ReadingLaws::reads_none, crate::proofs::ReadingLaws::reads_first, crate::proofs::ReadingLaws::reads_bad_first))]
pub fn read_text<A, W, R: LineReader<A, W>>(
    alloc: Global,
    reader: &R,
    first: A,
    text: &[u8],
) -> Result<A, TextStop<W>>
    requires { length text.now + 1 < 2 ^ 32 }
    ensures { spec.Says (spec.read_lines (R.step reader.now) 1 first (lines text.now)) result }
{
    let mut said = first;
    let mut rest = text;
    let mut number = 1;
    'lines: while !rest.is_empty() {
        let (line, behind) = split_line(rest);
        match reader.line(alloc, said, line) {
            Ok(more) => said = more,
            Err(LineStop::Memory) => return Err(TextStop::Memory),
            Err(LineStop::Bad(why)) => return Err(TextStop::Bad(BadLine { line: number, why })),
        }
        rest = behind;
        number += 1;
    }
    Ok(said)
}

/// The law of reading by lines: what is said comes of good lines alone, and what is refused is the first bad line, for
/// the reason that its reader gives.
#[tactic(auto, using(crate::proofs::ReadingLaws::answer_is))]
pub fn first_bad_line_is_told<A, W, R: LineReader<A, W>>(_reader: &R)
    ensures { (a : A) (zs : List (List ℕ)) → spec.IsAnswer (R.step _reader.now) a zs (spec.read_lines (R.step _reader.now) 1 a zs) }
{}

/// The law of reasons: the one that a line is refused for holds, and none before it does.
#[tactic(auto, using(crate::proofs::ReadingLaws::lowest_is))]
pub fn lowest_reason_is_told<W>(_why: &W)
    ensures { (tests : List (Bool × W)) (why : W) → spec.lowest tests ≡ Some why → spec.IsLowest tests why }
{}
