//! The lines of a text.

ghost use Rattle.std.specs.Prelude.{◌≡◌, ◌≤◌, ◌<◌, ◌+◌, ℕ, List, length};
ghost use Rattle.text_lines.specs.Lines as spec;

/// What stands before the first line feed, and what behind it.
#[tactic(auto, unfolding(crate::specs::Lines::first_line, crate::specs::Lines::behind_line))]
pub fn split_line(text: &[u8]) -> (&[u8], &[u8])
    ensures first { result.0.now ≡ spec.first_line text.now }
    ensures rest { result.1.now ≡ spec.behind_line text.now }
    ensures shorter { 0 < length text.now → length result.1.now < length text.now }
{
    let mut end = 0;
    while end < text.len() && text[end] != b'\n' {
        end += 1;
    }
    if end < text.len() {
        (&text[..end], &text[end + 1..])
    } else {
        (&text[..end], &text[end..])
    }
}

/// The line without a byte 13 before its line feed.
#[tactic(auto, unfolding(crate::specs::Lines::without_return))]
pub fn without_return(line: &[u8]) -> &[u8]
    ensures { result.now ≡ spec.without_return line.now }
{
    let end = line.len().saturating_sub(1);
    if end < line.len() && line[end] == 13 {
        return &line[..end];
    }
    line
}

/// The law of lines: no line has a line feed, and with a line feed behind each of them, the last one maybe not, the
/// lines are the text.
pub fn lines_are_the_text()
    ensures { (text : List ℕ) → spec.AreLines text (spec.lines text) }
{}

/// Lines that are printed, each with a line feed behind it, are the lines that are read.
#[tactic(auto, using(crate::proofs::CutLaws::lines_printed))]
pub fn printed_lines_are_read()
    ensures { (zs : List (List ℕ)) → spec.HaveNoFeed zs → spec.lines (spec.printed zs) ≡ zs }
{}
