//! Texts that are read line by line, as dumps, schedules, layouts, journals and records are: a reader brings what one
//! line says and the reasons against it, and the first bad line is refused for the first of its reasons.
#![tactic(auto)]

mod lines;
mod reading;
mod stop;

pub use lines::{lines_are_the_text, printed_lines_are_read, split_line, without_return};
pub use reading::{LineReader, first_bad_line_is_told, lowest_reason_is_told, read_text};
pub use stop::{BadLine, LineStop, TextStop};

#[cfg(test)]
mod tests;
