//! The top call of the host: words, files, one class, one script, the report.
#![tactic(auto)]

mod job;
mod refusal;
mod run;
mod texts;
mod top;
mod verdict;
mod whys;
mod words;

pub use obj_edges::{Device, FileError, Files, MemDevice, MemFiles, MemSink, Put, Sink};
pub use refusal::Refusal;
pub use top::{Outcome, step_main};
pub use verdict::Verdict;
