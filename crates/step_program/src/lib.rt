//! What a program of the host is around its top call: the words, the real files, devices and standard streams, and the
//! exit status.
#![tactic(auto)]

mod run;
mod streams;

pub use run::{exit_code, run_on, words};
