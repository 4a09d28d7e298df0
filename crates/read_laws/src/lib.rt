//! Laws of reads by replies: they are the reading of the nodes of the globals.
#![tactic(auto)]

mod laws;

pub use laws::{reads_answer_what_stands, reads_show_worlds, reads_tell_what_nodes_are};
