//! Dumps are read back: one node, one line, a whole dump.
#![tactic(auto)]

mod dump;
mod law;
mod line;
mod lists;
mod node_reader;
mod place;
mod stop;
mod value_reader;

pub use dump::read_dump;
pub use law::{
    dumps_are_read_back, lines_are_read_back, lines_are_read_exactly, nodes_are_read_back,
    nodes_are_read_exactly,
};
pub use line::{read_line, read_node};
pub use stop::{DumpError, DumpWhy, LineError};
