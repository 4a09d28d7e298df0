//! The outside of the host: files that are read, a sink for the report, and devices that processes
//! print to; each over memory, which tells its bytes, and over the system, which tells nothing.
#![tactic(auto)]

mod edges;
mod files;
mod host;
mod memory;

pub use edges::{Device, FileError, Files, MAX_FILE_LEN, Put, Sink};
pub use files::MemFiles;
pub use host::{FileDevice, HostFiles, StdSink};
pub use memory::{MemDevice, MemSink};
