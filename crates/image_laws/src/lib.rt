//! Laws of saves and deletes, and the worlds whose images the globals have.
#![tactic(auto)]

mod laws;

pub use laws::{saved_records_are_read, saves_and_deletes_show, writes_leave_what_is_written};
