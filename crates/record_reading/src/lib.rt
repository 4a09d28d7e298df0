//! Reading the records of stored objects: step by step in the order of reading, and from all nodes of a key.
#![tactic(auto)]

mod error;
mod keys;
mod law;
mod merge;
mod reading;
mod record;
mod steps;
mod values;

pub use error::{FormError, ReadError};
pub use keys::keys_below;
pub use law::{markers_tell_classes, records_come_from_their_rows, rows_tell_records};
pub use merge::{Arrays, merged};
pub use reading::{Stored, read_steps, read_stored};
pub use record::{has_legal_entries, record_from};
pub use steps::{ArrayBelow, ListBelow, Steps, steps_of};
pub use values::{array_element, items_behind, list_fields, row_fields};
