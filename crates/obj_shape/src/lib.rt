//! Objects in memory by their classes: what stands in their slots, their properties and parts, and their records.
#![tactic(auto)]

mod classes;
mod contents;
mod record;
mod slots;

pub use classes::props_of;
pub use contents::{object_slots, part_in, slot_items, slot_pairs, slot_text};
pub use record::{DrawnIds, PART_DEPTH, RecordSource, record_of};
pub use slots::{empty_slots, initial_slots, slots_of};
