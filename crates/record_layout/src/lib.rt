//! Where the fields of stored objects stand: rows, items and elements, and how records are read from them.
#![tactic(auto)]

mod item;
mod law;
mod line;
mod reading;

pub use item::{item_of, items_of};
pub use law::{
    damaged_nodes_are_first, items_tell_fields, records_are_read_where_they_stand,
    records_are_their_rows, rows_give_their_record, storable_classes_are_laid_out,
    whole_records_are_their_rows,
};
pub use line::{count_rows, line_to, own_props};
pub use reading::{element_in, field_in, fields_in, is_in_row};
