//! Worked processes over their real objects: what each asks, notes, prints and ends with.
#![tactic(auto)]

mod laws;

pub use laws::{
    worked_processes_over_references_show_what_was_worked_out,
    worked_processes_with_saves_show_what_was_worked_out,
    worked_processes_with_several_objects_show_what_was_worked_out,
    worked_processes_with_transactions_show_what_was_worked_out,
    worked_processes_without_saves_show_what_was_worked_out,
};
