//! The store of all processes: one tree of globals, one lock table and a log for each process.
//! Each operation is a step of the store machine, and the history tells them all.
#![tactic(auto)]

mod act;
mod crossing;
mod ends;
mod entry;
mod guard_laws;
mod history;
mod laws;
mod number;
mod opening;
mod reads;
mod refusal;
mod store;
mod told;
mod turns;
mod volume;
mod writes;

pub use entry::Entry;
pub use guard_laws::{
    cleared_values_are_of_one_process, cleared_values_move_at_commits, guards_keep_writers_apart,
    histories_respect_guards, locks_last_to_the_end,
};
pub use history::History;
pub use laws::{
    cleared_without_levels, ended_processes_hold_nothing, entries_tell_who_is_live,
    histories_stay_within_limits, processes_end_once, runs_keep_stores_sound,
    steps_keep_histories_legal, turns_leave_others_alone,
};
pub use refusal::ApplyError;
pub use store::Store;
