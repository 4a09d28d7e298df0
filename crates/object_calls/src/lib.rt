//! What the calls of stored objects ask of the store, and what they answer: definitions, with laws.
#![tactic(auto)]

mod laws;

pub use laws::{
    saves_write_the_changes_of_records, worked_deletes_ask_what_they_show,
    worked_loads_ask_what_they_show, worked_saves_ask_what_they_show,
    worked_walks_over_members_ask_what_they_show,
};
