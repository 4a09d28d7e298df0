//! Laws of what a process knows of keys.
#![tactic(auto)]

mod laws;

pub use laws::{
    others_keep_known_keys, others_keep_what_is_known, own_entries_keep_known_keys,
    plain_entries_keep_what_is_known,
};
