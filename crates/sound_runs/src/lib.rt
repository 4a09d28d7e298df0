//! Worlds and views stay sound over runs, counters high enough and classes in agreement.
#![tactic(auto)]

mod causes;
mod entries;
mod knowledge;
mod reads;
mod samples;
mod stays;
mod worlds;

pub use causes::taken_keys_are_not_unique;
pub use entries::{entries_keep_worlds_sound, starts_are_backed};
pub use knowledge::knowledge_is_kept;
pub use reads::{drawn_ids_are_fresh, ids_stand_below_keys, reads_show_views};
pub use samples::{swaps_are_safe, worked_classes_are_paired};
pub use stays::{
    no_members_leave_keys_unnamed, what_is_found_out_stays, what_is_found_out_stays_within,
};
pub use worlds::{changes_apart_stay_sound, deletes_keep_views_sound, saves_keep_views_sound};
