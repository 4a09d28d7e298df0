//! Calls of the store: what is asked of it, operation after operation, by the replies, and what is answered in the end; and what
//! a plan promises, that keeps a phase for each reply that is awaited.
#![tactic(auto)]

mod laws;

pub use laws::{
    a_part_has_the_replies_that_are_left, a_plan_asks_within_a_process,
    a_plan_ends_within_a_process, a_plan_within_a_plan_keeps_its_promise,
    units_show_only_where_they_end, walks_keep_their_plan, walks_need_a_turn_for_each_reply,
    what_is_asked_goes_on,
};
