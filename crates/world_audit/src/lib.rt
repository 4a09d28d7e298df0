//! The nodes of a schema are audited: whether they are the image of a sound world with right counters.
#![tactic(auto)]

mod auditing;
mod counter;
mod counts;
mod firsts;
mod found;
mod law;
mod least;
mod marks;
mod owner;
mod run;
mod sides;
mod strays;
mod world;

pub use auditing::audit;
pub use counter::{counter_node, counter_told};
pub use law::{faultless_nodes_are_openings, openings_have_one_world};
pub use world::{Objects, World};
