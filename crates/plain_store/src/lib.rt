//! A store as plainly as can be, by which the real one is tried: lists of values, of holds and of
//! levels, over a few places. It knows nothing of the store's definitions.
#![tactic(auto)]

mod ask;
mod dice;
mod holds;
mod levels;
mod plain;

pub use ask::{Ask, PLACES, Want};
pub use dice::Dice;
pub use plain::Plain;
