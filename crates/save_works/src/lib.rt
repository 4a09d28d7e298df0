//! What a save asks of the store for one object: the locks of its keys, entries and targets, the tests of these, and what is
//! killed and set.
#![tactic(auto)]

mod keys;
mod law;
mod locks;
mod sides;
mod tests;
mod work;
mod writes;

pub use keys::{MovedKey, moved_keys};
pub use law::what_is_asked_is_what_a_save_does;
pub use locks::{Askings, lock_askings};
pub use sides::{MovedSide, moved_sides};
pub use tests::{key_askings, target_askings};
pub use work::{Keys, Work};
pub use writes::{kill_askings, write_askings};
