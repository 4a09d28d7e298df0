//! The private path of one class of text properties: scripts that make, fill and save objects.
#![tactic(auto)]

mod act;
mod imaging;
mod law;
mod line;
mod names;
mod piece;
mod playing;
mod script;
mod session;

pub use act::Act;
pub use imaging::image;
pub use law::world_law;
pub use playing::{Ending, Played, play};
pub use script::{MAX_LINES, read_script};
pub use session::Fields;
