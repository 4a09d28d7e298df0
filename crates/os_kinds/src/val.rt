//! Values of scripts.

use obj_kinds::{ClassName, Value};
use sqlite_items::Items;

/// A value of a script: a text or a list, or an object in memory by its number and the name of its class.
#[derive(Debug, Drop)]
pub enum Val {
    Data(Value),
    Ref { number: u64, class: ClassName },
}

/// Values, in order.
pub type Vals = Items<Val>;
