//! What is known where a phrase stands, and what is found of some phrases before they are whole.

use obj_kinds::Text;
use os_kinds::{Expression, Member, Place};
use sqlite_items::Items;

/// Where an expression stands: how many blocks and parentheses are open, and whether its first token is barred, as the
/// value of a `QUIT` that leaves a loop.
#[derive(Clone, Copy, Debug)]
pub struct Spot {
    pub depth: usize,
    pub barred: bool,
}

/// Where arguments stand: how many blocks and parentheses are open, and how many arguments there may be.
#[derive(Clone, Copy, Debug)]
pub struct Calling {
    pub depth: usize,
    pub fewest: usize,
    pub most: Option<usize>,
}

/// Where a command stands: how many blocks and parentheses are open, and whether it stands in a loop.
#[derive(Clone, Copy, Debug)]
pub struct Ground {
    pub depth: usize,
    pub in_loop: bool,
}

/// The arguments of a function that looks at a variable or a global.
#[derive(Debug, Drop)]
pub struct Looked {
    pub place: Place,
    pub second: Option<Expression>,
}

/// Members of an object up to one of which only the name was found.
#[derive(Debug, Drop)]
pub struct Path {
    pub members: Items<Member>,
    pub name: Text,
}

/// What a call is of: an object, and the members behind it, of which the last one has arguments.
#[derive(Debug, Drop)]
pub struct Callee {
    pub object: Expression,
    pub members: Items<Member>,
}
