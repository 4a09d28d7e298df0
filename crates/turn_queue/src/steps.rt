//! The steps that leave the history alone, and what each tells.
use crate::view::View;
use crossbeam_queue::protocol::{Lesson, Outcome};
use store_core::Store;

/// The first giving back: the seat gets all processes, none of which has an entry.
pub struct Opens;

impl Outcome<Store, View> for Opens {
    ghost use Rattle.turn_queue.specs.Rule.{Opens};

    ghost then = { Opens };
}

impl Lesson<Store, View> for Opens {
    ghost use Rattle.turn_queue.specs.Rule.{IsEmpty};

    ghost fact = { λ _ items. IsEmpty items };
}

/// The store is taken by a seat that speaks for some process.
pub struct Takes;

impl Outcome<Store, View> for Takes {
    ghost use Rattle.turn_queue.specs.Rule.{Takes};

    ghost then = { Takes };
}

impl Lesson<Store, View> for Takes {
    ghost fact = { λ _ _. Unit {0} };
}

/// The store is given back as it was.
pub struct Returns;

impl Outcome<Store, View> for Returns {
    ghost use Rattle.turn_queue.specs.Rule.{Returns};

    ghost then = { Returns };
}

impl Lesson<Store, View> for Returns {
    ghost use Rattle.turn_queue.specs.Rule.{IsEmpty};

    ghost fact = { λ _ items. IsEmpty items };
}
