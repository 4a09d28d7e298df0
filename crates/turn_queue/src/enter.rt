//! The step that adds an entry, and what it tells.
use crate::view::View;
use crossbeam_queue::protocol::{Lesson, Outcome};
use std::marker::{Brand, PhantomData};
use store_core::Store;

/// The operation that has no room while its process ends, if any. Each call picks it.
pub trait Refusal {
    ghost use Rattle.std.specs.Prelude.{Option};
    ghost use Rattle.obj_kinds.specs.declared.op.Op.{Op};

    ghost op: { Option Op };
}

/// No operation is refused.
pub struct NoRefusal;

impl Refusal for NoRefusal {
    ghost use Rattle.std.specs.Prelude.{None};

    ghost op = { None };
}

impl Refusal for Brand {
    ghost use Rattle.std.specs.Prelude.{None};

    ghost op = { None };
}

/// The store is given back with an entry of one of the seat's processes.
pub struct Enters<N: Refusal> {
    of: PhantomData<N>,
}

impl<N: Refusal> Outcome<Store, View> for Enters<N> {
    ghost use Rattle.turn_queue.specs.Rule.{Enters};

    ghost then = { Enters N.op };
}

impl<N: Refusal> Lesson<Store, View> for Enters<N> {
    ghost use Rattle.turn_queue.specs.Rule.{IsEmpty};

    ghost fact = { λ _ items. IsEmpty items };
}
