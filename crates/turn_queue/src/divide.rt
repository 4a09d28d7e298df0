//! How the processes of a seat are divided, and those of two seats united.
ghost use Rattle.std.specs.Prelude.{ℕ};

use crate::view::View;
use crossbeam_queue::protocol::{Join, Split};
use std::marker::{Brand, PhantomData};

/// The first process of the second seat. Each call picks it.
pub trait Place {
    ghost first: { ℕ };
}

impl Place for Brand {
    ghost first = { 0 };
}

/// The processes below the place go to one seat, the others to the other.
pub struct SplitAt<N: Place> {
    of: PhantomData<N>,
}

impl<N: Place> Split<View> for SplitAt<N> {
    ghost use Rattle.turn_queue.specs.Parts.{below, from};
    ghost use Rattle.turn_queue.specs.Rule.{seat_view};

    ghost left = { λ v. seat_view v.opened (below N.first v.parts) };

    ghost right = { λ v. seat_view v.opened (from N.first v.parts) };
}

/// One seat gets the processes of both, and the other is spent.
pub struct Unite;

impl Join<View> for Unite {
    ghost use Rattle.std.specs.Prelude.{◌++◌};
    ghost use Rattle.turn_queue.specs.Rule.{seat_view, spent_view};

    ghost both = { λ v w. seat_view v.opened (v.parts ++ w.parts) };

    ghost spent = { spent_view };
}
