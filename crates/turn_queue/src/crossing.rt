//! What may go from one thread to another.
ghost use denote.Param.Send.{IsSend};
ghost use Rattle.store_core.specs.contracts.store.Store.{the_row as StoreRow};
ghost use Rattle.turn_queue.specs.contracts.seat.Seat.{the_row as SeatRow};

use store_core::Store;

/// What the bound says of the type.
fn crosses_threads<T: Send>()
    ensures { IsSend T.row }
{}

fn stores_cross_threads()
    ensures { IsSend StoreRow }
{
    crosses_threads::<Store>();
}

/// A law of seats: they may go to another thread. Who moves a type with a seat in it there calls it
/// first, since the check doesn't look so deep by itself.
pub fn seats_cross_threads()
    ensures { IsSend SeatRow }
{
    stores_cross_threads();
}
