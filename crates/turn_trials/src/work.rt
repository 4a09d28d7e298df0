ghost use Rattle.std.specs.Prelude.{◌≡◌, ◌≢◌, [], ◌∷◌, true, None, Option, IsTrue, IsFalse};
ghost use Rattle.obj_kinds.specs.declared.op.Op.{Op as AnyOp};
ghost use Rattle.obj_kinds.specs.declared.op.Op.TheVariants.{End};
ghost use Rattle.obj_kinds.specs.Limits.{is_legal_op};
ghost use Rattle.store_core.specs.declared.entry.Entry.{Entry};
ghost use Rattle.store_core.specs.Ledger.{end_entry};
ghost use Rattle.turn_queue.specs.declared.view.Part.{Part as OnePart};
ghost use Rattle.turn_queue.specs.Parts.{is_live_in, fresh};
ghost use Rattle.turn_queue.specs.Seated.{seat_entered, seat_with};
ghost use Rattle.turn_trials.specs.Runs.{AreAskable, HasRun};

use crate::plan::Plan;
use obj_kinds::{Op, Pid};
use std::sync::Wait;
use store_core::ApplyError;
use turn_queue::Seat;

/// Asks one operation of a process, and tells whether the process goes on: where the operation is
/// refused, the process has ended.
fn ask<R: Wait>(rt: &R, seat: &mut Seat, pid: Pid, op: Op) -> bool
    requires live { is_live_in pid.0 seat.old.parts ≡ true }
    requires no_end { op ≢ End }
    requires limits { is_legal_op op ≡ true }
    ensures asked { IsTrue result → (e : Entry) × (e.pid ≡ pid) × (e.op ≡ op) × (seat.new ≡ seat_entered seat.old e None) }
    ensures ended { IsFalse result → (r : Option AnyOp) × (seat.new ≡ seat_entered seat.old (end_entry pid) r) }
{
    match seat.turn(rt, pid, op) {
        Ok(_) => true,
        Err(ApplyError::NoMemory) => {
            seat.end_turn(rt, pid);
            false
        }
        Err(ApplyError::Volume) => false,
    }
}

/// Asks the operations of one process, each in a turn of its own, and ends it.
pub fn work<R: Wait>(rt: &R, mut seat: Seat, pid: Pid, plan: Plan) -> Seat
    requires one { seat.parts ≡ fresh pid.0 ∷ [] }
    requires askable { AreAskable plan.ops.items }
    ensures { (o : OnePart) × (result ≡ seat_with seat (o ∷ [])) × (o.pid ≡ pid) × HasRun plan.ops.items o.entries }
{
    let mut ops = plan.ops;
    while let Some(op) = ops.pop_front() {
        if !ask(rt, &mut seat, pid, op) {
            return seat;
        }
    }
    seat.end_turn(rt, pid);
    seat
}
