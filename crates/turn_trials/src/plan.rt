ghost use Rattle.std.specs.Prelude.{◌≡◌, IfOk, vec_len, length};
ghost use Rattle.turn_trials.specs.Runs.{IsAskable, AreAskable, AreAllAskable};

use crate::failure::Failure;
use obj_kinds::Op;
use plain_store::Ask;
use std::alloc::Global;
use std::collections::VecDeque;

/// What one process is to ask, in this order.
pub type Asks = Vec<Ask>;

/// The operations of a process, in the order in which it asks them before its end.
#[derive(Drop)]
pub struct Plan {
    pub ops: VecDeque<Op>,
}

/// The operation, if it is within the limits.
fn askable(alloc: Global, ask: Ask) -> Result<Op, Failure>
    ensures { IfOk result (λ op. IsAskable op) }
{
    let op = ask.op(alloc)?;
    if op.is_legal() {
        Ok(op)
    } else {
        Err(Failure::Limits)
    }
}

/// The plan of these operations.
fn plan_of(alloc: Global, asks: &[Ask]) -> Result<Plan, Failure>
    ensures { IfOk result (λ plan. AreAskable plan.ops.items) }
{
    let mut ops = VecDeque::new(alloc);
    for ask in asks {
        let op = askable(alloc, *ask)?;
        ops.push_back(op)?;
    }
    Ok(Plan { ops })
}

/// A plan for each process.
pub fn plans_of(alloc: Global, lists: &[Asks]) -> Result<Vec<Plan>, Failure>
    ensures askable { IfOk result (λ plans. AreAllAskable plans.items) }
    ensures count { IfOk result (λ plans. vec_len plans ≡ length lists.now) }
{
    let mut plans = Vec::new(alloc);
    for asks in lists {
        plans.push(plan_of(alloc, asks.as_slice())?)?;
    }
    Ok(plans)
}
