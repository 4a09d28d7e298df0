ghost use Rattle.std.specs.Prelude.{◌≡◌, ◌+◌, ◌<◌, ◌≤◌, ◌^◌, ◌++◌, [], List, IfOk, vec_len};
ghost use Rattle.std.specs.Thread.{IsSync};
ghost use Rattle.store_core.specs.Ledger.{IsSound};
ghost use Rattle.turn_queue.specs.Parts.{as_opened, fresh_from};
ghost use Rattle.turn_queue.specs.Seated.{seat_with};
ghost use Rattle.turn_queue.specs.declared.view.Part.{Part as OnePart};
ghost use Rattle.turn_trials.specs.Runs.{AreAllAskable, HaveRun, AreRun};

use crate::plan::Plan;
use crate::work::work;
use obj_kinds::{NoMemory, Pid};
use std::alloc::Global;
use std::sync::Wait;
use std::thread::{Threads, join};
use store_core::Store;
use turn_queue::{Seat, seats_cross_threads};

/// Two seats, each with the plans of its processes.
#[derive(Drop)]
struct Halves {
    low: Seat,
    front: Vec<Plan>,
    high: Seat,
    back: Vec<Plan>,
}

/// Splits a seat, and the plans of its processes, at so many.
fn halved(seat: Seat, first: u32, mut plans: Vec<Plan>, count: usize) -> Result<Halves, NoMemory>
    requires fresh { seat.parts ≡ fresh_from first (vec_len plans) }
    requires some { (1 ≤ count) × (count < vec_len plans) }
    requires room { first + vec_len plans < 2 ^ 32 }
    requires askable { AreAllAskable plans.items }
    ensures low { IfOk result (λ h. h.low ≡ seat_with seat (fresh_from first count)) }
    ensures high { IfOk result (λ h. h.high ≡ seat_with seat (fresh_from (first + count) (vec_len h.back))) }
    ensures counts { IfOk result (λ h. (vec_len h.front ≡ count) × (count + vec_len h.back ≡ vec_len plans)) }
    ensures plans { IfOk result (λ h. h.front.items ++ h.back.items ≡ plans.items) }
    ensures front { IfOk result (λ h. AreAllAskable h.front.items) }
    ensures back { IfOk result (λ h. AreAllAskable h.back.items) }
{
    let middle = Pid(first + count as u32);
    let back = plans.split_off(count)?;
    match seat.split(middle) {
        Ok((low, high)) => Ok(Halves {
            low,
            front: plans,
            high,
            back,
        }),
        Err((_, error)) => Err(error),
    }
}

/// Runs each plan in a thread of its own, the processes numbered from `first`. It halves the plans at
/// each step.
fn run_from<R: Threads + Wait + Sync>(
    rt: &R,
    seat: Seat,
    first: u32,
    mut plans: Vec<Plan>,
) -> Result<Seat, NoMemory>
    requires fresh { seat.parts ≡ fresh_from first (vec_len plans) }
    requires some { 1 ≤ vec_len plans }
    requires room { first + vec_len plans < 2 ^ 32 }
    requires askable { AreAllAskable plans.items }
    ensures { IfOk result (λ s. (parts : List OnePart) × (s ≡ seat_with seat parts) × HaveRun first plans.items parts) }
{
    if plans.len() == 1 {
        return match plans.pop() {
            Some(plan) => Ok(work(rt, seat, Pid(first), plan)),
            None => unreachable!(),
        };
    }
    let count = plans.len() / 2;
    let middle = first + count as u32;
    let Halves {
        low,
        front,
        high,
        back,
    } = halved(seat, first, plans, count)?;
    seats_cross_threads();
    let (a, b) = join(
        rt,
        move || -> Result<Seat, NoMemory>
            requires { IsSync R.row × (low.parts ≡ fresh_from first (vec_len front)) × (1 ≤ vec_len front) × (first + vec_len front < 2 ^ 32) × AreAllAskable front.items }
            ensures { IfOk result (λ s. (parts : List OnePart) × (s ≡ seat_with low parts) × HaveRun first front.items parts) }
        { run_from(rt, low, first, front) },
        move || -> Result<Seat, NoMemory>
            requires { IsSync R.row × (high.parts ≡ fresh_from middle (vec_len back)) × (1 ≤ vec_len back) × (middle + vec_len back < 2 ^ 32) × AreAllAskable back.items }
            ensures { IfOk result (λ s. (parts : List OnePart) × (s ≡ seat_with high parts) × HaveRun middle back.items parts) }
        { run_from(rt, high, middle, back) },
    );
    let low = a?;
    let high = b?;
    Ok(low.join(high))
}

/// Runs each plan as a process in a thread of its own over the store, and answers the store: its
/// history has the first operations of each process, each once and in order, and then its end.
pub fn run_all<R: Threads + Wait + Sync>(
    rt: &R,
    alloc: Global,
    store: Store,
    plans: Vec<Plan>,
) -> Result<Store, NoMemory>
    requires plans { vec_len plans ≡ store.pids }
    requires empty { store.history ≡ [] }
    requires askable { AreAllAskable plans.items }
    ensures sound { IfOk result (λ s. IsSound s) }
    ensures opened { IfOk result (λ s. as_opened s ≡ store) }
    ensures run { IfOk result (λ s. AreRun 1 plans.items s.history) }
{
    store.opening();
    let pids = plans.len() as u32;
    let seat = Seat::start(rt, alloc, store, pids)?;
    let seat = run_from(rt, seat, 1, plans)?;
    Ok(seat.last_turn(rt))
}
