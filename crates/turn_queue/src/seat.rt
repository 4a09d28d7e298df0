ghost use Rattle.std.specs.Prelude.{◌≡◌, ◌≢◌, ◌≤◌, ◌++◌, ℕ, true, [], Some, None, All, IfOk, IfErr, Err};
ghost use Rattle.obj_kinds.specs.declared.op.Op.TheVariants.{End};
ghost use Rattle.obj_kinds.specs.declared.op.Reply.TheVariants.{Done};
ghost use Rattle.obj_kinds.specs.Limits.{is_legal_op, is_legal_reply};
ghost use Rattle.store_core.specs.declared.refusal.ApplyError.TheVariants.{NoMemory as NoRoom, Volume};
ghost use Rattle.store_core.specs.Within.{AreLegalOps};
ghost use Rattle.store_core.specs.Ledger.{Ledger, end_entry, IsSound};
ghost use Rattle.turn_queue.specs.Parts.{has, is_live_in, fresh_from, below, from};
ghost use Rattle.turn_queue.specs.Seated.{IsAt, HasReplied, HasNoRoom, seat_entered, seat_with};

use crate::divide::{Place, SplitAt, Unite};
use crate::enter::NoRefusal;
use crate::rule::{StoreQueue, Turns};
use crate::turns::{Refused, Turn, enter, give_back, open, refuse, take};
use obj_kinds::{NoMemory, Op, Pid, Reply};
use std::alloc::Global;
use std::marker::{Brand, Model};
use std::snapshot::Snapshot;
use std::sync::{Arc, Wait};
use store_core::{ApplyError, Store};

/// The right to ask operations of some processes of a store that passes between threads. Contracts
/// see which store it is, as it was opened, and the entries that each of these processes has in the
/// history so far: in any order of threads these are exactly the seat's own. A seat may go to another
/// thread.
#[derive(Drop)]
pub struct Seat {
    queue: Arc<StoreQueue, Global>,
    turns: Turns,
}

impl Model for Seat {
    ghost use Rattle.std.specs.Arc.{arc_value};
    ghost use Rattle.turn_queue.specs.Seated.{Seated, seated_code, seated, IsIdle};

    ghost Value = { Seated };

    ghost coded = { seated_code };

    ghost view = { λ s. seated s.turns };

    ghost invariant = { λ s. IsIdle (arc_value s.queue) s.turns };
}

impl Seat {
    /// The seat of all processes of a store whose history has no entry. From here on the store passes
    /// between this seat and those that are split from it. At a want of memory the store is dropped.
    pub fn start<R: Wait>(rt: &R, alloc: Global, store: Store, pids: u32) -> Result<Seat, NoMemory>
        requires pids { store.pids ≡ pids }
        requires empty { store.history ≡ [] }
        ensures opened { IfOk result (λ seat. seat.opened ≡ store) }
        ensures processes { IfOk result (λ seat. seat.parts ≡ fresh_from 1 pids) }
    {
        seen(&store);
        let (queue, mut turns) = StoreQueue::ruled(alloc, 1)?;
        let queue = Arc::new(alloc, queue)?;
        open(rt, &queue, &mut turns, store);
        Ok(Seat { queue, turns })
    }

    /// One seat for the processes below `first`, and one for the others; each must get one. What is
    /// known of a process goes with it. At a want of memory the seat comes back as it was.
    pub fn split(self, first: Pid) -> Result<(Seat, Seat), (Seat, NoMemory)>
        requires low { below first.0 self.parts ≢ [] }
        requires high { from first.0 self.parts ≢ [] }
        ensures low { IfOk result (λ seats. seats.0 ≡ seat_with self (below first.0 self.parts)) }
        ensures high { IfOk result (λ seats. seats.1 ≡ seat_with self (from first.0 self.parts)) }
        ensures err { IfErr result (λ back. back.0 ≡ self) }
    {
        split_at::<Brand>(self, first)
    }

    /// One seat for the processes of two seats that stem from one start. What is known of a process
    /// goes with it.
    pub fn join(self, other: Seat) -> Seat
        requires { self.queue ≡ other.queue }
        ensures { result ≡ seat_with self (self.parts ++ other.parts) }
    {
        let Seat { queue, mut turns } = self;
        let Seat {
            queue: _,
            turns: theirs,
        } = other;
        queue.absorb::<Unite>(&mut turns, theirs);
        Seat { queue, turns }
    }

    /// Waits for the store, and carries an operation of a live process of the seat out. It is within
    /// the limits of nodes and values, and no end.
    ///
    /// The reply is the store machine's after the history at that moment, and the entry stands next in
    /// it. At `Volume` the entry would have passed the volume there, and the process has ended in its
    /// place. At a want of memory nothing has changed.
    pub fn turn<R: Wait>(&mut self, rt: &R, pid: Pid, op: Op) -> Result<Reply, ApplyError>
        requires live { is_live_in pid.0 self.old.parts ≡ true }
        requires no_end { op ≢ End }
        requires limits { is_legal_op op ≡ true }
        ensures limits { IfOk result (λ r. is_legal_reply r ≡ true) }
        ensures ok { IfOk result (λ r. (l : Ledger) × HasReplied self.old self.new l pid op r) }
        ensures volume { result ≡ Err Volume → (l : Ledger) × HasNoRoom self.old self.new l pid op }
        ensures memory { result ≡ Err NoRoom → self.new ≡ self.old }
    {
        let mut store = take(rt, &self.queue, &mut self.turns);
        let before = seen(&store);
        let asked = Snapshot::of(&op);
        match store.apply(pid, op) {
            Ok(reply) => {
                let turn = Turn { pid, before };
                enter::<NoRefusal, R>(rt, &self.queue, &mut self.turns, store, turn);
                Ok(reply)
            }
            Err(ApplyError::NoMemory) => {
                give_back(rt, &self.queue, &mut self.turns, store);
                Err(ApplyError::NoMemory)
            }
            Err(ApplyError::Volume) => {
                let refused = Refused { pid, asked };
                refuse::<Brand, R>(rt, &self.queue, &mut self.turns, store, refused);
                Err(ApplyError::Volume)
            }
        }
    }

    /// Waits for the store, and ends a live process of the seat.
    pub fn end_turn<R: Wait>(&mut self, rt: &R, pid: Pid) -> Reply
        requires live { is_live_in pid.0 self.old.parts ≡ true }
        ensures reply { result ≡ Done }
        ensures ended { self.new ≡ seat_entered self.old (end_entry pid) None }
    {
        let mut store = take(rt, &self.queue, &mut self.turns);
        let before = seen(&store);
        let reply = store.apply_end(pid);
        let turn = Turn { pid, before };
        enter::<NoRefusal, R>(rt, &self.queue, &mut self.turns, store, turn);
        reply
    }

    /// Waits for the store, and hands it out for good. The seat speaks for all processes, so no turn
    /// follows. The history has exactly the seat's entries of each process, and no others.
    pub fn last_turn<R: Wait>(self, rt: &R) -> Store
        requires all { (p : ℕ) → 1 ≤ p → p ≤ self.opened.pids → has p self.parts ≡ true }
        ensures own { IsAt self result }
        ensures others { All (λ e. has e.pid.0 self.parts ≡ true) result.history }
    {
        let Seat { queue, mut turns } = self;
        let store = take(rt, &queue, &mut turns);
        seen(&store);
        store
    }
}

/// The store as clauses see it now: its type says that its history is legal and within the limits.
fn seen(store: &Store) -> Snapshot<Store>
    ensures same { result.value ≡ store.now }
    ensures sound { IsSound store.now }
    ensures limits { AreLegalOps store.now.history }
    ensures some { 1 ≤ store.now.pids }
{
    store.history();
    store.opening();
    Snapshot::of(store)
}

fn split_at<N: Place>(seat: Seat, first: Pid) -> Result<(Seat, Seat), (Seat, NoMemory)>
    requires place { N.first ≡ first.0 }
    requires low { below first.0 seat.parts ≢ [] }
    requires high { from first.0 seat.parts ≢ [] }
    ensures low { IfOk result (λ seats. seats.0 ≡ seat_with seat (below first.0 seat.parts)) }
    ensures high { IfOk result (λ seats. seats.1 ≡ seat_with seat (from first.0 seat.parts)) }
    ensures err { IfErr result (λ back. back.0 ≡ seat) }
{
    let Seat { queue, mut turns } = seat;
    match Arc::try_clone(&queue) {
        Ok(theirs) => {
            let other = queue.another::<SplitAt<N>>(&mut turns);
            Ok((
                Seat { queue, turns },
                Seat {
                    queue: theirs,
                    turns: other,
                },
            ))
        }
        Err(_) => Err((Seat { queue, turns }, NoMemory)),
    }
}
