ghost use Rattle.std.specs.Prelude.{◌≡◌, ◌-◌, ◌^◌, ◌<◌, ◌==◌, cond, true, IfOk, OnOk, OnErr};
ghost use Rattle.std.specs.FinMap.{empty, get, contains_key};
ghost use Rattle.obj_kinds.specs.declared.op.Keep.TheVariants.{Counted};
ghost use Rattle.lock_table.specs.declared.hold.Hold.{Hold as AnyHold};
ghost use Rattle.lock_table.specs.Holds.{hold, kept, granted, put, given_back, all_given_back, tran_ended, all_dropped};
ghost use Rattle.lock_table.specs.Holders.{holder_of, hold_on, left_by};
ghost use Rattle.lock_table.specs.Conflict.{asked, ask_reply, release_reply};
ghost use Rattle.lock_table.specs.Calls.{AllHeld};

use crate::hold::Kept;
use crate::holder::{Change, Holder};
use crate::listed::{list, unlist};
use crate::refusal::{Verdict, refuser};
use crate::rows::{holds_any, keep_anew, keep_new, look_up};
use crate::turn::change_listed;
use obj_kinds::{Keep, Mode, NoMemory, Node, Owner, Pid, Reply};
use std::alloc::Global;
use std::collections::{BTreeMap, BTreeSet};
use std::marker::Model;

/// All locks of all processes, seen as the map from the holds to how they are kept.
#[derive(Drop)]
pub struct Locks {
    rows: BTreeMap<Node, BTreeMap<Holder, Kept>>,
    listed: BTreeMap<u32, BTreeSet<Node>>,
}

impl Model for Locks {
    ghost use Rattle.std.specs.FinMap as map;
    ghost use Rattle.lock_table.specs.contracts.hold.Hold as hold_row;
    ghost use Rattle.lock_table.specs.contracts.hold.Kept as kept_row;
    ghost use Rattle.lock_table.specs.Holds.{Holds};
    ghost use Rattle.lock_table.specs.Table.{holds_of, IsTable};

    ghost Value = { Holds };

    ghost coded = { map.code (hold_row.the_row).coded (kept_row.the_row).coded };

    ghost view = { λ t. holds_of t.rows };

    ghost invariant = { λ t. IsTable t.rows t.listed };
}

impl Locks {
    /// The table without a lock.
    pub fn new(alloc: Global) -> Locks
        ensures { result ≡ empty }
    {
        Locks {
            rows: BTreeMap::new(alloc),
            listed: BTreeMap::new(alloc),
        }
    }

    /// How a hold is kept; what isn't held has no count and ends with nothing.
    pub fn kept(&self, pid: Pid, node: &Node, mode: Mode, owner: Owner) -> Kept
        ensures { result ≡ kept self.now (hold pid node.now mode owner) }
    {
        match look_up(&self.rows, node, Holder { pid, mode, owner }) {
            Some(kept) => kept,
            None => Kept::unheld(),
        }
    }

    /// Asks for a lock. It is `Granted`, or else `Held` names the first hold, in the order of
    /// holds, of another process that is on the node, an ancestor or a descendant and excludes
    /// it. A refusal and a want of memory change nothing. A lock that is counted may be asked for
    /// again as long as its count is below 2^64 - 1.
    pub fn ask(
        &mut self,
        alloc: Global,
        pid: Pid,
        node: &Node,
        mode: Mode,
        owner: Owner,
        keep: Keep,
    ) -> Result<Reply, NoMemory>
        requires { keep ≡ Counted → (kept self.old (hold pid node.now mode owner)).counted < 2 ^ 64 - 1 }
        ensures reply { IfOk result (λ r. r ≡ ask_reply self.old (hold pid node.now mode owner)) }
        ensures after { OnOk result (self.new ≡ asked self.old (hold pid node.now mode owner) keep) }
        ensures err { OnErr result (self.new ≡ self.old) }
    {
        match refuser(alloc, &self.rows, pid, node, mode)? {
            Verdict::Refused { node, holder } => Ok(Reply::Held {
                pid: holder.pid,
                node,
                mode: holder.mode,
            }),
            Verdict::Free(node) => {
                self.grant(alloc, node, Holder { pid, mode, owner }, keep)?;
                Ok(Reply::Granted)
            }
        }
    }

    /// Counts a hold once more, or keeps it to the end.
    fn grant(
        &mut self,
        alloc: Global,
        node: Node,
        holder: Holder,
        keep: Keep,
    ) -> Result<(), NoMemory>
        requires { keep ≡ Counted → (kept self.old (hold_on node holder)).counted < 2 ^ 64 - 1 }
        ensures ok { OnOk result (self.new ≡ granted self.old (hold_on node holder) keep) }
        ensures err { OnErr result (self.new ≡ self.old) }
    {
        let kept = self
            .kept(holder.pid, &node, holder.mode, holder.owner)
            .raised(keep);
        list(alloc, &mut self.listed, holder.pid, &node)?;
        keep_new(alloc, &mut self.rows, node, holder, kept)
    }

    /// Keeps a hold that is there anew; what is no longer held is taken out.
    fn keep(&mut self, node: &Node, holder: Holder, kept: Kept)
        requires { contains_key self.old (hold_on node.now holder) ≡ true }
        ensures { self.new ≡ put self.old (hold_on node.now holder) kept }
    {
        keep_anew(&mut self.rows, node, holder, kept);
        if !holds_any(&self.rows, node, holder.pid) {
            unlist(&mut self.listed, holder.pid, node);
        }
    }

    /// Gives one count of a lock back: `Done`, or `NotHeld` where it has none, which changes
    /// nothing. A script's exclusive lock that is given back in a transaction stays to its end. It
    /// takes no memory.
    pub fn release(
        &mut self,
        pid: Pid,
        node: &Node,
        mode: Mode,
        owner: Owner,
        in_tran: bool,
    ) -> Reply
        ensures reply { result ≡ release_reply self.old (hold pid node.now mode owner) }
        ensures after { self.new ≡ given_back self.old (hold pid node.now mode owner) in_tran }
    {
        let kept = self.kept(pid, node, mode, owner);
        if !kept.is_counted() {
            return Reply::NotHeld;
        }
        let holder = Holder { pid, mode, owner };
        let left = kept.lowered(holder.remains(in_tran), kept.counted - 1);
        self.keep(node, holder, left);
        Reply::Done
    }

    /// Gives all counts of a process and an owner back, each as [`Locks::release`] does.
    pub fn release_all(&mut self, pid: Pid, owner: Owner, in_tran: bool)
        ensures { self.new ≡ all_given_back self.old pid owner in_tran }
    {
        self.change_all(pid, Change::GiveBack { owner, in_tran });
    }

    /// Lets all holds of a process go that stay to the end of its transaction, which has come.
    pub fn end_tran(&mut self, pid: Pid)
        ensures { self.new ≡ tran_ended self.old pid }
    {
        self.change_all(pid, Change::EndTran);
    }

    /// Lets all holds of a process go.
    pub fn drop_all(&mut self, pid: Pid)
        ensures { self.new ≡ all_dropped self.old pid }
    {
        self.change_all(pid, Change::Drop);
    }

    /// Carries a change out at all holds of a process. It looks at the nodes that the process
    /// holds alone, and takes no memory.
    fn change_all(&mut self, pid: Pid, change: Change)
        ensures at { (q : AnyHold) → get self.new q ≡ cond (q.pid.0 == pid.0) (left_by change (holder_of q) (get self.old q)) (get self.old q) }
        ensures held { AllHeld self.old }
    {
        if let Some(nodes) = self.listed.get_mut(&pid.0) {
            change_listed(&mut self.rows, nodes, pid, change);
        }
    }
}
