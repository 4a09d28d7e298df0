ghost use Rattle.std.specs.Prelude.{◌≡◌, ◌≢◌, ◌+◌, ◌≤◌, ◌<◌, true, false, not, [], ◌∷◌, ◌++◌, IsTrue, IfOk, OnOk, OnErr, Err, None, is_some, slice_index_or};
ghost use Rattle.std.specs.FinMap.{is_sorted};
ghost use Rattle.obj_kinds.specs.Order.{node_cmp};
ghost use Rattle.obj_kinds.specs.declared.op.Pid.{Pid};
ghost use Rattle.obj_kinds.specs.declared.op.Op.TheVariants.{End};
ghost use Rattle.obj_kinds.specs.declared.op.Reply.TheVariants.{Done};
ghost use Rattle.store_core.specs.declared.refusal.ApplyError.TheVariants.{Volume};
ghost use Rattle.store_core.specs.Machine.{is_live as lives, reply as answer_to};
ghost use Rattle.store_core.specs.Ledger.{opened, state_of, next_entry, end_entry, with_entry, volume_with, IsSound};
ghost use Rattle.store_core.specs.Volume.{volume};
ghost use Rattle.std.specs.List.{list_all};
ghost use Rattle.obj_kinds.specs.Limits.{is_legal_op, is_legal_reply};
ghost use Rattle.store_core.specs.Within.{is_legal_pair, AreLegalOps, AreLegalReplies};

use crate::entry::Entry;
use crate::history::History;
use crate::opening::{fresh_logs, tree_of};
use crate::refusal::ApplyError;
use crate::told::take_turn;
use crate::turns::end_turn;
use global_tree::Tree;
use lock_table::Locks;
use obj_kinds::{NoMemory, Nodes, Op, Pid, Reply};
use std::alloc::Global;
use std::marker::Model;
use tran_log::Log;

/// The store of all processes with its history. Contracts see it as its ledger: the nodes that it
/// was opened with, how many processes there were, the volume that the history may take, and the
/// history. The globals, the locks and the levels are those of the state after that history.
#[derive(Drop)]
pub struct Store {
    // The fields of the deepest types come first: so the check finds that a store may cross threads.
    told: History,
    logs: Vec<Option<Log>>,
    tree: Tree,
    locks: Locks,
    nodes: Nodes,
    alloc: Global,
    room: u64,
}

impl Model for Store {
    ghost use Rattle.std.specs.Prelude.{◌+◌, length, vec_capacity};
    ghost use Rattle.store_core.specs.Ledger.{Ledger};
    ghost use Rattle.store_core.specs.LedgerCode.{ledger_code};
    ghost use Rattle.store_core.specs.Stands.{IsStore};
    ghost use Rattle.store_core.specs.Volume.{volume};

    ghost Value = { Ledger };

    ghost coded = { ledger_code };

    ghost view = { λ s. record { nodes = s.nodes; pids = length s.logs.items; limit = s.room + volume s.told.items; history = s.told.items } };

    ghost invariant = { λ s. IsStore s.nodes s.tree s.locks s.logs.items s.told.items (vec_capacity s.told) s.room };
}

impl Store {
    /// The store with these nodes and the live processes 1 to `pids`, of which there may be 64. Its
    /// history may take so much of volume. The nodes and their values are within the limits. Memory
    /// for the end of each process is taken here.
    pub fn new(alloc: Global, pids: u32, nodes: Nodes, volume: u64) -> Result<Store, NoMemory>
        requires pids { (1 ≤ pids) × (pids ≤ 64) }
        requires rising { IsTrue (is_sorted node_cmp nodes) }
        requires limits { list_all is_legal_pair nodes ≡ true }
        ensures { IfOk result (λ store. store ≡ record { nodes = nodes; pids = pids; limit = volume; history = [] }) }
    {
        let tree = tree_of(alloc, nodes.as_slice())?;
        let logs = fresh_logs(alloc, pids)?;
        let told = Vec::with_capacity(alloc, pids as usize)?;
        Ok(Store {
            told,
            logs,
            tree,
            locks: Locks::new(alloc),
            nodes,
            alloc,
            room: volume,
        })
    }

    /// Carries an operation of a live process out and enters it with its reply into the history.
    /// `Volume` comes only where the entry would pass the volume, and success only where it
    /// doesn't. A refusal changes nothing. The operation is within the limits of nodes and values, and
    /// so is the reply. A process ends by [`Store::apply_end`] alone.
    pub fn apply(&mut self, pid: Pid, op: Op) -> Result<Reply, ApplyError>
        requires live { lives (state_of self.old) pid ≡ true }
        requires no_end { op ≢ End }
        requires limits { is_legal_op op ≡ true }
        ensures limits { IfOk result (λ r. is_legal_reply r ≡ true) }
        ensures reply { IfOk result (λ r. r ≡ answer_to (state_of self.old) pid op) }
        ensures entry { OnOk result (self.new ≡ with_entry self.old (next_entry self.old pid op)) }
        ensures fits { OnOk result (volume_with self.old (next_entry self.old pid op) ≤ self.old.limit) }
        ensures live { OnOk result ((p : Pid) → lives (state_of self.new) p ≡ lives (state_of self.old) p) }
        ensures volume { result ≡ Err Volume → self.old.limit < volume_with self.old (next_entry self.old pid op) }
        ensures err { OnErr result (self.new ≡ self.old) }
    {
        let answer = take_turn(
            self.alloc,
            &mut self.tree,
            &mut self.locks,
            &mut self.logs,
            &mut self.told,
            pid,
            &op,
            self.room,
        )?;
        self.room = answer.left;
        self.told.push_reserved(Entry {
            pid,
            op,
            reply: answer.kept,
        });
        Ok(answer.told)
    }

    /// Ends a live process: all its levels are undone, and all its locks go. It takes no memory and
    /// no volume, and always succeeds.
    pub fn apply_end(&mut self, pid: Pid) -> Reply
        requires { lives (state_of self.old) pid ≡ true }
        ensures reply { result ≡ Done }
        ensures entry { self.new ≡ with_entry self.old (end_entry pid) }
        ensures ended { lives (state_of self.new) pid ≡ false }
        ensures others { (p : Pid) → p.0 ≢ pid.0 → lives (state_of self.new) p ≡ lives (state_of self.old) p }
    {
        end_turn(&mut self.tree, &mut self.locks, &mut self.logs, pid);
        self.told.push_reserved(Entry {
            pid,
            op: Op::End,
            reply: Reply::Done,
        });
        Reply::Done
    }

    /// The nodes that the store was opened with, each of them within the limits. It takes no memory.
    pub fn opening(&self) -> &Nodes
        ensures nodes { result.now ≡ self.now.nodes }
        ensures rising { IsTrue (is_sorted node_cmp self.now.nodes) }
        ensures limits { list_all is_legal_pair self.now.nodes ≡ true }
        ensures pids { (1 ≤ self.now.pids) × (self.now.pids ≤ 64) }
    {
        &self.nodes
    }

    /// What was asked and answered since. It takes no memory.
    pub fn history(&self) -> &History
        ensures entries { result.now.items ≡ self.now.history }
        ensures sound { IsSound self.now }
        ensures limits { AreLegalOps self.now.history × AreLegalReplies self.now.history }
    {
        &self.told
    }

    /// The globals after the history. It takes no memory.
    pub fn tree(&self) -> &Tree
        ensures { result.now.globals ≡ (state_of self.now).globals }
    {
        &self.tree
    }

    /// Whether the process is one of the store's and hasn't ended. It takes no memory.
    pub fn is_live(&self, pid: Pid) -> bool
        ensures { result ≡ lives (state_of self.now) pid }
    {
        match (pid.0 as usize).checked_sub(1) {
            Some(at) => has_log(self.logs.as_slice(), at),
            None => false,
        }
    }
}

/// Whether there is a log at the place.
fn has_log(logs: &[Option<Log>], at: usize) -> bool
    ensures { result ≡ is_some (slice_index_or logs.now at None) }
{
    match logs.get(at) {
        Some(Some(_)) => true,
        _ => false,
    }
}
