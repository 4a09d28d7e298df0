ghost use Rattle.std.specs.Prelude.{◌≡◌};
ghost use Rattle.std.specs.Ordering.{nat_cmp};
ghost use Rattle.lock_table.specs.Holds.{mode_rank, owner_rank, is_exclusive, is_script};
ghost use Rattle.lock_table.specs.Holders.{holder_cmp, keeps_out, remains, changed_by};

use crate::hold::Kept;
use obj_kinds::{Mode, Owner, Pid};
use std::cmp::Ordering;

/// Who holds a node, in which mode, and on whose behalf.
#[derive(Clone, Copy, Debug)]
pub struct Holder {
    pub pid: Pid,
    pub mode: Mode,
    pub owner: Owner,
}

/// What becomes of all holds of one process.
#[derive(Clone, Copy, Debug)]
pub enum Change {
    /// All counts of an owner are given back, in a transaction or outside of one.
    GiveBack { owner: Owner, in_tran: bool },
    /// Its outermost transaction ends.
    EndTran,
    /// It ends.
    Drop,
}

fn is_exclusive(mode: Mode) -> bool
    ensures { result ≡ is_exclusive mode }
{
    match mode {
        Mode::Shared => false,
        Mode::Exclusive => true,
    }
}

fn is_script(owner: Owner) -> bool
    ensures { result ≡ is_script owner }
{
    match owner {
        Owner::Script => true,
        Owner::Object => false,
    }
}

fn compare_modes(left: Mode, right: Mode) -> Ordering
    ensures { result ≡ nat_cmp (mode_rank left) (mode_rank right) }
{
    left.cmp(&right)
}

fn compare_owners(left: Owner, right: Owner) -> Ordering
    ensures { result ≡ nat_cmp (owner_rank left) (owner_rank right) }
{
    left.cmp(&right)
}

impl Holder {
    /// The order of a node's holders: by pid, then shared before exclusive, then a script's before
    /// an object's.
    #[tactic(auto, unfolding(crate::specs::Holders::holder_cmp))]
    pub fn compare(&self, other: &Holder) -> Ordering
        ensures { result ≡ holder_cmp self.now other.now }
    {
        match self.pid.0.cmp(&other.pid.0) {
            Ordering::Equal => match compare_modes(self.mode, other.mode) {
                Ordering::Equal => compare_owners(self.owner, other.owner),
                order => order,
            },
            order => order,
        }
    }

    /// Whether it keeps a process from holding a node in line in this mode: it is another
    /// process, and not both are shared.
    pub fn keeps_out(&self, pid: Pid, mode: Mode) -> bool
        ensures { result ≡ keeps_out pid mode self.now }
    {
        pid.0 != self.pid.0 && (is_exclusive(mode) || is_exclusive(self.mode))
    }

    /// Whether it stays to the end of the transaction when it is given back: it is a script's
    /// exclusive lock, and a transaction is open.
    pub fn remains(&self, in_tran: bool) -> bool
        ensures { result ≡ remains in_tran self.now }
    {
        in_tran && is_script(self.owner) && is_exclusive(self.mode)
    }
}

impl Change {
    /// How a hold of the process is kept then.
    pub fn apply(self, holder: Holder, kept: Kept) -> Kept
        ensures { result ≡ changed_by self holder kept }
    {
        match self {
            Change::GiveBack { owner, in_tran } => give_back(owner, in_tran, holder, kept),
            Change::EndTran => kept.without_end(),
            Change::Drop => Kept::unheld(),
        }
    }
}

fn give_back(owner: Owner, in_tran: bool, holder: Holder, kept: Kept) -> Kept
    ensures { result ≡ changed_by (Change.GiveBack owner in_tran) holder kept }
{
    if matches!(compare_owners(holder.owner, owner), Ordering::Equal) && kept.is_counted() {
        return kept.lowered(holder.remains(in_tran), 0);
    }
    kept
}

impl PartialEq for Holder {
    ghost use Rattle.std.specs.Ordering.{eq_by_cmp};
    ghost use Rattle.std.specs.Cmp.{partial_equiv_from_equiv, eq_by_cmp_equiv};
    ghost use Rattle.lock_table.specs.Holders.{holder_cmp, holder_total};

    ghost eq = { eq_by_cmp holder_cmp };

    ghost laws = { partial_equiv_from_equiv (eq_by_cmp_equiv holder_total) };

    fn eq(&self, other: &Holder) -> bool {
        matches!(self.compare(other), Ordering::Equal)
    }
}

impl Eq for Holder {
    ghost use Rattle.std.specs.Cmp.{eq_by_cmp_equiv};
    ghost use Rattle.lock_table.specs.Holders.{holder_total};

    ghost laws = { eq_by_cmp_equiv holder_total };
}

impl PartialOrd for Holder {
    ghost use Rattle.std.specs.Prelude.{Some};
    ghost use Rattle.std.specs.Cmp.{partial_order_from_total};
    ghost use Rattle.lock_table.specs.Holders.{holder_cmp, holder_total};

    ghost partial_cmp = { λ a b. Some (holder_cmp a b) };

    ghost laws = { partial_order_from_total holder_total };

    fn partial_cmp(&self, other: &Holder) -> Option<Ordering> {
        Some(self.compare(other))
    }
}

impl Ord for Holder {
    ghost use Rattle.std.specs.Prelude.{refl};
    ghost use Rattle.lock_table.specs.Holders.{holder_cmp, holder_total};

    ghost cmp = { holder_cmp };

    ghost total = { holder_total };

    ghost matches_partial_cmp = { λ a b. refl };

    ghost matches_eq = { λ a b. refl };

    fn cmp(&self, other: &Holder) -> Ordering {
        self.compare(other)
    }
}
