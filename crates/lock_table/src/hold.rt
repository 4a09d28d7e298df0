ghost use Rattle.std.specs.Prelude.{◌≡◌, ◌-◌, ◌^◌, ◌<◌, false};
ghost use Rattle.obj_kinds.specs.declared.op.Keep.TheVariants.{Counted};
ghost use Rattle.lock_table.specs.Holds.{is_held, is_counted, raised, lowered, unheld};

use obj_kinds::{Keep, Mode, Node, Owner, Pid};

/// Who holds which node, in which mode, and on whose behalf.
#[derive(Debug, Drop)]
pub struct Hold {
    pub node: Node,
    pub pid: Pid,
    pub mode: Mode,
    pub owner: Owner,
}

/// How a hold is kept.
#[derive(Clone, Copy, Debug, PartialEq, Eq)]
pub struct Kept {
    /// How often it was granted and not given back.
    pub counted: u64,
    /// Whether it stays to the end of the outermost transaction.
    pub to_end: bool,
}

impl Kept {
    /// What isn't held.
    pub fn unheld() -> Kept
        ensures { result ≡ unheld }
    {
        Kept {
            counted: 0,
            to_end: false,
        }
    }

    /// Whether there is a count to give back.
    pub fn is_counted(self) -> bool
        ensures { result ≡ is_counted self }
    {
        self.counted > 0
    }

    /// Whether it is held at all.
    pub fn is_held(self) -> bool
        ensures { result ≡ is_held self }
    {
        self.is_counted() || self.to_end
    }

    /// Granted once more, or to the end.
    pub fn raised(self, keep: Keep) -> Kept
        requires { keep ≡ Counted → self.counted < 2 ^ 64 - 1 }
        ensures { result ≡ raised keep self }
    {
        match keep {
            Keep::Counted => Kept {
                counted: self.counted + 1,
                to_end: self.to_end,
            },
            Keep::ToEnd => Kept {
                counted: self.counted,
                to_end: true,
            },
        }
    }

    /// With so many counts left, and to the end where it stays.
    pub fn lowered(self, stays: bool, left: u64) -> Kept
        ensures { result ≡ lowered stays left self }
    {
        Kept {
            counted: left,
            to_end: self.to_end || stays,
        }
    }

    /// Without the end of a transaction to wait for.
    pub fn without_end(self) -> Kept
        ensures { result ≡ record { counted = self.counted; to_end = false } }
    {
        Kept {
            counted: self.counted,
            to_end: false,
        }
    }
}
