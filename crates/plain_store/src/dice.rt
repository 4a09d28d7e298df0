ghost use Rattle.std.specs.Prelude.{◌≤◌, ◌<◌};

use crate::ask::{Ask, PLACES};
use obj_kinds::{Keep, Mode, Owner};

/// Numbers that look like chance, and are the same in each run.
#[derive(Clone, Copy, Debug)]
pub struct Dice {
    state: u64,
}

impl Dice {
    pub fn new(seed: u64) -> Dice {
        Dice { state: seed }
    }

    /// A number from 0 up to, without, the sides.
    pub fn roll(&mut self, sides: u8) -> u8
        requires { 1 ≤ sides }
        ensures { result < sides }
    {
        self.state = self
            .state
            .wrapping_mul(6_364_136_223_846_793_005)
            .wrapping_add(1_442_695_040_888_963_407);
        ((self.state >> 33) % u64::from(sides)) as u8
    }

    fn place(&mut self) -> u8 {
        self.roll(PLACES)
    }

    /// Of the few places that are locked, so that locks meet.
    fn locked(&mut self) -> u8 {
        self.roll(3)
    }

    fn number(&mut self) -> i64 {
        i64::from(self.roll(100)) - 50
    }

    fn sub(&mut self) -> i64 {
        i64::from(self.roll(9))
    }

    fn mode(&mut self) -> Mode {
        if self.roll(2) == 0 {
            Mode::Shared
        } else {
            Mode::Exclusive
        }
    }

    fn owner(&mut self) -> Owner {
        if self.roll(2) == 0 {
            Owner::Object
        } else {
            Owner::Script
        }
    }

    fn keep(&mut self) -> Keep {
        if self.roll(4) == 0 {
            Keep::ToEnd
        } else {
            Keep::Counted
        }
    }

    fn of_values(&mut self) -> Ask {
        match self.roll(9) {
            0 | 1 => Ask::Get(self.place()),
            2 => Ask::Defined(self.place()),
            3 => Ask::Order(self.place(), self.sub()),
            4 => Ask::Kill(self.place()),
            5 => Ask::Incr(self.place(), self.number()),
            _ => Ask::Set(self.place(), self.number()),
        }
    }

    fn of_locks(&mut self) -> Ask {
        match self.roll(9) {
            0 => Ask::UnlockAll(self.owner()),
            1 | 2 | 3 => Ask::Unlock(self.locked(), self.mode(), self.owner()),
            _ => Ask::Lock(self.locked(), self.mode(), self.owner(), self.keep()),
        }
    }

    fn of_levels(&mut self) -> Ask {
        match self.roll(9) {
            0 => Ask::RollbackAll,
            1 | 2 => Ask::RollbackOne,
            3 | 4 => Ask::Commit,
            _ => Ask::Begin,
        }
    }

    /// An operation, of any kind.
    pub fn ask(&mut self) -> Ask {
        match self.roll(6) {
            0 => self.of_levels(),
            1 | 2 => self.of_locks(),
            _ => self.of_values(),
        }
    }
}
