use crate::ask::{PLACES, Want, way};
use obj_kinds::{Keep, Mode, NoMemory, Owner};
use std::alloc::Global;

/// Whether the first place is the second or an ancestor of it.
pub fn covers(upper: u8, lower: u8) -> bool {
    let (letter, sub) = way(upper);
    upper == lower || (sub == 0 && letter == way(lower).0)
}

fn is_exclusive(mode: Mode) -> bool {
    match mode {
        Mode::Shared => false,
        Mode::Exclusive => true,
    }
}

fn is_script(owner: Owner) -> bool {
    match owner {
        Owner::Script => true,
        Owner::Object => false,
    }
}

/// The holds of all processes, as a count and a mark "to the end" of each that there can be.
#[derive(Drop)]
pub struct PlainHolds {
    processes: u8,
    counts: Vec<u32>,
    to_end: Vec<bool>,
}

impl PlainHolds {
    pub fn new(alloc: Global, processes: u8) -> Result<PlainHolds, NoMemory> {
        let mut counts = Vec::new(alloc);
        let mut to_end = Vec::new(alloc);
        for _ in 0..usize::from(PLACES) * usize::from(processes) * 4 {
            counts.push(0)?;
            to_end.push(false)?;
        }
        Ok(PlainHolds {
            processes,
            counts,
            to_end,
        })
    }

    /// Where a hold stands in the lists.
    fn index(&self, process: u8, place: u8, exclusive: bool, script: bool) -> usize {
        let row = usize::from(place) * usize::from(self.processes) + usize::from(process);
        row * 4 + usize::from(exclusive) * 2 + usize::from(script)
    }

    fn count(&self, at: usize) -> u32 {
        match self.counts.get(at) {
            Some(count) => *count,
            None => 0,
        }
    }

    fn set_count(&mut self, at: usize, count: u32) {
        if let Some(slot) = self.counts.get_mut(at) {
            *slot = count;
        }
    }

    fn set_to_end(&mut self, at: usize, to_end: bool) {
        if let Some(slot) = self.to_end.get_mut(at) {
            *slot = to_end;
        }
    }

    fn stands(&self, at: usize) -> bool {
        match self.to_end.get(at) {
            Some(to_end) => *to_end || self.count(at) > 0,
            None => false,
        }
    }

    fn has(&self, process: u8, place: u8, exclusive: bool) -> bool {
        self.stands(self.index(process, place, exclusive, false))
            || self.stands(self.index(process, place, exclusive, true))
    }

    /// Whether another process holds the place so that it is in conflict.
    fn refuser_at(&self, process: u8, place: u8, exclusive: bool) -> Option<Want> {
        for other in 0..self.processes {
            if other != process {
                let pid = u32::from(other) + 1;
                if exclusive && self.has(other, place, false) {
                    return Some(Want::Held(pid, place, Mode::Shared));
                }
                if self.has(other, place, true) {
                    return Some(Want::Held(pid, place, Mode::Exclusive));
                }
            }
        }
        None
    }

    fn refuser(&self, process: u8, place: u8, exclusive: bool) -> Option<Want> {
        for other in 0..PLACES {
            if covers(other, place) || covers(place, other) {
                let found = self.refuser_at(process, other, exclusive);
                if found.is_some() {
                    return found;
                }
            }
        }
        None
    }

    pub fn ask(&mut self, process: u8, place: u8, mode: Mode, owner: Owner, keep: Keep) -> Want {
        let exclusive = is_exclusive(mode);
        if let Some(held) = self.refuser(process, place, exclusive) {
            return held;
        }
        let at = self.index(process, place, exclusive, is_script(owner));
        match keep {
            Keep::Counted => self.set_count(at, self.count(at).wrapping_add(1)),
            Keep::ToEnd => self.set_to_end(at, true),
        }
        Want::Granted
    }

    /// With so many counts left; what a script holds exclusively in a transaction stays to its end.
    fn lower(
        &mut self,
        process: u8,
        place: u8,
        exclusive: bool,
        script: bool,
        open: bool,
        left: u32,
    ) {
        let at = self.index(process, place, exclusive, script);
        self.set_count(at, left);
        if open && exclusive && script {
            self.set_to_end(at, true);
        }
    }

    pub fn release(
        &mut self,
        process: u8,
        place: u8,
        mode: Mode,
        owner: Owner,
        open: bool,
    ) -> Want {
        let exclusive = is_exclusive(mode);
        let script = is_script(owner);
        let count = self.count(self.index(process, place, exclusive, script));
        if count == 0 {
            return Want::NotHeld;
        }
        self.lower(process, place, exclusive, script, open, count - 1);
        Want::Done
    }

    fn release_whole(&mut self, process: u8, place: u8, exclusive: bool, script: bool, open: bool) {
        if self.count(self.index(process, place, exclusive, script)) > 0 {
            self.lower(process, place, exclusive, script, open, 0);
        }
    }

    pub fn release_all(&mut self, process: u8, owner: Owner, open: bool) -> Want {
        for place in 0..PLACES {
            self.release_whole(process, place, false, is_script(owner), open);
            self.release_whole(process, place, true, is_script(owner), open);
        }
        Want::Done
    }

    fn end_at(&mut self, process: u8, place: u8, exclusive: bool) {
        self.set_to_end(self.index(process, place, exclusive, false), false);
        self.set_to_end(self.index(process, place, exclusive, true), false);
    }

    pub fn end_tran(&mut self, process: u8) {
        for place in 0..PLACES {
            self.end_at(process, place, false);
            self.end_at(process, place, true);
        }
    }

    fn drop_at(&mut self, process: u8, place: u8, exclusive: bool) {
        self.set_count(self.index(process, place, exclusive, false), 0);
        self.set_count(self.index(process, place, exclusive, true), 0);
    }

    pub fn drop_all(&mut self, process: u8) {
        self.end_tran(process);
        for place in 0..PLACES {
            self.drop_at(process, place, false);
            self.drop_at(process, place, true);
        }
    }
}
