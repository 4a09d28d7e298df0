ghost use Rattle.std.specs.Prelude.{◌≡◌, ℕ, [], ◌++◌, ◌≤◌, take};
ghost use Rattle.obj_edges.specs.Told.{Rises, Taken};

use crate::edges::{Device, Put, Sink};
use obj_kinds::NoMemory;
use sqlite_items::Items;
use std::alloc::Global;

// Bytes put so far, in room that was taken when it was made. A put whose number, counted from 1, is
// among the failing ones takes nothing; one that passes the room takes what fits.
#[derive(Debug, Drop)]
struct Room {
    bytes: Vec<u8>,
    len: usize,
    failing: Items<u64>,
    calls: u64,
    faults: u64,
}

impl Room {
    ghost use Rattle.std.specs.Prelude.{IfOk};
    ghost use Rattle.obj_edges.specs.MemoryViews.{IsFreshRoom};

    fn new(alloc: Global, len: usize, failing: Items<u64>) -> Result<Room, NoMemory>
        ensures { IfOk result (λ room. IsFreshRoom room len failing) }
    {
        Ok(Room {
            bytes: Vec::with_capacity(alloc, len)?,
            len,
            failing,
            calls: 0,
            faults: 0,
        })
    }

    fn is_failing(&self) -> bool {
        self.failing.as_slice().contains(&self.calls)
    }

    fn fault(&mut self) -> Put
        ensures failed { result ≡ Put.Failed }
        ensures rises { Rises self.old.faults self.new.faults }
        ensures never_falls { self.old.faults ≤ self.new.faults }
        ensures bytes { self.new.bytes ≡ self.old.bytes }
    {
        self.faults = self.faults.saturating_add(1);
        Put::Failed
    }

    // Whether the whole piece was taken.
    fn take(&mut self, piece: &[u8]) -> bool
        ensures taken { Taken self.old.bytes.items self.new.bytes.items piece.now result }
        ensures faults { self.new.faults ≡ self.old.faults }
    {
        let fits = piece.len().min(self.len.saturating_sub(self.bytes.len()));
        if self.bytes.extend_from_slice(&piece[..fits]).is_err() {
            return false;
        }
        fits == piece.len()
    }

    fn put(&mut self, piece: &[u8]) -> Put
        ensures done { result ≡ Put.Done → self.new.bytes.items ≡ self.old.bytes.items ++ piece.now }
        ensures failed { result ≡ Put.Failed → (n : ℕ) × (self.new.bytes.items ≡ self.old.bytes.items ++ take n piece.now) }
        ensures rises { result ≡ Put.Failed → Rises self.old.faults self.new.faults }
        ensures nothing { piece.now ≡ [] → result ≡ Put.Done }
        ensures never_falls { self.old.faults ≤ self.new.faults }
    {
        if piece.is_empty() {
            return Put::Done;
        }
        self.calls = self.calls.saturating_add(1);
        if self.is_failing() {
            return self.fault();
        }
        if self.take(piece) {
            Put::Done
        } else {
            self.fault()
        }
    }
}

/// A sink in memory, which tells its bytes.
#[derive(Debug, Drop)]
pub struct MemSink {
    room: Room,
}

impl MemSink {
    ghost use Rattle.std.specs.Prelude.{IfOk};
    ghost use Rattle.obj_edges.specs.MemoryViews.{IsFreshSink, sink_bytes, sink_faults};

    /// Room for this many bytes; the puts with these numbers, counted from 1, will fail.
    pub fn new(alloc: Global, len: usize, failing: Items<u64>) -> Result<MemSink, NoMemory>
        ensures { IfOk result (λ sink. IsFreshSink sink len failing) }
    {
        Ok(MemSink {
            room: Room::new(alloc, len, failing)?,
        })
    }

    /// All bytes put so far.
    pub fn bytes(&self) -> &[u8]
        ensures { result.now ≡ sink_bytes self.now }
    {
        self.room.bytes.as_slice()
    }

    /// How many puts failed.
    pub fn faults(&self) -> u64
        ensures { result ≡ sink_faults self.now }
    {
        self.room.faults
    }
}

impl Sink for MemSink {
    ghost use Rattle.std.specs.Prelude.{Some};

    ghost told = { λ s. Some s.room.bytes.items };

    ghost faults = { λ s. s.room.faults };

    fn put(&mut self, piece: &[u8]) -> Put {
        self.room.put(piece)
    }
}

/// A device in memory, which tells its bytes.
#[derive(Debug, Drop)]
pub struct MemDevice {
    room: Room,
}

impl MemDevice {
    ghost use Rattle.std.specs.Prelude.{IfOk};
    ghost use Rattle.obj_edges.specs.MemoryViews.{IsFreshDevice, device_faults};

    /// Room for this many bytes; the puts with these numbers, counted from 1, will fail.
    pub fn new(alloc: Global, len: usize, failing: Items<u64>) -> Result<MemDevice, NoMemory>
        ensures { IfOk result (λ device. IsFreshDevice device len failing) }
    {
        Ok(MemDevice {
            room: Room::new(alloc, len, failing)?,
        })
    }

    /// How many puts failed.
    pub fn faults(&self) -> u64
        ensures { result ≡ device_faults self.now }
    {
        self.room.faults
    }
}

impl Device for MemDevice {
    ghost use Rattle.std.specs.Prelude.{Some};

    ghost bytes = { λ d. Some d.room.bytes.items };

    ghost faults = { λ d. d.room.faults };

    fn put(&mut self, piece: &[u8]) -> Put {
        self.room.put(piece)
    }

    fn told(&self) -> Option<&[u8]> {
        Some(self.room.bytes.as_slice())
    }
}
