ghost use Rattle.std.specs.Prelude.{◌≡◌, ◌+◌, ◌<◌, ◌≤◌, ◌^◌, length, IfOk};
ghost use Rattle.site_core.specs.Disk.{Disk, IsSynced, overlaid, write_begun, synced, DiskStopped, StopImage};
ghost use Rattle.site_shadow.specs.Unsynced.{Covers, IsRoomFor, Remembers, of_bytes};

use crate::marks::{Replaced, hold, lay_in, leave, room_for};
use crate::pattern::Pattern;
use sii_words::History;
use std::alloc::{AllocError, Global};
use std::marker::Model;

/// A range of bytes that was written.
#[derive(Drop)]
struct Stretch {
    start: usize,
    count: usize,
}

impl Model for Stretch {
    ghost use Rattle.site_core.specs.Disk.{Range};

    ghost Value = { Range };

    ghost view = { λ s. record { start = s.start; count = s.count } };
}

/// A disk in memory. It remembers what each write since the last sync replaced.
#[derive(Drop)]
pub struct MemDisk {
    bytes: Vec<u8>,
    /// What the writes since the last sync replaced, the earliest first.
    before: Vec<Replaced>,
    synced_length: usize,
    unsynced: History<Stretch>,
}

impl Model for MemDisk {
    ghost use Rattle.site_core.specs.Disk.{Disk};

    ghost Value = { Disk };

    ghost use Rattle.std.specs.Prelude.{reverse};
    ghost use Rattle.site_shadow.specs.Unsynced.{Remembers};

    ghost view = { λ d. record { bytes = d.bytes.items; unsynced = reverse d.unsynced; synced_length = d.synced_length } };

    ghost invariant = { λ d. Remembers d.before.items
        (record { bytes = d.bytes.items; unsynced = reverse d.unsynced; synced_length = d.synced_length }) };
}

impl MemDisk {
    /// Makes a disk of these bytes, all of them synced.
    pub fn of(alloc: Global, bytes: Vec<u8>) -> MemDisk
        ensures { result ≡ of_bytes bytes.items }
    {
        let synced_length = bytes.len();
        MemDisk {
            bytes,
            before: Vec::new(alloc),
            synced_length,
            unsynced: History::new(),
        }
    }

    /// The disk's bytes, as a read gives them.
    pub fn bytes(&self) -> &[u8]
        ensures { result.now ≡ self.now.bytes }
    {
        &self.bytes
    }

    /// Takes the disk apart: its bytes, as a read gives them.
    pub fn into_bytes(self) -> Vec<u8>
        ensures { result.items ≡ self.bytes }
    {
        let MemDisk { bytes, .. } = self;
        bytes
    }

    /// Begins a write of `count` bytes: its range is unsynced from now on. `at` must not lie past the disk's end, and `count` must be below
    /// 2^63. Takes the memory for the whole write, and returns what `lay` needs of it.
    ///
    /// # Errors
    ///
    /// `AllocError` if the memory for the old bytes, or for those past the disk's end, is refused. The write has begun then too.
    pub fn begin(&mut self, at: usize, count: usize) -> Result<Option<Vec<u8>>, AllocError>
        requires inside { at ≤ length self.old.bytes }
        requires count { count < 2 ^ 63 }
        ensures begun { self.new ≡ write_begun self.old at count }
        ensures room { IfOk result (λ room. IsRoomFor self.old.bytes (at + count) room) }
    {
        self.unsynced.note(&Stretch { start: at, count });
        let held = hold(&mut self.before, &self.bytes, at, count);
        held.and(room_for(&self.bytes, at + count))
    }

    /// Overwrites the bytes from `at` on, which must not lie past the disk's end, in the room that `begin` has returned. The disk grows if
    /// they reach past its end.
    pub fn lay(&mut self, at: usize, over: &[u8], room: Option<Vec<u8>>)
        requires inside { at ≤ length self.old.bytes }
        requires begun { Covers self.old at (length over.now) }
        requires room { IsRoomFor self.old.bytes (at + length over.now) room }
        ensures { self.new ≡ record self.old { bytes = overlaid self.old.bytes at over.now } }
    {
        lay_in(&mut self.bytes, at, over, room);
    }

    /// Syncs all bytes.
    pub fn sync(&mut self)
        ensures { self.new ≡ synced self.old }
    {
        self.before.clear();
        self.synced_length = self.bytes.len();
        self.unsynced = History::new();
    }

    /// Cuts the power: unsynced bytes become those of the pattern, and all bytes count as synced.
    pub fn stop(&mut self, pattern: Pattern)
        ensures { DiskStopped self.old self.new }
    {
        leave(&mut self.bytes, &self.before, self.synced_length, pattern);
        self.before.clear();
        self.synced_length = self.bytes.len();
        self.unsynced = History::new();
    }

    /// Returns the bytes that a power cut now would leave, by this pattern.
    ///
    /// # Errors
    ///
    /// `AllocError` if memory is refused.
    pub fn snapshot(&self, pattern: Pattern) -> Result<Vec<u8>, AllocError>
        ensures { IfOk result (λ bytes. StopImage self.now bytes.items) }
    {
        let mut bytes = self.bytes.clone()?;
        leave(&mut bytes, &self.before, self.synced_length, pattern);
        Ok(bytes)
    }
}
