//! The live batches of a journal's area.

ghost use Rattle.std.specs.Prelude.{◌≡◌, ◌+◌, ◌*◌, ◌/◌, ◌<◌, ◌≤◌, ◌^◌, ℕ, List, [], length, true};
ghost use Rattle.jrn_format.specs.Live.{halves_in};

use crate::sizes::batch_size;
use crate::spot::{Spot, next_spot};
use jrn_format::{AREA_START, Batch, Form};
use sii_words::History;
use std::marker::Model;
use std::mem::replace;

/// The live batches of a journal's area: which stand in each half, how many bytes they take there, and where the next one goes.
///
/// Memory holds only counts of bytes; the batches are kept for contracts alone. In version 1 the whole area counts as the older half.
#[derive(Drop)]
pub struct Area {
    form: Form,
    capacity: u32,
    at: u8,
    generation: u8,
    older_bytes: u32,
    newer_bytes: u32,
    older: History<Batch>,
    newer: History<Batch>,
}

impl Model for Area {
    ghost use Rattle.book_parts.specs.Room.{Room, room_of};

    ghost Value = { Room };

    ghost view = { λ a. room_of a.form a.capacity a.at a.generation a.older a.newer };

    ghost use Rattle.book_parts.specs.Counted.{IsCounted};

    ghost invariant = { λ a. IsCounted a.form a.at a.older_bytes a.newer_bytes a.older a.newer };
}

/// The half in which the first of the batches stands, and its generation.
fn older_of(batches: &[Batch]) -> (u8, u8)
    ensures half { result.0 ≡ (halves_in batches.now).at }
    ensures generation { result.1 ≡ (halves_in batches.now).generation }
{
    match batches {
        [first, ..] => (first.half, first.generation),
        [] => (0, 0),
    }
}

impl Area {
    ghost use Rattle.std.specs.Option.{option_map};
    ghost use Rattle.book_model.specs.Cells.{is_any};
    ghost use Rattle.jrn_format.specs.declared.journal.Entry.{Entry};
    ghost use Rattle.jrn_format.specs.Batch.{PayloadFits};
    ghost use Rattle.jrn_format.specs.Halves.{batch_in, batches_in, entries_size, fits, half_of, live, place_of, retired, size, with_batch};
    ghost use Rattle.jrn_format.specs.Live.{FitForm};
    ghost use Rattle.book_parts.specs.Room.{bytes_in, half_room, room_of};
    ghost use Rattle.book_parts.specs.Spot.{as_place};

    /// An area of `capacity` bytes in a journal of this form, with these live batches, as `scan` gives them.
    pub fn open(form: Form, capacity: u32, batches: &[Batch]) -> Area
        requires { FitForm form capacity batches.now }
        ensures { result ≡ record { form = form; capacity = capacity; halves = halves_in batches.now } }
    {
        let (at, generation) = older_of(batches);
        let mut area = Area::empty(form, capacity, at, generation);
        for batch in batches {
            let spot = if batch.half == at {
                Spot::InOlder
            } else {
                Spot::InNewer
            };
            area.put(spot, batch);
        }
        area
    }

    /// An area in which no batch is live.
    fn empty(form: Form, capacity: u32, at: u8, generation: u8) -> Area
        requires { at ≤ 1 }
        ensures { result ≡ room_of form capacity at generation [] [] }
    {
        Area {
            form,
            capacity,
            at,
            generation,
            older_bytes: 0,
            newer_bytes: 0,
            older: History::new(),
            newer: History::new(),
        }
    }

    /// The form of the journal.
    pub fn form(&self) -> Form
        ensures { result ≡ self.now.form }
    {
        self.form
    }

    /// The length of the area in bytes.
    pub fn capacity(&self) -> u32
        ensures { result ≡ self.now.capacity }
    {
        self.capacity
    }

    /// Whether any batch is live.
    pub fn is_any(&self) -> bool
        ensures { result ≡ is_any (live self.now.halves) }
    {
        self.older_bytes > 0 || self.newer_bytes > 0
    }

    /// Whether any batch stands in the newer half.
    pub fn has_newer(&self) -> bool
        ensures { result ≡ is_any self.now.halves.newer }
    {
        self.newer_bytes > 0
    }

    /// How many bytes the live batches of both halves take, each with its open gate.
    pub fn live_bytes(&self) -> u64
        ensures { result ≡ bytes_in self.now.form (live self.now.halves) }
    {
        u64::from(self.older_bytes) + u64::from(self.newer_bytes)
    }

    /// Where a batch of `bytes` bytes goes, counted with its gate. `None`: no half has room for it and a closed gate after it.
    ///
    /// The journal must be of version 2.
    pub fn place_of(&self, bytes: u64) -> Option<Spot>
        requires { self.now.form ≡ Form.Two }
        ensures { (entries : List Entry) → entries_size entries ≡ bytes
            → option_map as_place result ≡ place_of (half_room self.now) self.now.halves entries }
    {
        next_spot(
            self.capacity / 2,
            u64::from(self.older_bytes),
            u64::from(self.newer_bytes),
            bytes,
        )
    }

    /// Where a batch of `bytes` bytes goes once one of `appended` bytes stands at the spot. Both are counted with their gates.
    ///
    /// The journal must be of version 2.
    pub fn place_after(&self, spot: Spot, appended: u64, bytes: u64) -> Option<Spot>
        requires { self.now.form ≡ Form.Two }
        ensures { (first entries : List Entry) → entries_size first ≡ appended → entries_size entries ≡ bytes
            → option_map as_place result
            ≡ place_of (half_room self.now) (with_batch self.now.halves (as_place spot) (batch_in self.now.halves (as_place spot) first)) entries }
    {
        let older = u64::from(self.older_bytes);
        let newer = u64::from(self.newer_bytes);
        match spot {
            Spot::InOlder => next_spot(
                self.capacity / 2,
                older.saturating_add(appended),
                newer,
                bytes,
            ),
            Spot::InNewer => next_spot(
                self.capacity / 2,
                older,
                newer.saturating_add(appended),
                bytes,
            ),
        }
    }

    /// The half of the area, 0 or 1, in which a batch at the spot stands.
    pub fn half_in(&self, spot: Spot) -> u8
        ensures { result ≡ half_of self.now.halves (as_place spot) }
    {
        match spot {
            Spot::InOlder => self.at,
            Spot::InNewer => 1 - self.at,
        }
    }

    /// The generation of a batch at the spot.
    pub fn generation_in(&self, spot: Spot) -> u8
        ensures { (entries : List Entry) → result ≡ (batch_in self.now.halves (as_place spot) entries).generation }
    {
        match spot {
            Spot::InOlder => self.generation,
            Spot::InNewer => self.generation.wrapping_add(1),
        }
    }

    /// The byte of the journal's file that holds the first gate of the older half.
    pub fn older_at(&self) -> usize
        ensures { result ≡ 8 + self.now.halves.at * half_room self.now }
    {
        AREA_START + usize::from(self.at) * (self.capacity / 2) as usize
    }

    /// The byte of the journal's file that holds the first gate of half 1.
    pub fn far_at(&self) -> usize
        ensures { result ≡ 8 + half_room self.now }
    {
        AREA_START + (self.capacity / 2) as usize
    }

    /// The byte of the journal's file that holds the gate before the next batch at the spot. The journal must be of version 2.
    pub fn gate_at(&self, spot: Spot) -> usize
        requires { self.now.form ≡ Form.Two }
        ensures at { result ≡ 8 + half_of self.now.halves (as_place spot) * half_room self.now + size (batches_in self.now.halves (as_place spot)) }
        ensures small { result < 2 ^ 34 }
        ensures capacity { self.now.capacity < 2 ^ 32 }
    {
        let half = usize::from(self.half_in(spot));
        let taken = match spot {
            Spot::InOlder => self.older_bytes,
            Spot::InNewer => self.newer_bytes,
        };
        AREA_START + half * (self.capacity / 2) as usize + taken as usize
    }

    /// Retires the older half. The newer half becomes the older one; if nothing is live in it, the next batch goes to half 0 with
    /// generation 0.
    pub fn retire(&mut self)
        ensures { self.new ≡ record self.old { halves = retired self.old.halves } }
    {
        if self.newer_bytes > 0 {
            self.at = 1 - self.at;
            self.generation = self.generation.wrapping_add(1);
        } else {
            self.at = 0;
            self.generation = 0;
        }
        self.older_bytes = replace(&mut self.newer_bytes, 0);
        self.older = replace(&mut self.newer, History::new());
    }

    /// Makes the journal one of version 2. Nothing may be live in it.
    pub fn become_version_2(&mut self)
        requires { live self.old.halves ≡ [] }
        ensures { self.new ≡ record self.old { form = Form.Two } }
    {
        self.form = Form::Two;
    }

    /// Adds a batch at the spot.
    fn put(&mut self, spot: Spot, batch: &Batch)
        requires payload { PayloadFits batch.now.entries }
        requires fits { bytes_in self.old.form (batches_in (with_batch self.old.halves (as_place spot) batch.now) (as_place spot))
            ≤ self.old.capacity }
        ensures { self.new ≡ record self.old { halves = with_batch self.old.halves (as_place spot) batch.now } }
    {
        let size = batch_size(self.form, batch);
        match spot {
            Spot::InOlder => {
                self.older_bytes += size;
                self.older.note(batch);
            }
            Spot::InNewer => {
                self.newer_bytes += size;
                self.newer.note(batch);
            }
        }
    }

    /// A batch goes live at the spot. The half must have room for it and a closed gate after it, and the journal be of version 2.
    pub fn join(&mut self, spot: Spot, batch: &Batch)
        requires form { self.old.form ≡ Form.Two }
        requires payload { PayloadFits batch.now.entries }
        requires room { fits (half_room self.old) (batches_in self.old.halves (as_place spot)) batch.now.entries ≡ true }
        ensures { self.new ≡ record self.old { halves = with_batch self.old.halves (as_place spot) batch.now } }
    {
        self.put(spot, batch);
    }
}
