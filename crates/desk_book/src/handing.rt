//! Hands out the disk's actions, and takes their outcomes.

ghost use Rattle.std.specs.Prelude.{◌≡◌, ◌≤◌, ◌<◌, ◌++◌, ◌∷◌, [], vec_capacity, IfOk, OnOk};
ghost use Rattle.desk_book.specs.Asking.{AsksDisk, HearsDisk, TellsDisk, disk_reported, is_disk_job, bytes_of};
ghost use Rattle.desk_book.specs.Calls.{AreAnswered};
ghost use Rattle.desk_book.specs.Logs.{with_disk_answer};

use crate::call::{Call, Recalled};
use crate::heard::Heard;
use crate::naming::{Refusals, Tickets};
use crate::served::Served;
use book_model::DiskNext;
use sii_words::{History, ItemList};
use site_core::DeviceFault;
use station_jobs::Notes;
use std::alloc::{AllocError, Global};

/// The disk's actions that were handed out, with their outcomes.
type DiskNotes = Notes<DiskNext, Result<(), DeviceFault>>;

/// Adds a call of the book to its history.
pub(crate) fn note(history: &mut History<Call>, call: Call)
    ensures { history.new ≡ history.old ++ call ∷ [] }
{
    history.note(&call);
}

/// Whether this is an action: not `Idle` or `Stop`.
fn is_job(next: &DiskNext) -> bool
    ensures { result ≡ is_disk_job next.now }
{
    match next {
        DiskNext::Idle | DiskNext::Stop => false,
        _ => true,
    }
}

/// Takes memory for one more action in the notes, and for `bytes` bytes, twice.
fn rooms_for(
    alloc: Global,
    notes: &mut DiskNotes,
    bytes: usize,
) -> Result<(Vec<u8>, Vec<u8>), AllocError>
    ensures same { notes.new.entries ≡ notes.old.entries }
    ensures room { OnOk result (0 < notes.new.spare) }
    ensures first { IfOk result (λ rooms. (rooms.0.items ≡ []) × (bytes ≤ vec_capacity rooms.0)) }
    ensures second { IfOk result (λ rooms. (rooms.1.items ≡ []) × (bytes ≤ vec_capacity rooms.1)) }
{
    notes.reserve()?;
    let first = Vec::with_capacity(alloc, bytes)?;
    let second = Vec::with_capacity(alloc, bytes)?;
    Ok((first, second))
}

/// A copy, whose bytes are put into `room`.
fn copied(next: &DiskNext, room: Vec<u8>) -> DiskNext
    requires empty { room.items ≡ [] }
    requires room { bytes_of next.now ≤ vec_capacity room }
    ensures { result ≡ next.now }
{
    match next {
        DiskNext::Write { at, bytes } => {
            let mut copy = room;
            match copy.extend_from_slice(bytes.as_slice()) {
                Ok(()) => DiskNext::Write {
                    at: *at,
                    bytes: ItemList::from_vec(copy),
                },
                Err(_) => unreachable!(),
            }
        }
        DiskNext::Gate { at, closed } => DiskNext::Gate {
            at: *at,
            closed: *closed,
        },
        DiskNext::Sync => DiskNext::Sync,
        DiskNext::Idle => DiskNext::Idle,
        DiskNext::Stop => DiskNext::Stop,
    }
}

/// Notes the book's answer, if it is an action, and answers it twice. The bytes of each copy are put into one of the rooms.
fn hand_out(
    notes: &mut DiskNotes,
    next: DiskNext,
    rooms: (Vec<u8>, Vec<u8>),
) -> Heard<(DiskNext, DiskNext)>
    requires notes { 0 < notes.old.spare }
    requires first { (rooms.0.items ≡ []) × (bytes_of next ≤ vec_capacity rooms.0) }
    requires second { (rooms.1.items ≡ []) × (bytes_of next ≤ vec_capacity rooms.1) }
    ensures noted { notes.new.entries ≡ with_disk_answer notes.old.entries next }
    ensures tells { TellsDisk next result }
{
    if is_job(&next) {
        let (first, second) = rooms;
        notes.hand_out(copied(&next, first));
        let copy = copied(&next, second);
        return Heard::Work((next, copy));
    }
    match next {
        DiskNext::Stop => Heard::Stop,
        _ => Heard::Nothing,
    }
}

impl<T: Tickets, R: Refusals> Served<T, R> {
    /// Asks the book for the next action on the disk. Answers it twice: one is for the dispatch's log.
    ///
    /// All memory is taken before the book is asked. After `NoMemory` nothing has changed. Once the jobs have stopped for want of memory,
    /// the answer is `Stop` and the book isn't asked; while an action is out, it is `Nothing` and the book isn't asked.
    pub fn disk_next(&mut self) -> Heard<(DiskNext, DiskNext)>
        ensures asks { AsksDisk result self.old self.new }
        ensures answered { AreAnswered T.opened self.new.calls }
    {
        if self.is_out_of_memory {
            return Heard::Stop;
        }
        if self.disk.is_waiting() {
            return Heard::Nothing;
        }
        self.hear_disk()
    }

    /// Asks the book for the next action on the disk, and notes its answer.
    fn hear_disk(&mut self) -> Heard<(DiskNext, DiskNext)>
        ensures hears { HearsDisk result self.old self.new }
        ensures answered { AreAnswered T.opened self.new.calls }
    {
        let bytes = self.core.disk_room();
        let Ok(rooms) = rooms_for(self.alloc, &mut self.disk, bytes) else {
            return Heard::NoMemory;
        };
        let Ok(next) = self.core.disk_next() else {
            return Heard::NoMemory;
        };
        let answer = Recalled::of(&next);
        note(&mut self.history, Call::DiskAsked { answer });
        hand_out(&mut self.disk, next, rooms)
    }

    /// Reports the outcome of the disk action that is out. If none is out, nothing changes.
    pub fn disk_done(&mut self, outcome: Result<(), DeviceFault>)
        ensures { self.new ≡ disk_reported self.old outcome }
    {
        if !self.disk.is_waiting() {
            return;
        }
        self.core.disk_done(outcome);
        note(&mut self.history, Call::DiskReported { outcome });
        self.disk.tell(outcome);
    }
}
