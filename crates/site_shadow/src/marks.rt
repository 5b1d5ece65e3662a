// The bytes of a disk, and what the writes since the last sync replaced.
ghost use Rattle.std.specs.Prelude.{◌≡◌, ℕ, ◌+◌, ◌<◌, ◌≤◌, ◌^◌, length, vec_capacity, IfOk, OnOk, OnErr};
ghost use Rattle.site_core.specs.Disk.{Disk, StopImage, overlaid};
ghost use Rattle.site_shadow.specs.Unsynced.{DiffersAtMarks, DiffersWithin, IsRoomFor, MarksOnly, Remembers};

use crate::pattern::Pattern;
use std::alloc::AllocError;
use std::marker::Model;

/// What a write replaced. Contracts see the range that it wrote.
#[derive(Drop)]
pub(crate) struct Replaced {
    start: usize,
    count: usize,
    /// The bytes that were there, up to the end of the disk.
    bytes: Vec<u8>,
}

impl Model for Replaced {
    ghost use Rattle.site_core.specs.Disk.{Range};

    ghost Value = { Range };

    ghost view = { λ r. record { start = r.start; count = r.count } };
}

/// Remembers the bytes of a range, after what is remembered already.
///
/// # Errors
///
/// `AllocError` if memory is refused.
pub(crate) fn hold(
    before: &mut Vec<Replaced>,
    bytes: &[u8],
    at: usize,
    count: usize,
) -> Result<(), AllocError>
    requires inside { at ≤ length bytes.now }
    requires count { count < 2 ^ 63 }
    ensures { MarksOnly before.old.items (record { start = at; count = count }) before.new.items }
{
    let end = bytes.len().min(at + count);
    let mut held = Vec::new(*before.allocator());
    held.extend_from_slice(&bytes[at..end])?;
    before.push(Replaced {
        start: at,
        count,
        bytes: held,
    })?;
    Ok(())
}

/// The memory that bytes need to reach up to `end`: where they don't yet, a copy of them with room for the others.
///
/// # Errors
///
/// `AllocError` if memory is refused.
pub(crate) fn room_for(bytes: &Vec<u8>, end: usize) -> Result<Option<Vec<u8>>, AllocError>
    ensures { IfOk result (λ room. IsRoomFor bytes.now.items end room) }
{
    if end <= bytes.len() {
        return Ok(None);
    }
    let mut room = bytes.clone()?;
    room.reserve(end - bytes.len())?;
    Ok(Some(room))
}

/// Overwrites the bytes from `at` on with `over`. They grow if it reaches past their end.
///
/// # Errors
///
/// `AllocError` if memory is refused. `bytes` is unchanged then.
pub fn lay_over(bytes: &mut Vec<u8>, at: usize, over: &[u8]) -> Result<(), AllocError>
    ensures ok { OnOk result (bytes.new.items ≡ overlaid bytes.old.items at over.now) }
    ensures err { OnErr result (bytes.new.items ≡ bytes.old.items) }
    ensures full { at ≤ length bytes.old.items → length bytes.old.items ≤ at + length over.now
        → OnErr result (vec_capacity bytes.old < at + length over.now) }
{
    let front = at.min(bytes.len());
    let inside = over.len().min(bytes.len() - front);
    let (kept, after) = over.split_at(inside);
    bytes.extend_from_slice(after)?;
    bytes[front..front + inside].copy_from_slice(kept);
    Ok(())
}

/// Overwrites the bytes from `at` on with `over`, in this room.
pub(crate) fn lay_in(bytes: &mut Vec<u8>, at: usize, over: &[u8], room: Option<Vec<u8>>)
    requires inside { at ≤ length bytes.old.items }
    requires room { IsRoomFor bytes.old.items (at + length over.now) room }
    ensures { bytes.new.items ≡ overlaid bytes.old.items at over.now }
{
    match room {
        None => bytes[at..at + over.len()].copy_from_slice(over),
        Some(held) => *bytes = grown(held, at, over),
    }
}

/// These bytes, overwritten from `at` on with `over`, for which there is room.
fn grown(bytes: Vec<u8>, at: usize, over: &[u8]) -> Vec<u8>
    requires inside { at ≤ length bytes.items }
    requires past { length bytes.items ≤ at + length over.now }
    requires room { at + length over.now ≤ vec_capacity bytes }
    ensures { result.items ≡ overlaid bytes.items at over.now }
{
    let mut laid = bytes;
    match lay_over(&mut laid, at, over) {
        Ok(()) => laid,
        Err(_) => unreachable!(),
    }
}

/// Makes of the bytes what a power cut leaves: the pattern's bytes where something was written. By the pattern `Old` a disk that has grown
/// gets its old length.
pub(crate) fn leave(
    bytes: &mut Vec<u8>,
    before: &[Replaced],
    synced_length: usize,
    pattern: Pattern,
)
    ensures { (disk : Disk) → disk.bytes ≡ bytes.old.items → disk.synced_length ≡ synced_length
        → Remembers before.now disk → StopImage disk bytes.new.items }
{
    match pattern {
        Pattern::Old => {
            tear(bytes, before, None);
            bytes.truncate(synced_length);
            return;
        }
        Pattern::New => return,
        Pattern::Fill(word) => {
            tear(bytes, before, Some((word % 256) as u8));
            return;
        }
    }
}

/// Undoes the writes, the last one first, so that the bytes at the last sync come back; or puts the fill into each range.
fn tear(bytes: &mut Vec<u8>, before: &[Replaced], fill: Option<u8>)
    ensures { DiffersAtMarks before.now bytes.old.items bytes.new.items }
{
    let count = before.len();
    for undone in 0..count {
        undo(bytes, &before[count - 1 - undone], fill);
    }
}

/// Puts into the range that was written what was there before, or the fill.
fn undo(bytes: &mut [u8], replaced: &Replaced, fill: Option<u8>)
    ensures { DiffersWithin replaced.now bytes.old bytes.new }
{
    put_back(bytes, replaced.start, replaced.count, &replaced.bytes, fill);
}

/// Puts `old`, or the fill, into the `count` bytes from `start` on, as far as there are such bytes.
fn put_back(bytes: &mut [u8], start: usize, count: usize, old: &[u8], fill: Option<u8>)
    ensures { DiffersWithin (record { start = start; count = count }) bytes.old bytes.new }
{
    let end = start.saturating_add(count).min(bytes.len());
    for place in start..end {
        let byte = old.get(place - start).copied().unwrap_or(0);
        bytes[place] = fill.unwrap_or(byte);
    }
}
