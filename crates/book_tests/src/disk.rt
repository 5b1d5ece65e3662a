//! Actions that a book hands out for the disk.

use book_core::Core;
use book_model::DiskNext;
use site_core::DeviceFault;

/// An action for the disk.
#[derive(Clone, Copy, PartialEq)]
pub(crate) enum Step {
    /// The first byte's place, the number of bytes, and the first byte.
    Write(usize, usize, u8),
    /// The gate at this place is opened.
    Open(usize),
    /// The gate at this place is closed.
    Close(usize),
    Sync,
    Idle,
    Stop,
}

/// Calls of the book for the disk, and what they must give.
#[derive(Clone, Copy)]
pub(crate) enum Disk {
    /// A batch is appended after the gate at this place: the number of bytes after the gate, and the generation.
    Append(u16, usize, u8),
    /// The half whose first gate is at this place is retired.
    Retire(u16),
    /// This action is handed out, and succeeds.
    Did(Step),
    /// This action is handed out, and its outcome isn't reported yet.
    Waits(Step),
    Done(Result<(), DeviceFault>),
}

fn step_of(next: &DiskNext) -> Step {
    match next {
        DiskNext::Write { at, bytes } => {
            let bytes = bytes.as_slice();
            Step::Write(*at, bytes.len(), *bytes.first().unwrap_or(&0xFF))
        }
        DiskNext::Gate { at, closed: true } => Step::Close(*at),
        DiskNext::Gate { at, closed: false } => Step::Open(*at),
        DiskNext::Sync => Step::Sync,
        DiskNext::Idle => Step::Idle,
        DiskNext::Stop => Step::Stop,
    }
}

fn is_next(core: &mut Core, wanted: Step) -> Option<bool> {
    let next = core.disk_next().ok()?;
    Some(step_of(&next) == wanted)
}

/// Whether these actions are handed out in turn; each of them succeeds.
fn are_done(core: &mut Core, wanted: &[Step]) -> Option<bool> {
    for step in wanted {
        if !is_next(core, *step)? {
            return Some(false);
        }
        core.disk_done(Ok(()));
    }
    Some(true)
}

fn is_appended(core: &mut Core, gate: usize, count: usize, first: u8) -> Option<bool> {
    let write = Step::Write(gate.saturating_add(1), count, first);
    are_done(core, &[write, Step::Sync, Step::Open(gate), Step::Sync])
}

fn is_retired(core: &mut Core, gate: usize) -> Option<bool> {
    are_done(core, &[Step::Close(gate), Step::Sync])
}

/// Whether the calls give what they must. None: memory was refused before any of them changed the book.
pub(crate) fn disk_comes(core: &mut Core, disk: &Disk) -> Option<bool> {
    match *disk {
        Disk::Append(gate, count, first) => is_appended(core, usize::from(gate), count, first),
        Disk::Retire(gate) => is_retired(core, usize::from(gate)),
        Disk::Did(step) => are_done(core, &[step]),
        Disk::Waits(step) => is_next(core, step),
        Disk::Done(outcome) => {
            core.disk_done(outcome);
            Some(true)
        }
    }
}
