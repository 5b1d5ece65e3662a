//! Reads a whole journal.

ghost use Rattle.std.specs.Prelude.{◌≡◌, ◌≤◌, length, IfOk, IfErr};
ghost use Rattle.std.specs.Int.{w16, w32};
ghost use Rattle.jrn_format.specs.Fault.{IsFaultOf};
ghost use Rattle.jrn_format.specs.Header.{field_at};
ghost use Rattle.jrn_format.specs.Journal.{IsJournal};
ghost use Rattle.jrn_format.specs.steps.Reading.{Answers, area_after, area_of, form_of, is_capacity, is_marked, journal_of, live_in};

use crate::area::batches;
use crate::fault::JournalFault;
use crate::fields::{AREA_START, OPEN, capacity, gate, slave_count, version};
use crate::halves::halves;
use crate::journal::{Batch, BatchList, Form, Journal, Spelling};
use std::alloc::Global;

/// The minimum length of an area, in bytes.
const LEAST: usize = 4096;

/// The maximum length of an area, in bytes.
const MOST: usize = 4_194_304;

/// Whether the bytes after the header are a closed gate and the mark of a migration.
fn is_marked(after: &[u8]) -> bool
    ensures { result ≡ is_marked after.now }
{
    match after {
        [gate, 0x4d, 0x49, 0x47, 0x32, ..] => *gate != OPEN,
        _ => false,
    }
}

#[tactic(auto, unfolding(crate::specs::steps::Reading::form_of))]
fn form_of(version: u8, after: &[u8]) -> Result<Form, JournalFault>
    ensures { Answers (λ form. form) result (form_of version after.now) }
{
    match version {
        1 => Ok(Form::One),
        2 => Ok(Form::Two),
        _ if is_marked(after) => Ok(Form::Moving),
        found => Err(JournalFault::BadVersion { found }),
    }
}

/// Whether an area may have `capacity` bytes.
fn is_capacity(capacity: usize) -> bool
    ensures { result ≡ is_capacity capacity }
{
    LEAST <= capacity && capacity <= MOST
}

/// The area within `after`, the bytes after the header of `file`.
#[tactic(auto, unfolding(crate::specs::steps::Reading::area_after))]
fn area_after<'a>(
    file: &[u8],
    slaves: usize,
    after: &'a [u8],
    form: Form,
) -> Result<(Form, &'a [u8]), JournalFault>
    requires { 8 ≤ length file.now }
    ensures { Answers (λ x. (x.0, x.1.now)) result
        (area_after (length file.now) slaves (field_at w16 2 file.now) (field_at w32 4 file.now) after.now form) }
{
    if usize::from(slave_count(file)) != slaves {
        return Err(JournalFault::WrongLine);
    }
    let capacity = capacity(file) as usize;
    if !is_capacity(capacity) {
        return Err(JournalFault::BadJournal { at: 4 });
    }
    if after.len() < capacity {
        return Err(JournalFault::BadJournal { at: file.len() });
    }
    let (area, _) = after.split_at(capacity);
    Ok((form, area))
}

/// The form and the area of a journal, for a line of `slaves` slaves.
#[tactic(auto, unfolding(crate::specs::steps::Reading::area_of))]
fn area_of(file: &[u8], slaves: usize) -> Result<(Form, &[u8]), JournalFault>
    ensures { Answers (λ x. (x.0, x.1.now)) result (area_of file.now slaves) }
{
    if file.len() < AREA_START || gate(file) != OPEN {
        return Err(JournalFault::NotAJournal);
    }
    let (_, after) = file.split_at(AREA_START);
    let form = form_of(version(file), after)?;
    area_after(file, slaves, after, form)
}

#[tactic(auto, unfolding(crate::specs::steps::Reading::live_in))]
fn live_in(
    alloc: Global,
    form: Form,
    sizes: &[u16],
    area: &[u8],
) -> Result<Vec<Batch>, JournalFault>
    requires { length area.now ≤ MOST }
    ensures { Answers (λ v. v.items) result (live_in form sizes.now area.now) }
{
    match form {
        Form::One => batches(
            alloc,
            Spelling::Plain,
            0,
            sizes,
            AREA_START + area.len(),
            area,
        ),
        Form::Two => halves(alloc, sizes, area),
        Form::Moving => Ok(Vec::new(alloc)),
    }
}

#[tactic(auto, unfolding(crate::specs::steps::Reading::journal_of))]
fn journal(alloc: Global, file: &[u8], sizes: &[u16]) -> Result<Journal, JournalFault>
    ensures { Answers (λ journal. journal) result (journal_of file.now sizes.now) }
{
    let (form, area) = area_of(file, sizes.len())?;
    let batches = live_in(alloc, form, sizes, area)?;
    Ok(Journal {
        form,
        batches: BatchList::from_vec(batches),
    })
}

/// Reads the live batches of a journal file, for a line whose slaves have `sizes` words each.
///
/// Bytes after the area are ignored.
///
/// # Errors
///
/// The first fault that applies, in this order:
///
/// - `NotAJournal`: fewer than 8 bytes, or a closed file gate.
/// - `BadVersion`: neither version 1 nor 2, and not an interrupted migration.
/// - `WrongLine`: another number of slaves.
/// - `BadJournal { at: 4 }`: a capacity outside 4,096 to 4,194,304.
/// - `BadJournal` at the file's length: the file ends before the area does.
/// - From the start of the area, or half by half: `BadJournal` at an open gate that no well-formed batch with another gate
///   follows; `WrongLine` at a batch that names a slave or a word that the line doesn't have.
/// - `BadJournal { at: 8 }`: generations mixed within a half, or not consecutive.
///
/// `Memory` comes instead if memory was refused.
pub fn scan(alloc: Global, file: &[u8], sizes: &[u16]) -> Result<Journal, JournalFault>
    ensures found { IfOk result (IsJournal file.now sizes.now) }
    ensures refused { IfErr result (IsFaultOf file.now sizes.now) }
{
    journal(alloc, file, sizes)
}
