//! Reads the live batches of an area: a whole area in version 1, one half in version 2.

ghost use Rattle.std.specs.Prelude.{◌≡◌, ◌^◌, ◌<◌, ◌≤◌, length};
ghost use Rattle.std.specs.List.{list_all};
ghost use Rattle.jrn_format.specs.steps.Reading.{Answers, Finds, batch_is_within, batches_of, entry_is_within, front_of, run_is_within};

use crate::fault::JournalFault;
use crate::fields::OPEN;
use crate::journal::{Batch, Entry, Spelling};
use crate::reading::batch_of;
use sii_words::Run;
use std::alloc::Global;

/// Whether the line has the run's slave, and that slave has all words of the run. `sizes` are words per slave.
fn run_is_within(sizes: &[u16], run: &Run) -> bool
    ensures { result ≡ run_is_within sizes.now run.now }
{
    let slave = usize::from(run.slave);
    let first = usize::from(run.first);
    slave < sizes.len()
        && first <= usize::from(sizes[slave])
        && run.words.as_slice().len() <= usize::from(sizes[slave]) - first
}

fn entry_is_within(sizes: &[u16], entry: &Entry) -> bool
    ensures { result ≡ entry_is_within sizes.now entry.now }
{
    entry
        .runs
        .as_slice()
        .iter()
        .all(|run| run_is_within(sizes, run))
}

/// Whether each run of the batch is within the line.
fn batch_is_within(sizes: &[u16], batch: &Batch) -> bool
    ensures { result ≡ batch_is_within sizes.now batch.now }
{
    batch
        .entries
        .as_slice()
        .iter()
        .all(|entry| entry_is_within(sizes, entry))
}

/// Reads the first batch of `bytes`, and returns it with the bytes from the next gate on; or `None` at a closed gate.
///
/// `end` is the file offset just past `bytes`.
#[tactic(auto, unfolding(crate::specs::steps::Reading::front_of))]
fn front<'a>(
    alloc: Global,
    spelling: Spelling,
    half: u8,
    sizes: &[u16],
    end: usize,
    bytes: &'a [u8],
) -> Result<Option<(Batch, &'a [u8])>, JournalFault>
    requires { length bytes.now ≤ end }
    ensures { Finds (λ x. (x.0, x.1.now)) result (front_of spelling half sizes.now end bytes.now) }
{
    let [OPEN, after @ ..] = bytes else {
        return Ok(None);
    };
    let (batch, rest) = match batch_of(alloc, spelling, half, after) {
        Ok(found) => found,
        Err(fault) => return Err(fault.at(end - bytes.len())),
    };
    if !batch_is_within(sizes, &batch) {
        return Err(JournalFault::WrongLine);
    }
    Ok(Some((batch, rest)))
}

/// Reads the live batches of an area, in order. `end` is the file offset just past the area.
///
/// # Errors
///
/// The first fault from left to right: `BadJournal` at an open gate that no well-formed batch with another gate follows, or
/// `WrongLine` at a batch that names a slave or a word that the line doesn't have. `Memory` instead if memory was refused.
pub(crate) fn batches(
    alloc: Global,
    spelling: Spelling,
    half: u8,
    sizes: &[u16],
    end: usize,
    area: &[u8],
) -> Result<Vec<Batch>, JournalFault>
    requires { length area.now ≤ end }
    ensures { Answers (λ v. v.items) result (batches_of spelling half sizes.now end area.now) }
{
    let mut batches = Vec::new(alloc);
    let mut rest = area;
    while let Some((batch, after)) = front(alloc, spelling, half, sizes, end, rest)? {
        batches.push(batch)?;
        rest = after;
    }
    Ok(batches)
}
