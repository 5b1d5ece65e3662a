//! The open takes in the live batches of the journal.

ghost use Rattle.std.specs.Prelude.{◌≡◌, ◌++◌, [], length, map, OnOk};
ghost use Rattle.std.specs.List.{AllByRecursion};
ghost use Rattle.sii_words.specs.Redo.{redone};
ghost use Rattle.jrn_format.specs.Batch.{LieWithin, IsWithin};
ghost use Rattle.jrn_format.specs.Halves.{InOlder, live};
ghost use Rattle.jrn_format.specs.Live.{halves_in};
ghost use Rattle.book_model.specs.Entries.{runs_of, entries_of, live_runs, sizes_of};
ghost use Rattle.book_parts.specs.Line.{AreOfLine, NeverFall};
ghost use Rattle.book_parts.specs.Spot.{as_place};
ghost use Rattle.book_core.specs.Stands.{as_found, cell_counts};
ghost use Rattle.book_core.specs.OpenedState.{AreFound, Joined, TakenUp};

use book_parts::{LineWork, Spot};
use jrn_format::{Batch, Entry};
use sii_words::{History, ItemList, Plant, redo};
use std::alloc::{AllocError, Global};
use std::mem::replace;

/// Notes the entries, and redoes their runs in the contents.
fn note_entries(found: &mut History<Entry>, contents: &mut Plant, entries: &[Entry])
    requires { AllByRecursion (LieWithin (sizes_of contents.old)) entries.now }
    ensures found { found.new ≡ found.old ++ entries.now }
    ensures contents { contents.new ≡ redone contents.old (runs_of entries.now) }
{
    for entry in entries {
        found.note(entry);
        redo(contents, entry.runs.as_slice());
    }
}

/// Notes the entries of the batches, and redoes their runs in the contents.
pub(crate) fn note_batches(found: &mut History<Entry>, contents: &mut Plant, batches: &[Batch])
    requires { AllByRecursion (IsWithin (sizes_of contents.old)) batches.now }
    ensures found { found.new ≡ found.old ++ entries_of batches.now }
    ensures contents { contents.new ≡ redone contents.old (live_runs batches.now) }
{
    for batch in batches {
        note_entries(found, contents, batch.entries.as_slice());
    }
}

/// Gives entries found at the open the number 0.
fn renumber(entries: &mut [Entry])
    ensures { entries.new ≡ map as_found entries.old }
{
    for at in 0..entries.len() {
        entries[at].number = 0;
    }
}

/// Takes the entries out of a batch, each with the number 0.
fn take_entries(alloc: Global, batch: &mut Batch) -> Vec<Entry>
    ensures { result.items ≡ map as_found batch.old.entries }
{
    let none = ItemList::from_vec(Vec::new(alloc));
    let mut entries = replace(&mut batch.entries, none).into_vec();
    renumber(&mut entries);
    entries
}

/// The entries go live in one of the halves. Memory for their words is reserved first.
fn join(work: &mut LineWork, entries: &[Entry], spot: Spot) -> Result<(), AllocError>
    requires inside { AreOfLine work.old.slaves (runs_of entries.now) }
    requires alone { as_place spot ≡ InOlder → work.old.newer ≡ [] }
    requires order { NeverFall ((work.old.older ++ work.old.newer) ++ entries.now) }
    ensures { OnOk result (Joined spot entries.now work.old work.new) }
{
    work.reserve(entries)?;
    match spot {
        Spot::InOlder => work.join_older(entries),
        Spot::InNewer => work.join_newer(entries),
    }
    Ok(())
}

/// The batches go live in one of the halves, each entry with the number 0. They are left without entries.
fn join_half(
    alloc: Global,
    work: &mut LineWork,
    batches: &mut [Batch],
    spot: Spot,
) -> Result<(), AllocError>
    requires within { AllByRecursion (IsWithin (cell_counts work.old.slaves)) batches.old }
    requires alone { as_place spot ≡ InOlder → work.old.newer ≡ [] }
    requires found { AreFound work.old }
    ensures { OnOk result (Joined spot (map as_found (entries_of batches.old)) work.old work.new) }
{
    for at in 0..batches.len() {
        let entries = take_entries(alloc, &mut batches[at]);
        join(work, &entries, spot)?;
    }
    Ok(())
}

/// How many of the batches stand in the same half as the first.
fn older_count(batches: &[Batch]) -> usize
    ensures { result ≡ length (halves_in batches.now).older }
{
    if batches.is_empty() {
        return 0;
    }
    let half = batches[0].half;
    let mut count = 0usize;
    for batch in batches {
        if batch.half == half {
            count += 1;
        }
    }
    count
}

/// The batches go live, each in the half in which it stands.
pub(crate) fn take_up(
    alloc: Global,
    work: &mut LineWork,
    batches: Vec<Batch>,
) -> Result<(), AllocError>
    requires within { AllByRecursion (IsWithin (cell_counts work.old.slaves)) batches.items }
    requires halves { live (halves_in batches.items) ≡ batches.items }
    requires older { work.old.older ≡ [] }
    requires newer { work.old.newer ≡ [] }
    ensures { OnOk result (TakenUp batches.items work.old work.new) }
{
    let mut older = batches;
    let count = older_count(&older);
    let mut newer = older.split_off(count)?;
    join_half(alloc, work, &mut older, Spot::InOlder)?;
    join_half(alloc, work, &mut newer, Spot::InNewer)
}
