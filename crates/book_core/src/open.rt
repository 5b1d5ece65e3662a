ghost use Rattle.std.specs.Prelude.{◌≡◌, ◌≤◌, vec_len, IfOk};
ghost use Rattle.std.specs.List.{AllByRecursion};
ghost use Rattle.sii_words.specs.Redo.{redone};
ghost use Rattle.jrn_format.specs.Batch.{IsWithin};
ghost use Rattle.jrn_format.specs.Halves.{live};
ghost use Rattle.jrn_format.specs.Live.{halves_in};
ghost use Rattle.book_model.specs.Entries.{entries_of, live_runs, sizes_of};
ghost use Rattle.book_parts.specs.Ledger.{opened};
ghost use Rattle.book_core.specs.OpenedState.{IsTaken};

use crate::book::Core;
use crate::step::Step;
use crate::taking::{note_batches, take_up};
use book_model::CoreFault;
use book_parts::{Area, Ledger, LineWork, Shown};
use jrn_format::{Batch, Entry, Journal};
use sii_words::{History, Plant, Words};
use std::alloc::{AllocError, Global};
use std::snapshot::Snapshot;

/// What the open makes of a line's words and its journal.
#[derive(Drop)]
struct Restored {
    /// The entries of the live batches.
    found: History<Entry>,
    /// The words after redo of the live batches.
    contents: Plant,
    /// What remains to be written to each slave.
    work: LineWork,
}

/// Redoes the live batches over the words as they were read.
fn restore(alloc: Global, words: Plant, batches: Vec<Batch>) -> Result<Restored, AllocError>
    requires within { AllByRecursion (IsWithin (sizes_of words)) batches.items }
    requires halves { live (halves_in batches.items) ≡ batches.items }
    ensures found { IfOk result (λ all. all.found ≡ entries_of batches.items) }
    ensures contents { IfOk result (λ all. all.contents ≡ redone words (live_runs batches.items)) }
    ensures work { IfOk result (λ all. IsTaken words batches.items all.work) }
{
    let mut contents = words;
    let mut work = LineWork::open(alloc, &contents)?;
    let mut found = History::new();
    note_batches(&mut found, &mut contents, batches.as_slice());
    take_up(alloc, &mut work, batches)?;
    Ok(Restored {
        found,
        contents,
        work,
    })
}

/// A ledger over these contents, and the copy of them from which plans are made.
fn shown_and_ledger(alloc: Global, contents: Plant) -> Result<(Shown, Ledger), AllocError>
    ensures shown { IfOk result (λ both. both.0 ≡ record { contents = contents; count = 0 }) }
    ensures ledger { IfOk result (λ both. both.1 ≡ opened contents) }
{
    let shown = Shown::open(alloc, contents.try_copy()?)?;
    let ledger = Ledger::open(alloc, contents)?;
    Ok((shown, ledger))
}

/// What a book is opened with.
#[derive(Drop)]
struct OpenedState {
    /// The entries of the live batches.
    entries: History<Entry>,
    /// What remains to be written to each slave.
    work: LineWork,
    shown: Shown,
    ledger: Ledger,
}

/// Redoes the live batches over the words as they were read, and starts with the contents after them.
fn found_in(alloc: Global, words: Plant, batches: Vec<Batch>) -> Result<OpenedState, AllocError>
    requires within { AllByRecursion (IsWithin (sizes_of words)) batches.items }
    requires halves { live (halves_in batches.items) ≡ batches.items }
    ensures entries { IfOk result (λ found. found.entries ≡ entries_of batches.items) }
    ensures work { IfOk result (λ found. IsTaken words batches.items found.work) }
    ensures shown { IfOk result (λ found. found.shown ≡ record { contents = redone words (live_runs batches.items); count = 0 }) }
    ensures ledger { IfOk result (λ found. found.ledger ≡ opened (redone words (live_runs batches.items))) }
{
    let Restored {
        found,
        contents,
        work,
    } = restore(alloc, words, batches)?;
    let Ok((shown, ledger)) = shown_and_ledger(alloc, contents) else {
        drop(work);
        return Err(AllocError);
    };
    Ok(OpenedState {
        entries: found,
        work,
        shown,
        ledger,
    })
}

impl Core {
    ghost use Rattle.jrn_format.specs.Live.{CanBeLive};
    ghost use Rattle.book_model.specs.Open.{open_book};

    /// Opens a book on a journal, over the words that were read from 1 to 64 slaves. Its contents are these words after redo of the
    /// live batches.
    ///
    /// The journal must be one that `scan` gives for slaves with these numbers of words, and `capacity` the length of its area in bytes.
    ///
    /// # Errors
    ///
    /// `Memory`: memory was refused. The words and the journal are dropped.
    pub fn open(
        alloc: Global,
        slaves: Vec<Words>,
        capacity: u32,
        journal: Journal,
    ) -> Result<Core, CoreFault>
        requires some { 1 ≤ vec_len slaves }
        requires most { vec_len slaves ≤ 64 }
        requires live { CanBeLive journal.form capacity (sizes_of slaves.items) journal.batches }
        ensures { IfOk result (λ core. core ≡ open_book slaves.items capacity journal) }
    {
        let Journal { form, batches } = journal;
        let area = Area::open(form, capacity, batches.as_slice());
        let plant = Plant::of(slaves);
        let words = Snapshot::of(&plant);
        let OpenedState {
            entries,
            work,
            shown,
            ledger,
        } = found_in(alloc, plant, batches.into_vec())?;
        Ok(Core {
            alloc,
            words,
            found: entries,
            area,
            step: Step::Resting,
            is_handed_out: false,
            ledger,
            work,
            shown,
            is_finished: false,
            is_migrating: false,
            fault: None,
        })
    }
}
