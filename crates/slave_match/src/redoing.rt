//! What a recovery leaves of a line's words.
ghost use Rattle.std.specs.Prelude.{◌≡◌};
ghost use Rattle.std.specs.List.{AllByRecursion};
ghost use Rattle.sii_words.specs.Redo.{redone};
ghost use Rattle.jrn_format.specs.Batch.{LieWithin, IsWithin};
ghost use Rattle.book_model.specs.Entries.{runs_of, live_runs, sizes_of};

use jrn_format::{Batch, Entry};
use sii_words::{Plant, redo};

/// Redoes what the batches of a journal name in the contents of its line.
pub fn redo_batches(contents: &mut Plant, batches: &[Batch])
    requires { AllByRecursion (IsWithin (sizes_of contents.old)) batches.now }
    ensures { contents.new ≡ redone contents.old (live_runs batches.now) }
{
    for batch in batches {
        redo_entries(contents, batch.entries.as_slice());
    }
}

/// Redoes what these entries name.
fn redo_entries(contents: &mut Plant, entries: &[Entry])
    requires { AllByRecursion (LieWithin (sizes_of contents.old)) entries.now }
    ensures { contents.new ≡ redone contents.old (runs_of entries.now) }
{
    for entry in entries {
        redo(contents, entry.runs.as_slice());
    }
}
