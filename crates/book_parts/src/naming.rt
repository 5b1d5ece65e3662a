ghost use Rattle.std.specs.Prelude.{◌≡◌, ◌<◌, ◌≤◌, ◌+◌, ℕ, length};
ghost use Rattle.book_model.specs.Entries.{named_from, namings, runs_of};
ghost use Rattle.book_parts.specs.Works.{words_named, entries_named, with_queue, work_at, RunsLie, HasRooms};

use crate::work::SlaveWork;
use book_model::SlaveQueue;
use jrn_format::Entry;
use sii_words::Run;

/// The words of a run go live, as part of the entry of this number.
fn name_run(queue: &mut SlaveQueue, run: &Run, number: u64)
    requires inside { run.now.first + length run.now.words ≤ length queue.old.cells }
    requires few { length queue.old.cells ≤ 4096 }
    requires room { length run.now.words ≤ queue.old.room }
    ensures { queue.new ≡ words_named queue.old (named_from run.now.first run.now.words) number }
{
    for (place, value) in run.words.as_slice().iter().enumerate() {
        queue.name(run.first + place as u16, *value, number);
    }
}

/// The runs of an entry go live.
fn name_entry(works: &mut [SlaveWork], entry: &Entry)
    requires inside { RunsLie works.old entry.now.runs }
    requires room { HasRooms works.old entry.now.runs }
    ensures { (i : ℕ) → i < length works.old
        → work_at works.new i
        ≡ with_queue (work_at works.old i) (words_named (work_at works.old i).queue (namings entry.now.runs i) entry.now.number) }
{
    for run in entry.runs.as_slice() {
        name_run(&mut works[run.slave as usize].queue, run, entry.number);
    }
}

/// The runs of the entries go live, in their order.
pub(crate) fn name_entries(works: &mut [SlaveWork], entries: &[Entry])
    requires inside { RunsLie works.old (runs_of entries.now) }
    requires room { HasRooms works.old (runs_of entries.now) }
    ensures { (i : ℕ) → i < length works.old
        → work_at works.new i ≡ with_queue (work_at works.old i) (entries_named (work_at works.old i).queue entries.now i) }
{
    for entry in entries {
        name_entry(works, entry);
    }
}
