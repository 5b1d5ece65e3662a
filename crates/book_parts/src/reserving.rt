ghost use Rattle.std.specs.Prelude.{◌≡◌, ◌<◌, ℕ, length, slice_index, vec_len, IfOk, OnOk};
ghost use Rattle.book_model.specs.Entries.{namings, runs_of};
ghost use Rattle.book_parts.specs.Works.{AreOfSlaves, Counted, OnlyRooms, HasCounted};

use crate::work::SlaveWork;
use jrn_format::Entry;
use std::alloc::{AllocError, Global};

/// Adds the number of words that an entry names to the count of each slave. A sum above `usize` counts as refused memory.
fn count_entry(counts: &mut [usize], entry: &Entry) -> Result<(), AllocError>
    requires { AreOfSlaves (length counts.old) entry.now.runs }
    ensures { OnOk result (Counted counts.old counts.new entry.now.runs) }
{
    for run in entry.runs.as_slice() {
        let slave = run.slave as usize;
        match counts[slave].checked_add(run.words.as_slice().len()) {
            Some(count) => counts[slave] = count,
            None => return Err(AllocError),
        }
    }
    Ok(())
}

/// Adds the numbers of words that the entries name to the counts.
fn count_entries(counts: &mut [usize], entries: &[Entry]) -> Result<(), AllocError>
    requires { AreOfSlaves (length counts.old) (runs_of entries.now) }
    ensures { OnOk result (Counted counts.old counts.new (runs_of entries.now)) }
{
    for entry in entries {
        count_entry(counts, entry)?;
    }
    Ok(())
}

/// How many words the entries name of each slave.
pub(crate) fn words_named(
    alloc: Global,
    slaves: usize,
    entries: &[Entry],
) -> Result<Vec<usize>, AllocError>
    requires { AreOfSlaves slaves (runs_of entries.now) }
    ensures slaves { IfOk result (λ counts. vec_len counts ≡ slaves) }
    ensures words { IfOk result (λ counts. (i : ℕ) → i < slaves → slice_index counts.items i ≡ length (namings (runs_of entries.now) i)) }
{
    let mut counts = vec![in alloc; 0usize; slaves]?;
    count_entries(&mut counts, entries)?;
    Ok(counts)
}

/// Reserves memory for more words, as many for each slave as its count says.
pub(crate) fn reserve_all(works: &mut [SlaveWork], counts: &[usize]) -> Result<(), AllocError>
    requires { length counts.now ≡ length works.old }
    ensures kept { OnlyRooms works.old works.new }
    ensures room { OnOk result (HasCounted works.new counts.now (length works.old)) }
{
    for at in 0..works.len() {
        works[at].queue.reserve(counts[at])?;
    }
    Ok(())
}
