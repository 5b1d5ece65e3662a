//! Validates the bytes of a journal's file.
ghost use Rattle.std.specs.Prelude.{◌≡◌, length, map, IfErr, IfOk, OnOk};
ghost use Rattle.jrn_format.specs.Journal.{IsJournal};
ghost use Rattle.wire_scan.specs.Backup.{IsWithoutPast};
ghost use Rattle.wire_scan.specs.Opening.{RefusesBytes};

use jrn_format::{Journal, JournalFault, scan};
use sii_words::Words;
use station_files::{Fault, Store};
use station_line::{note_journal, of_journal};
use std::alloc::{AllocError, Global};

/// Reads these bytes of the file of this name as the journal of a line of slaves with these words.
pub(crate) fn validate_journal<S: Store>(
    alloc: Global,
    name: &str,
    journal: &[u8],
    slaves: &[Words],
    store: &mut S,
) -> Result<Journal, Fault>
    ensures read { IfOk result (IsJournal journal.now (map length slaves.now)) }
    ensures refused { IfErr result (RefusesBytes journal.now (map length slaves.now)) }
    ensures same { S.files store.new ≡ S.files store.old }
{
    let sizes = sizes_of(alloc, slaves)?;
    match scan(alloc, journal, &sizes) {
        Ok(found) => Ok(found),
        Err(fault) => {
            note_journal(fault, name, journal, slaves.len(), store);
            Err(of_journal(fault))
        }
    }
}

/// Looks whether these bytes are a journal of a line of slaves with these words in which nothing is live.
///
/// # Errors
///
/// `Exists` where they are no journal, that of a line with another number of slaves, or one with live batches; `Memory`.
pub fn require_empty(alloc: Global, journal: &[u8], slaves: &[Words]) -> Result<(), Fault>
    ensures { OnOk result (IsWithoutPast journal.now (map length slaves.now)) }
{
    let sizes = sizes_of(alloc, slaves)?;
    match scan(alloc, journal, &sizes) {
        Ok(found) if found.batches.as_slice().is_empty() => Ok(()),
        Err(JournalFault::Memory) => Err(Fault::Memory),
        Ok(_) | Err(_) => Err(Fault::Exists),
    }
}

/// The number of words of each slave.
pub(crate) fn sizes_of(alloc: Global, slaves: &[Words]) -> Result<Vec<u16>, AllocError>
    ensures { IfOk result (λ sizes. sizes.items ≡ map length slaves.now) }
{
    slaves.iter().map(|words| words.len() as u16).collect(alloc)
}
