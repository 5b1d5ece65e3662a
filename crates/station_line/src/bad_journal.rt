//! Validates the bytes of a journal's file before a file is opened for writing, and notes why they are refused.
ghost use Rattle.std.specs.Prelude.{◌≡◌, map, length, IfOk, MatchOption};
ghost use Rattle.jrn_format.specs.Fault.{IsFaultOf};
ghost use Rattle.station_line.specs.Validating.{HasJournal};

use crate::faults::of_journal;
use crate::site::sizes_of;
use jrn_format::{JournalFault, scan};
use sii_words::Words;
use station_files::{Place, Store};
use std::alloc::{AllocError, Global};
use thiserror::Error;

/// Why a journal is refused, as part of a sentence.
#[derive(Clone, Copy, Debug, Error)]
enum BadJournal {
    #[error("out of memory")]
    Memory,
    /// It has this many bytes.
    #[error("the file is not a journal: it has {0} bytes, and a journal has 8 or more and begins with 0xA5")]
    NotAJournal(usize),
    #[error("the journal is of the unknown version {0}, and 1 and 2 are known")]
    BadVersion(u8),
    /// At this byte, of so many.
    #[error("the journal is malformed at byte {0} of {1}")]
    Malformed(usize, usize),
    #[error("the journal names a slave or a word that this line doesn't have")]
    OtherSlaves,
    /// It is of so many slaves, and the line has so many.
    #[error("the journal is of {0} slaves, and the line has {1}")]
    OtherCount(usize, usize),
}

/// Notes why these bytes of the file of this name are refused as the journal of a line of so many slaves.
pub fn note_journal<S: Store>(
    fault: JournalFault,
    name: &str,
    journal: &[u8],
    slaves: usize,
    store: &mut S,
)
    ensures { S.files store.new ≡ S.files store.old }
{
    let bad = match fault {
        JournalFault::Memory => BadJournal::Memory,
        JournalFault::NotAJournal => BadJournal::NotAJournal(journal.len()),
        JournalFault::BadVersion { found } => BadJournal::BadVersion(found),
        JournalFault::BadJournal { at } => BadJournal::Malformed(at, journal.len()),
        JournalFault::WrongLine => match slaves_in(journal) {
            count if count == slaves => BadJournal::OtherSlaves,
            count => BadJournal::OtherCount(count, slaves),
        },
    };
    store.note(of_journal(fault).code(), Place::File(name), &bad);
}

/// The number of slaves in a journal's header, bytes 2 and 3.
fn slaves_in(journal: &[u8]) -> usize {
    match journal {
        [_, _, low, high, ..] => usize::from(u16::from_le_bytes([*low, *high])),
        _ => 0,
    }
}

/// Why these bytes of the file of this name are refused as the journal of a line of slaves with these words, or that memory was refused as they
/// were validated; `None` where they are its journal.
pub(crate) fn refusal_of<S: Store>(
    alloc: Global,
    name: &str,
    journal: &[u8],
    slaves: &[Words],
    store: &mut S,
) -> Result<Option<JournalFault>, AllocError>
    ensures validated { IfOk result (λ refusal. MatchOption refusal (HasJournal (map length slaves.now) journal.now)
        (IsFaultOf journal.now (map length slaves.now))) }
    ensures same { S.files store.new ≡ S.files store.old }
{
    let sizes = sizes_of(alloc, slaves)?;
    match scan(alloc, journal, &sizes) {
        Ok(_journal) => Ok(None),
        Err(fault) => {
            note_journal(fault, name, journal, slaves.len(), store);
            Ok(Some(fault))
        }
    }
}
