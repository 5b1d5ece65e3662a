//! The faults of reading a journal.

ghost use Rattle.std.specs.Prelude.{◌≡◌};

use std::alloc::{AllocError, AllocFailed};
use thiserror::Error;

/// Why a journal can't be read.
#[derive(Clone, Copy, Debug, PartialEq, Eq, Error)]
pub enum JournalFault {
    /// Memory was refused.
    #[error("out of memory")]
    Memory,
    /// The file is shorter than its header of 8 bytes, or its file gate (byte 0) isn't 0xA5.
    #[error("the file is not a journal")]
    NotAJournal,
    /// The version byte (byte 1), `found`, is neither 1 nor 2, and the file isn't an interrupted migration.
    #[error("the journal is of the unknown version {found}")]
    BadVersion { found: u8 },
    /// The journal belongs to another line: its header has another number of slaves, or a batch names a slave or a word that
    /// this line doesn't have.
    #[error("the journal is of another line")]
    WrongLine,
    /// The journal is malformed at file offset `at`, in bytes.
    #[error("the journal is malformed at byte {at}")]
    BadJournal { at: usize },
}

/// Why a batch can't be read.
#[derive(Clone, Copy)]
pub(crate) enum ReadFault {
    /// Memory was refused.
    Memory,
    /// The bytes aren't the encoding of a batch.
    Malformed,
}

impl ReadFault {
    ghost use Rattle.jrn_format.specs.steps.Reading.{fault_at};

    /// The fault of a journal whose batch at file offset `at` can't be read.
    pub(crate) fn at(self, at: usize) -> JournalFault
        ensures { result ≡ fault_at self at }
    {
        match self {
            ReadFault::Memory => JournalFault::Memory,
            ReadFault::Malformed => JournalFault::BadJournal { at },
        }
    }
}

impl From<AllocError> for JournalFault {
    ghost use Rattle.jrn_format.specs.declared.fault.JournalFault.TheVariants.{Memory};

    ghost from_gives = { λ _ fault. fault ≡ Memory };

    fn from(_: AllocError) -> Self {
        JournalFault::Memory
    }
}

impl<T: Drop> From<AllocFailed<T>> for JournalFault {
    ghost use Rattle.jrn_format.specs.declared.fault.JournalFault.TheVariants.{Memory};

    ghost from_gives = { λ _ fault. fault ≡ Memory };

    fn from(_: AllocFailed<T>) -> Self {
        JournalFault::Memory
    }
}

impl From<AllocError> for ReadFault {
    ghost use Rattle.jrn_format.specs.declared.fault.ReadFault.TheVariants.{Memory};

    ghost from_gives = { λ _ fault. fault ≡ Memory };

    fn from(_: AllocError) -> Self {
        ReadFault::Memory
    }
}

impl<T: Drop> From<AllocFailed<T>> for ReadFault {
    ghost use Rattle.jrn_format.specs.declared.fault.ReadFault.TheVariants.{Memory};

    ghost from_gives = { λ _ fault. fault ≡ Memory };

    fn from(_: AllocFailed<T>) -> Self {
        ReadFault::Memory
    }
}
