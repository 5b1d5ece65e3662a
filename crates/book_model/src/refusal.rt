ghost use Rattle.std.specs.Prelude.{◌≡◌};
ghost use Rattle.book_model.specs.declared.refusal.SubmitRefusal.TheVariants as refusals;
ghost use Rattle.book_model.specs.Memory.{OutOfMemory};

use sii_edit::{Cause, Refusal};
use std::alloc::{AllocError, AllocFailed};
use thiserror::Error;

/// The maximum number of queued commands: accepted, and not yet part of a batch.
pub const QUEUE: usize = 1024;

/// Why a command is refused. A refusal leaves the book unchanged.
#[derive(Clone, Copy, Debug, PartialEq, Eq, Error)]
pub enum SubmitRefusal {
    /// The book was finished, or has a fault.
    #[error("the book is closed")]
    Closed,
    /// The journal isn't of version 2, and has to be migrated first.
    #[error("the journal is of an old version")]
    OldJournal,
    /// The command is refused on the contents after all accepted commands, or memory was refused.
    #[error("{0}")]
    Command(Refusal),
    /// The command has more than 65,535 runs, or doesn't fit into an empty half of the journal.
    #[error("the command is too large")]
    TooLarge,
    /// The queue holds `QUEUE` commands, 2^64 - 1 commands were accepted, or no half of the journal has room for the queue and
    /// this command.
    #[error("the queue is full")]
    Full,
}

/// Memory was refused.
const OUT_OF_MEMORY: SubmitRefusal = SubmitRefusal::Command(Refusal {
    cause: Cause::Memory,
    position: None,
});

impl From<Refusal> for SubmitRefusal {
    ghost from_gives = { λ refusal answer. answer ≡ refusals.Command refusal };

    fn from(refusal: Refusal) -> Self {
        SubmitRefusal::Command(refusal)
    }
}

impl From<AllocError> for SubmitRefusal {
    ghost from_gives = { λ _ refusal. OutOfMemory refusal };

    fn from(_: AllocError) -> Self {
        OUT_OF_MEMORY
    }
}

impl<T: Drop> From<AllocFailed<T>> for SubmitRefusal {
    ghost from_gives = { λ _ refusal. OutOfMemory refusal };

    fn from(_: AllocFailed<T>) -> Self {
        OUT_OF_MEMORY
    }
}
