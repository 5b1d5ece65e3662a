ghost use Rattle.std.specs.Prelude.{◌≡◌};
ghost use Rattle.book_model.specs.declared.fault.CoreFault.TheVariants as faults;

use std::alloc::{AllocError, AllocFailed};
use thiserror::Error;

/// The fault that closed a book until the next open. A book keeps its first fault.
#[derive(Clone, Copy, PartialEq, Eq)]
pub enum Fault {
    /// A write or a sync of the disk failed.
    Disk,
    /// The site stopped, as by a power cut.
    Stopped,
    /// The slave with the number `slave` didn't write a word in three issues, or didn't become idle.
    SlaveDead { slave: u16 },
}

/// The fault of the book's calls that allocate memory and can't fail otherwise.
#[derive(Clone, Copy, Debug, PartialEq, Eq, Error)]
pub enum CoreFault {
    /// Memory was refused.
    #[error("out of memory")]
    Memory,
}

impl From<AllocError> for CoreFault {
    ghost from_gives = { λ _ fault. fault ≡ faults.Memory };

    fn from(_: AllocError) -> Self {
        CoreFault::Memory
    }
}

impl<T: Drop> From<AllocFailed<T>> for CoreFault {
    ghost from_gives = { λ _ fault. fault ≡ faults.Memory };

    fn from(_: AllocFailed<T>) -> Self {
        CoreFault::Memory
    }
}
