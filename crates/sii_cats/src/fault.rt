//! Why categories can't be read or written.

ghost use Rattle.std.specs.Prelude.{◌≡◌};

use std::alloc::{AllocError, AllocFailed};
use thiserror::Error;

/// Why the chain of categories can't be read.
#[derive(Clone, Copy, Debug, Error)]
pub enum ChainFault {
    /// Memory was refused.
    #[error("out of memory")]
    Memory,
    /// The category with its header at word `at` is cut off: its header or its content passes the end of the words.
    #[error("the category at word {at} is not whole")]
    RunsOut { at: usize },
}

/// Why a category can't be read, written or replaced.
#[derive(Clone, Copy, Debug, Error)]
pub enum CatFault {
    /// Memory was refused.
    #[error("out of memory")]
    Memory,
    /// The category with its header at word `at` is cut off: its header or its content passes the end of the words.
    #[error("the category at word {at} is not whole")]
    RunsOut { at: usize },
    /// The content of a category of type `kind` can't be read or written.
    #[error("the content of a category of type {kind} is malformed")]
    BadCategory { kind: u16 },
    /// The chain would pass the end of the device.
    #[error("the categories do not fit into the device")]
    NoRoom,
}

impl From<AllocError> for ChainFault {
    ghost use Rattle.sii_cats.specs.declared.fault.ChainFault.TheVariants.{Memory};

    ghost from_gives = { λ _ fault. fault ≡ Memory };

    fn from(_: AllocError) -> Self {
        ChainFault::Memory
    }
}

impl<T: Drop> From<AllocFailed<T>> for ChainFault {
    ghost use Rattle.sii_cats.specs.declared.fault.ChainFault.TheVariants.{Memory};

    ghost from_gives = { λ _ fault. fault ≡ Memory };

    fn from(_: AllocFailed<T>) -> Self {
        ChainFault::Memory
    }
}

impl From<AllocError> for CatFault {
    ghost use Rattle.sii_cats.specs.declared.fault.CatFault.TheVariants.{Memory};

    ghost from_gives = { λ _ fault. fault ≡ Memory };

    fn from(_: AllocError) -> Self {
        CatFault::Memory
    }
}

impl<T: Drop> From<AllocFailed<T>> for CatFault {
    ghost use Rattle.sii_cats.specs.declared.fault.CatFault.TheVariants.{Memory};

    ghost from_gives = { λ _ fault. fault ≡ Memory };

    fn from(_: AllocFailed<T>) -> Self {
        CatFault::Memory
    }
}
