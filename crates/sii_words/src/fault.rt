ghost use Rattle.std.specs.Prelude.{◌≡◌};
ghost use Rattle.sii_words.specs.declared.fault.WordsFault.TheVariants.{Memory};

use std::alloc::{AllocError, AllocFailed};
use thiserror::Error;

/// Why bytes can't be read as the words of an EEPROM.
#[derive(Clone, Copy, Debug, Error)]
pub enum WordsFault {
    /// Memory was refused.
    #[error("out of memory")]
    Memory,
    /// The number of bytes is odd.
    #[error("the bytes are not a whole number of words")]
    OddLength,
    /// The number of words is outside its limits: 64 to 4,096, and for a device a multiple of 64.
    #[error("the number of words is outside its limits")]
    BadSize,
}

impl From<AllocError> for WordsFault {
    ghost from_gives = { λ _ fault. fault ≡ Memory };

    fn from(_: AllocError) -> Self {
        WordsFault::Memory
    }
}

impl<T: Drop> From<AllocFailed<T>> for WordsFault {
    ghost from_gives = { λ _ fault. fault ≡ Memory };

    fn from(_: AllocFailed<T>) -> Self {
        WordsFault::Memory
    }
}
