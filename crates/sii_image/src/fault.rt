//! Why there is no process image.

ghost use Rattle.std.specs.Prelude.{◌≡◌};

use std::alloc::{AllocError, AllocFailed};
use thiserror::Error;

/// Why there is no process image.
#[derive(Clone, Copy, Debug, Error)]
pub enum ImageFault {
    /// Memory was refused.
    #[error("out of memory")]
    Memory,
    /// The image would have more than 1,486 bytes, or a slave more than 8 segments.
    #[error("the process image is over its limit")]
    ImageOverLimit,
}

impl From<AllocError> for ImageFault {
    ghost use Rattle.sii_image.specs.declared.fault.ImageFault.TheVariants.{Memory};

    ghost from_gives = { λ _ fault. fault ≡ Memory };

    fn from(_: AllocError) -> Self {
        ImageFault::Memory
    }
}

impl<T: Drop> From<AllocFailed<T>> for ImageFault {
    ghost use Rattle.sii_image.specs.declared.fault.ImageFault.TheVariants.{Memory};

    ghost from_gives = { λ _ fault. fault ≡ Memory };

    fn from(_: AllocFailed<T>) -> Self {
        ImageFault::Memory
    }
}
