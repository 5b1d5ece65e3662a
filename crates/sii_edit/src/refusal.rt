ghost use Rattle.std.specs.Prelude.{◌≡◌};
ghost use Rattle.sii_edit.specs.Refusal.{placed, entire};

use sii_cats::{CatFault, ChainFault};
use std::alloc::{AllocError, AllocFailed};
use std::fmt;
use thiserror::Error;

/// Why a command is refused.
#[derive(Clone, Copy, Debug, PartialEq, Eq, Error)]
pub enum Cause {
    /// The line has no such slave.
    #[error("the line has no such slave")]
    NoSlave,
    /// Both slaves of a swap are the same.
    #[error("both slaves of the swap are the same")]
    SameSlave,
    /// The group has no edits.
    #[error("the group has no edits")]
    EmptyGroup,
    /// The group has more than 64 edits.
    #[error("the group has more than 64 edits")]
    GroupTooLong,
    /// The image is longer than the device.
    #[error("the image is longer than the device")]
    ImageTooLong,
    /// The check byte in word 7 is wrong.
    #[error("the check byte is wrong")]
    BadCheck,
    /// The slave doesn't have the expected identity.
    #[error("the slave has another identity than expected")]
    WrongIdentity,
    /// There is no category of this type to be removed.
    #[error("there is no category of this type")]
    NoSuchCategory,
    /// There are several categories of this type, so none is chosen.
    #[error("there are several categories of this type")]
    SeveralCategories,
    /// The content of a category of type `kind` is malformed, or no category may have this type. For an image, `kind` is the
    /// type of the first malformed category of the words that it would leave.
    #[error("a category of type {kind} is malformed")]
    BadCategory { kind: u16 },
    /// The categories don't fit into the device.
    #[error("the categories do not fit into the device")]
    NoRoom,
    /// The chain of categories can't be read.
    #[error("the chain of categories can not be read")]
    BadChain,
    /// The process image would be over its limits: 1,486 bytes, and 8 segments in a slave.
    #[error("the process image would be over its limits")]
    ImageOverLimit,
    /// Memory was refused.
    #[error("there is no memory")]
    Memory,
}

/// The refusal of a command.
#[derive(Clone, Copy, Debug, PartialEq, Eq)]
pub struct Refusal {
    /// Why the command is refused.
    pub cause: Cause,
    /// The edit of a group that is refused, 0 to 63. `None` if the command is refused as a whole, and for `Memory`.
    pub position: Option<u8>,
}

impl fmt::Display for Refusal {
    fn fmt<W: fmt::Write>(&self, f: &mut fmt::Formatter<W>) -> fmt::Result {
        let cause = self.cause;
        match self.position {
            Some(position) => write!(f, "{cause} (edit {position})"),
            None => write!(f, "{cause}"),
        }
    }
}

impl Refusal {
    /// A refusal of the command as a whole.
    pub(crate) fn entire(cause: Cause) -> Refusal
        ensures { result ≡ entire cause }
    {
        Refusal {
            cause,
            position: None,
        }
    }

    /// A refusal of the edit at this place of a group. `Memory` has no place.
    pub(crate) fn at(place: u8, cause: Cause) -> Refusal
        ensures { result ≡ placed place cause }
    {
        match cause {
            Cause::Memory => Refusal::entire(cause),
            _ => Refusal {
                cause,
                position: Some(place),
            },
        }
    }
}

impl From<AllocError> for Cause {
    ghost use Rattle.sii_edit.specs.declared.refusal.Cause.TheVariants.{Memory};

    ghost from_gives = { λ _ cause. cause ≡ Memory };

    fn from(_: AllocError) -> Self {
        Cause::Memory
    }
}

impl<T: Drop> From<AllocFailed<T>> for Cause {
    ghost use Rattle.sii_edit.specs.declared.refusal.Cause.TheVariants.{Memory};

    ghost from_gives = { λ _ cause. cause ≡ Memory };

    fn from(_: AllocFailed<T>) -> Self {
        Cause::Memory
    }
}

impl From<ChainFault> for Cause {
    ghost use Rattle.sii_edit.specs.Refusal.{cause_of_chain};

    ghost from_gives = { λ fault cause. cause ≡ cause_of_chain fault };

    fn from(fault: ChainFault) -> Self {
        match fault {
            ChainFault::Memory => Cause::Memory,
            ChainFault::RunsOut { .. } => Cause::BadChain,
        }
    }
}

impl From<CatFault> for Cause {
    ghost use Rattle.sii_edit.specs.Refusal.{cause_of_category};

    ghost from_gives = { λ fault cause. cause ≡ cause_of_category fault };

    fn from(fault: CatFault) -> Self {
        match fault {
            CatFault::Memory => Cause::Memory,
            CatFault::RunsOut { .. } => Cause::BadChain,
            CatFault::BadCategory { kind } => Cause::BadCategory { kind },
            CatFault::NoRoom => Cause::NoRoom,
        }
    }
}

impl From<AllocError> for Refusal {
    ghost use Rattle.sii_edit.specs.Refusal.{entire};
    ghost use Rattle.sii_edit.specs.declared.refusal.Cause.TheVariants.{Memory};

    ghost from_gives = { λ _ refusal. refusal ≡ entire Memory };

    fn from(_: AllocError) -> Self {
        Refusal::entire(Cause::Memory)
    }
}
