//! Why a journal can't be read from a disk.

ghost use Rattle.std.specs.Prelude.{◌≡◌};

use jrn_format::JournalFault;
use site_core::DeviceFault;
use std::alloc::AllocError;
use thiserror::Error;

/// Why a journal can't be read from a disk.
#[derive(Clone, Copy, Debug, PartialEq, Eq, Error)]
pub enum ReadFault {
    /// The disk failed, or the site has stopped.
    #[error("{0}")]
    Device(DeviceFault),
    /// The disk holds no journal of this line, or memory was refused.
    #[error("{0}")]
    Journal(JournalFault),
}

impl From<DeviceFault> for ReadFault {
    ghost use Rattle.site_journal.specs.declared.fault.ReadFault.TheVariants as read;

    ghost from_gives = { λ fault given. given ≡ read.Device fault };

    fn from(fault: DeviceFault) -> Self {
        ReadFault::Device(fault)
    }
}

impl From<JournalFault> for ReadFault {
    ghost use Rattle.site_journal.specs.declared.fault.ReadFault.TheVariants as read;

    ghost from_gives = { λ fault given. given ≡ read.Journal fault };

    fn from(fault: JournalFault) -> Self {
        ReadFault::Journal(fault)
    }
}

impl From<AllocError> for ReadFault {
    ghost use Rattle.jrn_format.specs.declared.fault.JournalFault.TheVariants as journal;
    ghost use Rattle.site_journal.specs.declared.fault.ReadFault.TheVariants as read;

    ghost from_gives = { λ _ given. given ≡ read.Journal journal.Memory };

    fn from(_: AllocError) -> Self {
        ReadFault::Journal(JournalFault::Memory)
    }
}
