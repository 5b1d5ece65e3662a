//! Why a slave could not be opened or read.

ghost use Rattle.std.specs.Prelude.{◌≡◌};
ghost use Rattle.esc_rom.specs.declared.fault.RomFault.TheVariants as rom;

use rom_steps::Stop;
use std::alloc::{AllocError, AllocFailed};
use thiserror::Error;

/// Why a slave's EEPROM (ETG.1000.4, slave information interface) could not be opened or read.
#[derive(Clone, Copy, Debug, PartialEq, Eq, Error)]
pub enum RomFault {
    /// Memory was refused.
    #[error("out of memory")]
    Memory,
    /// The slave with this number doesn't take what is sent to it, doesn't become idle, or doesn't give its words.
    #[error("slave {slave} is dead")]
    SlaveDead { slave: u16 },
    /// The site has stopped, as at a power cut.
    #[error("the site has stopped")]
    Stopped,
}

impl From<AllocError> for RomFault {
    ghost from_gives = { λ _ fault. fault ≡ rom.Memory };

    fn from(_: AllocError) -> Self {
        RomFault::Memory
    }
}

impl<T: Drop> From<AllocFailed<T>> for RomFault {
    ghost from_gives = { λ _ fault. fault ≡ rom.Memory };

    fn from(_: AllocFailed<T>) -> Self {
        RomFault::Memory
    }
}

impl From<Stop> for RomFault {
    ghost from_gives = { λ _ fault. fault ≡ rom.Stopped };

    fn from(_: Stop) -> Self {
        RomFault::Stopped
    }
}
