use book_model::CoreFault;
use esc_rom::RomFault;
use site_journal::ReadFault;
use std::alloc::AllocError;
use thiserror::Error;

/// Why a station can't be opened.
#[derive(Clone, Copy, Debug, PartialEq, Eq, Error)]
pub enum OpenFault {
    /// The disk can't be read, or it holds no journal of this line.
    #[error("{0}")]
    Journal(ReadFault),
    /// A slave can't be opened or read.
    #[error("{0}")]
    Slave(RomFault),
    /// Out of memory.
    #[error("out of memory")]
    Memory,
}

impl From<ReadFault> for OpenFault {
    ghost use Rattle.std.specs.Prelude.{◌≡◌};
    ghost use Rattle.station_alone.specs.declared.fault.OpenFault.TheVariants as faults;

    ghost from_gives = { λ fault given. given ≡ faults.Journal fault };

    fn from(fault: ReadFault) -> Self {
        OpenFault::Journal(fault)
    }
}

impl From<RomFault> for OpenFault {
    ghost use Rattle.std.specs.Prelude.{◌≡◌};
    ghost use Rattle.station_alone.specs.declared.fault.OpenFault.TheVariants as faults;

    ghost from_gives = { λ fault given. given ≡ faults.Slave fault };

    fn from(fault: RomFault) -> Self {
        OpenFault::Slave(fault)
    }
}

impl From<CoreFault> for OpenFault {
    ghost use Rattle.std.specs.Prelude.{◌≡◌};
    ghost use Rattle.station_alone.specs.declared.fault.OpenFault.TheVariants as faults;

    ghost from_gives = { λ _ given. given ≡ faults.Memory };

    fn from(_: CoreFault) -> Self {
        OpenFault::Memory
    }
}

impl From<AllocError> for OpenFault {
    ghost use Rattle.std.specs.Prelude.{◌≡◌};
    ghost use Rattle.station_alone.specs.declared.fault.OpenFault.TheVariants as faults;

    ghost from_gives = { λ _ given. given ≡ faults.Memory };

    fn from(_: AllocError) -> Self {
        OpenFault::Memory
    }
}
