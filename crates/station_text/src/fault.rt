//! Why a value of a text can't be read.
ghost use Rattle.std.specs.Prelude.{◌≡◌};

use crate::hexadecimal::HexFault;
use std::alloc::{AllocError, AllocFailed};

/// Why a text gives no document, or a value of one not what is read of it.
#[derive(Clone, Copy)]
pub(crate) enum ValueFault {
    /// Memory was refused.
    Memory,
    /// The text or the value has another form.
    Malformed,
    /// The command of a script at this place, from 0, has another form.
    BadCommand(usize),
}

/// What is there; or the text or the value has another form.
macro_rules! needed {
    ($found:expr) => {
        match $found {
            Some(found) => found,
            None => return Err(ValueFault::Malformed),
        }
    };
}

pub(crate) use needed;

impl From<AllocError> for ValueFault {
    ghost use Rattle.station_text.specs.declared.fault.ValueFault.TheVariants.{Memory};

    ghost from_gives = { λ _ fault. fault ≡ Memory };

    fn from(_: AllocError) -> Self {
        ValueFault::Memory
    }
}

impl<T: Drop> From<AllocFailed<T>> for ValueFault {
    ghost use Rattle.station_text.specs.declared.fault.ValueFault.TheVariants.{Memory};

    ghost from_gives = { λ _ fault. fault ≡ Memory };

    fn from(_: AllocFailed<T>) -> Self {
        ValueFault::Memory
    }
}

impl From<HexFault> for ValueFault {
    ghost use Rattle.station_text.specs.declared.fault.ValueFault.TheVariants.{Memory};
    ghost use Rattle.station_text.specs.declared.hexadecimal.HexFault.TheVariants as digits;

    ghost from_gives = { λ fault given. fault ≡ digits.Memory → given ≡ Memory };

    fn from(fault: HexFault) -> Self {
        match fault {
            HexFault::Memory => ValueFault::Memory,
            HexFault::BadHex => ValueFault::Malformed,
        }
    }
}
