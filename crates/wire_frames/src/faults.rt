//! Why a line can't be brought up, and what was seen of a slave.
ghost use Rattle.std.specs.Prelude.{◌≡◌};
ghost use Rattle.wire_frames.specs.declared.faults.LineFault.TheVariants as line;

use std::alloc::{AllocError, AllocFailed};

/// What was seen of a slave that didn't do what it was asked to.
#[derive(Clone, Copy, PartialEq, Eq)]
pub struct Sighting {
    /// The code of the command of the last datagram to it: 1 APRD, 2 APWR, 4 FPRD, 5 FPWR (ETG.1000.4).
    pub command: u8,
    /// Its register.
    pub register: u16,
    /// The working counter that it came back with. None: it didn't come back.
    pub counter: Option<u16>,
    /// The high byte of control and status (0x0503), as it was read last: bit 7 is busy, bits 5 and 6 are the errors. None: it wasn't read.
    pub status: Option<u8>,
    /// How many slaves answered a broadcast then. None: it didn't come back.
    pub answering: Option<u16>,
    /// The station address that the slave at this place of the line had then. None: no slave answered there.
    pub station: Option<u16>,
    /// The one that it should have.
    pub given: u16,
}

/// What is the matter with a slave that doesn't do what it is asked to.
#[derive(Clone, Copy, PartialEq, Eq)]
pub enum SlaveTrouble {
    /// The frame doesn't come back.
    Silence,
    /// Several slaves answer to its station address.
    Shared,
    /// No slave answers at its place of the line.
    CableOrPower,
    /// A slave answers at its place, and has another station address than it was given: it was switched off and on.
    Restarted,
    /// It stays busy.
    StuckBusy,
    /// It ends each command in error: bit 13 or 14 of control and status.
    NoAcknowledge,
    /// It is there, and doesn't count what is sent to it.
    Ignores,
}

impl SlaveTrouble {
    /// The cause in words.
    pub fn text(self) -> &'static str {
        match self {
            SlaveTrouble::Silence => "the frame doesn't come back",
            SlaveTrouble::Shared => "several slaves answer to its station address",
            SlaveTrouble::CableOrPower => "no slave answers at its place of the line",
            SlaveTrouble::Restarted => "the slave at its place has lost its station address",
            SlaveTrouble::StuckBusy => "it stays busy",
            SlaveTrouble::NoAcknowledge => "its EEPROM doesn't acknowledge",
            SlaveTrouble::Ignores => "it doesn't take what is sent to it",
        }
    }
}

impl Sighting {
    /// What is the matter with this slave, as far as was seen.
    pub fn cause(&self) -> SlaveTrouble {
        let Some(counter) = self.counter else {
            return SlaveTrouble::Silence;
        };
        if counter > 1 {
            return SlaveTrouble::Shared;
        }
        if counter == 0 {
            return cause_uncounted(self.station, self.given);
        }
        let status = self.status.unwrap_or(0);
        if status >= 0x80 {
            SlaveTrouble::StuckBusy
        } else if status >= 0x20 {
            SlaveTrouble::NoAcknowledge
        } else {
            SlaveTrouble::Ignores
        }
    }
}

/// Why no slave counts a datagram to this station address, where the slave at its place has the address `station`.
fn cause_uncounted(station: Option<u16>, given: u16) -> SlaveTrouble {
    match station {
        None => SlaveTrouble::CableOrPower,
        Some(station) if station == given => SlaveTrouble::Ignores,
        Some(_) => SlaveTrouble::Restarted,
    }
}

/// Why a slave can't be worked on.
#[derive(Clone, Copy, PartialEq, Eq)]
pub enum SlaveFault {
    /// It doesn't do what it is asked to.
    Dead(Sighting),
    /// Its PDI has the EEPROM, and doesn't lose it unless by force.
    Held,
    /// Its EEPROM is sure to have fewer words than it was said to have.
    Smaller { given: u16, found: u16 },
}

/// Why a line can't be brought up.
#[derive(Clone, Copy, PartialEq, Eq)]
pub enum LineFault {
    /// Out of memory.
    Memory,
    /// A frame was sent three times, and didn't come back.
    Silent,
    /// Frames come back, and no slave has taken one.
    NoSlaves,
    /// The line has more than 64 slaves.
    TooManySlaves {
        slaves: u16,
    },
    /// The slave at this place has no station address from the master whose line it is.
    Unaddressed {
        slave: u16,
    },
    /// Two slaves have the same station address.
    SharedAddress {
        slave: u16,
        other: u16,
        station: u16,
    },
    /// The slave at this place of the line can't be worked on.
    Slave {
        slave: u16,
        why: SlaveFault,
    },
}

impl From<AllocError> for LineFault {
    ghost from_gives = { λ _ fault. fault ≡ line.Memory };

    fn from(_: AllocError) -> Self {
        LineFault::Memory
    }
}

impl<T: Drop> From<AllocFailed<T>> for LineFault {
    ghost from_gives = { λ _ fault. fault ≡ line.Memory };

    fn from(_: AllocFailed<T>) -> Self {
        LineFault::Memory
    }
}
