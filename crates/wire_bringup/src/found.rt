//! A line that was brought up.
ghost use Rattle.std.specs.Prelude.{◌≡◌, ◌<◌, length, IfOk};
ghost use Rattle.wire_bringup.specs.Access.{is_with_pdi, restored};

use sii_words::Words;
use std::alloc::Global;
use wire_frames::{LineFault, SlaveFault};
use wire_words::SizeFound;

/// What is known of the sizes of a line's EEPROMs before it is brought up.
#[derive(Clone, Copy)]
pub struct Sizes {
    /// By slave, its number of words, as that of its image file: 64 to 4,096, a multiple of 64. Any other number counts as none.
    pub given: [Option<u16>; 64],
    /// A given number is used even where the chip is sure to be smaller.
    pub is_trusted: bool,
}

/// What a slave was in as it was found. None: it doesn't answer that register.
#[derive(Clone, Copy, PartialEq, Eq)]
pub struct SlaveState {
    /// AL status, 0x0130: bits 0 to 3 are 1 for Init, 2 for Pre-Operational, 3 for Bootstrap, 4 for Safe-Operational, and 8 for
    /// Operational; bit 4 is an error (ETG.1000.4).
    pub al_status: Option<u16>,
    /// 0x0500 and 0x0501: in bit 0 the EEPROM is offered to the PDI, and in bit 8 the PDI has it (ETG.1000.4).
    pub access: Option<u16>,
}

/// A slave of a line that was brought up.
#[derive(Drop)]
pub struct FoundSlave {
    pub state: SlaveState,
    /// How large its EEPROM is. None where that could not be found.
    pub size: Option<SizeFound>,
    /// Its words, or why it can't be worked on.
    pub words: Result<Words, SlaveFault>,
}

/// A line that was brought up: 1 to 64 slaves, in order.
#[derive(Drop)]
pub struct FoundLine {
    pub slaves: Vec<FoundSlave>,
}

impl Sizes {
    /// Nothing is known.
    pub fn unknown() -> Sizes {
        Sizes {
            given: [None; 64],
            is_trusted: false,
        }
    }

    /// The number of words of a slave, if it is known.
    pub(crate) fn of_slave(&self, slave: u16) -> Option<u16>
        requires { slave < 64 }
    {
        let words = self.given[usize::from(slave)]?;
        if words >= 64 && words <= 4096 && words % 64 == 0 {
            Some(words)
        } else {
            None
        }
    }
}

impl SlaveState {
    /// Nothing is known.
    pub(crate) fn unknown() -> SlaveState {
        SlaveState {
            al_status: None,
            access: None,
        }
    }

    /// Whether the slave is in Safe-Operational or Operational.
    pub fn is_above_preop(self) -> bool {
        match self.al_status {
            Some(status) => status % 16 == 4 || status % 16 == 8,
            None => false,
        }
    }

    /// Bits 0 and 1 of 0x0500, where they are known and one of them is set: what is to be written so that they are as they were.
    pub(crate) fn access_to_restore(self) -> Option<u8>
        ensures { result ≡ restored self.access }
    {
        match self.access? % 4 {
            0 => None,
            access => Some(access as u8),
        }
    }

    /// Whether ECAT has the EEPROM, and it wasn't offered to the PDI, as far as is known.
    pub(crate) fn is_ours(self) -> bool {
        !self.is_with_pdi() && self.access_to_restore().is_none()
    }

    /// Whether the PDI was offered the EEPROM or has it.
    pub fn is_with_pdi(self) -> bool
        ensures { result ≡ is_with_pdi self.access }
    {
        match self.access {
            Some(access) => access % 2 == 1 || access / 256 % 2 == 1,
            None => false,
        }
    }
}

impl FoundLine {
    /// What the slaves were in as they were found. Nothing is known of places without a slave.
    pub fn states(&self) -> [SlaveState; 64] {
        let mut states = [SlaveState::unknown(); 64];
        for place in 0..64usize {
            if let Some(slave) = self.slaves.get(place) {
                states[place] = slave.state;
            }
        }
        states
    }

    /// The words of all slaves.
    ///
    /// # Errors
    ///
    /// `Slave` for the first one that can't be worked on; `Memory`.
    pub fn into_words(self, alloc: Global) -> Result<Vec<Words>, LineFault>
        ensures { IfOk result (λ plant. length plant.items ≡ length self.slaves.items) }
    {
        let count = self.slaves.len();
        let mut plant = Vec::new(alloc);
        let mut slave = 0u16;
        for found in self.slaves {
            match found.words {
                Ok(words) => plant.push(words)?,
                Err(why) => return Err(LineFault::Slave { slave, why }),
            }
            slave = slave.saturating_add(1);
        }
        if plant.len() != count {
            return Err(LineFault::Memory);
        }
        Ok(plant)
    }
}
