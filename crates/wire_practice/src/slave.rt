//! A slave to practise on.
ghost use Rattle.std.specs.Prelude.{◌+◌, ◌≤◌, length};

use crate::chip::Chip;
use crate::codes::{
    ALIAS, ALIASING, APRD, APWR, BRD, BWR, CONTROL, EEPROM, END, FPRD, FPWR, KIND, STATE, STATION,
};
use crate::eeprom::Eeprom;
use crate::power::Counts;
use crate::quirks::{PowerLoss, Quirks};
use ecat_frame::Datagram;
use site_shadow::Pattern;
use std::alloc::{AllocError, Global};

/// A slave in memory.
#[derive(Drop)]
pub struct PracticeSlave {
    pub(crate) eeprom: Eeprom,
    quirks: Quirks,
    /// The configured station address; 0 where it has none.
    station: u16,
    /// The alias, as it was when the power came.
    alias: u16,
    /// Whether it takes FP commands to its alias.
    has_alias_addressing: bool,
    pub(crate) counts: Counts,
}

/// A datagram on its way through the slaves.
#[derive(Clone, Copy)]
pub(crate) struct Passing {
    /// The code of its command.
    pub(crate) code: u8,
    pub(crate) station: u16,
    pub(crate) register: u16,
    /// How many slaves it has come through before.
    pub(crate) place: u16,
    /// The moment, in microseconds.
    pub(crate) now: u64,
}

impl PracticeSlave {
    /// A slave with these words, just switched on.
    ///
    /// # Errors
    ///
    /// Want of memory.
    pub fn switched_on(
        alloc: Global,
        image: &[u16],
        quirks: Quirks,
    ) -> Result<PracticeSlave, AllocError> {
        let chip = Chip::new(alloc, image, quirks.chip)?;
        let alias = chip.get(4);
        Ok(PracticeSlave {
            eeprom: Eeprom::power_up(chip, quirks),
            quirks,
            station: quirks.station.unwrap_or(0),
            alias,
            has_alias_addressing: quirks.has_alias_addressing,
            counts: Counts {
                frames: 0,
                words: 0,
            },
        })
    }

    /// The power is cut, and comes back. A word in flight is left by the pattern.
    pub(crate) fn cut_power(&mut self, pattern: Pattern) {
        self.eeprom.cut_power(pattern);
        self.station = self.quirks.station.unwrap_or(0);
        self.alias = self.eeprom.chip.get(4);
        self.has_alias_addressing = self.quirks.has_alias_addressing;
    }

    /// A frame comes, or time passes. The power is lost if the slave is to lose it now.
    pub(crate) fn pass_time(&mut self, frames: u32, now: u64) {
        self.eeprom.pass_time(now);
        self.counts.frames = self.counts.frames.saturating_add(frames);
        if self.quirks.loss.is_due(self.counts) {
            self.quirks.loss = PowerLoss::Never;
            self.cut_power(self.quirks.left);
        }
    }

    /// Takes a datagram, and answers what that adds to its working counter. Counts a word that it begins to write.
    pub(crate) fn take(&mut self, datagram: Passing, content: &mut [u8]) -> u16 {
        if !self.is_meant(datagram) {
            return 0;
        }
        let before = self.eeprom.in_flight();
        let added = self.answer(datagram, content);
        let now = self.eeprom.in_flight();
        if now.is_some() && now != before {
            self.counts.words = self.counts.words.saturating_add(1);
        }
        added
    }

    /// Whether an FP datagram with this address is for the slave.
    fn is_addressed(&self, station: u16) -> bool {
        let is_alias = self.has_alias_addressing && station == self.alias;
        station != 0 && (station == self.station || is_alias)
    }

    /// Whether the datagram is for the slave.
    fn is_meant(&self, datagram: Passing) -> bool {
        match datagram.code {
            APRD | APWR => datagram.station == 0u16.wrapping_sub(datagram.place),
            FPRD | FPWR => self.is_addressed(datagram.station),
            BRD | BWR => true,
            _ => false,
        }
    }

    fn answer(&mut self, datagram: Passing, content: &mut [u8]) -> u16 {
        let register = usize::from(datagram.register);
        if content.is_empty() || register + content.len() > END {
            return 0;
        }
        let is_broadcast = datagram.code == BRD || datagram.code == BWR;
        if !is_broadcast {
            self.eeprom.pass(datagram.now);
        }
        match datagram.code {
            APRD | FPRD | BRD => {
                self.read(register, is_broadcast, content);
                1
            }
            _ => self.write(register, content, datagram.now),
        }
    }

    /// Fills the content with the registers from this one on. A broadcast adds their bits to those of the slaves before.
    fn read(&self, register: usize, is_broadcast: bool, content: &mut [u8]) {
        let eeprom = self.eeprom.shown();
        for (offset, slot) in content.iter_mut().enumerate() {
            let byte = self.byte(&eeprom, register.saturating_add(offset));
            *slot = if is_broadcast { *slot | byte } else { byte };
        }
    }

    /// What a register shows. Those that nobody looks at are 0.
    fn byte(&self, eeprom: &[u8; 16], register: usize) -> u8 {
        let station = self.station.to_le_bytes();
        let alias = self.alias.to_le_bytes();
        if register < KIND.len() {
            return KIND[register];
        }
        if register >= EEPROM && register < EEPROM + 16 {
            return eeprom[register - EEPROM];
        }
        match register {
            STATION => station[0],
            0x0011 => station[1],
            ALIAS => alias[0],
            0x0013 => alias[1],
            ALIASING => u8::from(self.has_alias_addressing),
            STATE => self.quirks.state,
            _ => 0,
        }
    }

    /// Writes the content to the registers from this one on.
    fn write(&mut self, register: usize, content: &[u8], now: u64) -> u16 {
        if register >= EEPROM && content.len() <= 16 && register - EEPROM <= 16 - content.len() {
            return self.eeprom.write(register - EEPROM, content, now);
        }
        for (offset, byte) in content.iter().enumerate() {
            self.set_byte(register.saturating_add(offset), *byte);
        }
        1
    }

    /// Writes to one register, of those that aren't the EEPROM's.
    fn set_byte(&mut self, register: usize, byte: u8) {
        let [low, high] = self.station.to_le_bytes();
        match register {
            STATION if self.quirks.station.is_none() => {
                self.station = u16::from_le_bytes([byte, high]);
            }
            0x0011 if self.quirks.station.is_none() => {
                self.station = u16::from_le_bytes([low, byte]);
            }
            ALIASING => self.has_alias_addressing = byte % 2 == 1,
            _ => {}
        }
    }

    /// Whether the datagram writes to control and status or after them, while the controller is busy.
    pub(crate) fn is_disturbed(&self, datagram: Datagram<'_>) -> bool {
        let station = (datagram.address % 65536) as u16;
        let end = (datagram.address / 65536) as usize + datagram.content.len();
        datagram.command.code() == FPWR
            && self.is_addressed(station)
            && end > CONTROL
            && self.eeprom.is_busy()
    }
}
