//! The chip with the words of a slave's EEPROM.

use std::alloc::{AllocError, Global};

/// What a blank word holds.
const BLANK: u16 = 0xffff;

/// The words of an EEPROM. Addresses after its end roll over.
#[derive(Drop)]
pub(crate) struct Chip {
    pub(crate) words: Vec<u16>,
}

impl Chip {
    /// A chip with these words. If it has another size, words are left out, or blank ones stand after them.
    ///
    /// # Errors
    ///
    /// Want of memory.
    pub(crate) fn new(alloc: Global, image: &[u16], size: Option<u32>) -> Result<Chip, AllocError> {
        let count = match size {
            Some(size) => size as usize,
            None => image.len(),
        };
        let mut words = Vec::new(alloc);
        for place in 0..count.min(65536) {
            words.push(image.get(place).copied().unwrap_or(BLANK))?;
        }
        Ok(Chip { words })
    }

    /// Where a word address lies on the chip.
    pub(crate) fn place(&self, address: u32) -> usize {
        let count = self.words.len();
        if count == 0 {
            0
        } else {
            address as usize % count
        }
    }

    pub(crate) fn get(&self, address: u32) -> u16 {
        let place = self.place(address);
        self.words.get(place).copied().unwrap_or(BLANK)
    }

    pub(crate) fn set(&mut self, address: u32, value: u16) {
        let place = self.place(address);
        if let Some(word) = self.words.get_mut(place) {
            *word = value;
        }
    }

    /// Whether the low byte of word 7 is the check byte of the words before it (ETG.1000.6).
    pub(crate) fn is_checked(&self) -> bool {
        let mut rest = 0xffu8;
        for address in 0..7u32 {
            let [low, high] = self.get(address).to_le_bytes();
            rest = check_step(check_step(rest, low), high);
        }
        self.get(7).to_le_bytes()[0] == rest
    }
}

/// The check byte of one byte more: polynomial x^8 + x^2 + x + 1.
fn check_step(rest: u8, byte: u8) -> u8 {
    let mut rest = rest ^ byte;
    for _bit in 0..8u32 {
        let shifted = (rest & 0x7f) * 2;
        rest = if rest >= 0x80 {
            shifted ^ 0x07
        } else {
            shifted
        };
    }
    rest
}
