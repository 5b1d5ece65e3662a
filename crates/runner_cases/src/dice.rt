//! Pseudorandom numbers, the same in each run.

/// A linear congruential generator.
#[derive(Drop)]
pub struct Dice(u32);

impl Dice {
    pub fn of(seed: u32) -> Dice {
        Dice(seed)
    }

    /// A number of 16 bits.
    fn word(&mut self) -> u16 {
        self.0 = self.0.wrapping_mul(1_664_525).wrapping_add(1_013_904_223);
        (self.0 / 65_536) as u16
    }

    /// A number below this one; 0 if it is 0.
    pub fn below(&mut self, sides: usize) -> usize {
        usize::from(self.word()) % sides.max(1)
    }

    /// A byte: half of the time that of an open gate.
    pub fn byte(&mut self) -> u8 {
        let word = self.word();
        if word & 1 == 0 {
            0xa5
        } else {
            (word / 256) as u8
        }
    }
}
