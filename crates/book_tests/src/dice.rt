//! Pseudorandom numbers, the same in each run.

ghost use Rattle.std.specs.Prelude.{◌<◌};

use book_model::RomOutcome;
use site_core::{Issued, Settled};
use world_run::{LeftByte, LeftWord, WordEnd};

/// A linear congruential generator.
#[derive(Drop)]
pub(crate) struct Dice(u32);

/// Outcomes of actions for a slave, most of them good.
const OUTCOMES: &[RomOutcome] = &[
    RomOutcome::Issued(Issued::Taken),
    RomOutcome::Issued(Issued::Taken),
    RomOutcome::Issued(Issued::Taken),
    RomOutcome::Issued(Issued::Taken),
    RomOutcome::Issued(Issued::NotTaken),
    RomOutcome::Issued(Issued::Lost),
    RomOutcome::Settled(Settled::Written),
    RomOutcome::Settled(Settled::Written),
    RomOutcome::Settled(Settled::Written),
    RomOutcome::Settled(Settled::Written),
    RomOutcome::Settled(Settled::Again),
    RomOutcome::Settled(Settled::Dead),
];

impl Dice {
    pub(crate) fn of(seed: u32) -> Dice {
        Dice(seed)
    }

    /// A number of 16 bits.
    pub(crate) fn word(&mut self) -> u16 {
        self.0 = self.0.wrapping_mul(1_664_525).wrapping_add(1_013_904_223);
        (self.0 / 65_536) as u16
    }

    /// A number below this one.
    pub(crate) fn below(&mut self, sides: u16) -> u16
        requires { 0 < sides }
        ensures { result < sides }
    {
        self.word() % sides
    }

    /// True once in `sides` times on average.
    pub(crate) fn one_in(&mut self, sides: u16) -> bool
        requires { 0 < sides }
    {
        self.below(sides) == 0
    }

    pub(crate) fn outcome(&mut self) -> RomOutcome {
        if self.one_in(256) {
            return RomOutcome::Stopped;
        }
        OUTCOMES[usize::from(self.below(12))]
    }

    /// How a word in flight ends: mostly well.
    pub(crate) fn word_end(&mut self) -> WordEnd {
        if self.one_in(16) {
            return WordEnd::Failed { left: self.word() };
        }
        WordEnd::Well
    }

    /// The byte of an open gate, or any other.
    fn byte(&mut self) -> u8 {
        if self.one_in(2) {
            return 0xA5;
        }
        self.below(256) as u8
    }

    /// Any value for a byte near the beginning of a half.
    pub(crate) fn left_byte(&mut self) -> LeftByte {
        LeftByte {
            at: usize::from(self.below(2)) * 2048 + usize::from(self.below(64)),
            byte: self.byte(),
        }
    }

    /// Any values for the first gates of both halves, and for one more byte.
    pub(crate) fn left_bytes(&mut self) -> [LeftByte; 3] {
        let first = LeftByte {
            at: 8,
            byte: self.byte(),
        };
        let second = LeftByte {
            at: 2056,
            byte: self.byte(),
        };
        [first, second, self.left_byte()]
    }

    /// Any value for the word in flight of a slave.
    pub(crate) fn left_word(&mut self) -> LeftWord {
        LeftWord {
            slave: self.below(2),
            word: self.word(),
        }
    }
}
