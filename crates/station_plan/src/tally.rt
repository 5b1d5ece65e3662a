//! Counts what a station writes.

use ecat_frame::Frame;
use esc_model::RomHalf;
use site_mem::{Pattern, has_taken_word};
use site_shadow::{Device, Passing, Resting};

/// A device behind a line in memory, in whose calls nothing fails. It counts the writes. Contracts don't see it.
#[derive(Clone, Copy, Default, Drop)]
pub(crate) struct Tally {
    /// The words that slaves have taken.
    pub words: u64,
    /// The bytes that were written to the journal.
    pub bytes: u64,
    /// The syncs of the journal.
    pub syncs: u64,
}

impl Device for Tally {
    fn begin(&mut self, _is_new: bool) {}

    fn len(&mut self, _length: usize) -> Passing {
        Passing::Passes
    }

    fn read(&mut self, _at: usize, _held: &[u8]) -> Passing {
        Passing::Passes
    }

    fn write(&mut self, _at: usize, bytes: &[u8]) -> Passing {
        self.bytes = self.bytes.saturating_add(bytes.len() as u64);
        Passing::Passes
    }

    fn sync(&mut self) -> Passing {
        self.syncs = self.syncs.saturating_add(1);
        Passing::Passes
    }

    fn exchange(&mut self, _slave: usize, _half: &RomHalf, _frame: &Frame) -> Passing {
        Passing::Passes
    }

    fn rest(&mut self, _slave: usize, _half: &RomHalf, _frame: &Frame, _k: usize) -> Resting {
        Resting::InTime
    }

    fn taken(
        &mut self,
        _slave: usize,
        half: &RomHalf,
        answer: &Frame,
        k: usize,
        added: u16,
    ) -> Option<Pattern> {
        if has_taken_word(half, answer, k, added) {
            self.words = self.words.saturating_add(1);
        }
        None
    }

    fn cycle(&mut self, _frame: &Frame) -> Passing {
        Passing::Passes
    }

    fn is_well(&self) -> bool {
        true
    }

    ghost goes_on = { λ _ _ _ _ _. tt };
}
