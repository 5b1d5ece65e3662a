//! When a slave alone loses its power.

use crate::quirks::PowerLoss;

/// How many frames came by a slave, and how many words it began to write, since it was made.
#[derive(Clone, Copy)]
pub(crate) struct Counts {
    pub(crate) frames: u32,
    pub(crate) words: u32,
}

impl PowerLoss {
    /// Whether it comes now.
    pub(crate) fn is_due(self, counts: Counts) -> bool {
        match self {
            PowerLoss::Never => false,
            PowerLoss::After(frames) => counts.frames > frames,
            PowerLoss::InWord(word) => counts.words >= word,
        }
    }
}
