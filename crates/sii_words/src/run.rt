ghost use Rattle.std.specs.Prelude.{◌≡◌, IfOk};

use crate::WordList;
use std::alloc::AllocError;

/// Neighbouring words of one slave with their new values.
#[derive(Drop)]
pub struct Run {
    /// The number of the slave, from 0 in the order of the line.
    pub slave: u16,
    /// The number of the first word.
    pub first: u16,
    /// The new values of word `first` and the words after it.
    pub words: WordList,
}

impl Run {
    /// Copies the run.
    ///
    /// # Errors
    ///
    /// `AllocError` if memory was refused.
    pub fn try_copy(&self) -> Result<Run, AllocError>
        ensures { IfOk result (λ copy. copy ≡ self.now) }
    {
        Ok(Run {
            slave: self.slave,
            first: self.first,
            words: self.words.try_copy()?,
        })
    }
}
