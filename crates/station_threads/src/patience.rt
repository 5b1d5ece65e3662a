//! How often a dispatch asks for memory that is refused.

use std::sync::Wait;
use std::thread::Parker;
use std::time::Duration;

/// How many refusals in a row a dispatch bears.
const TRIES: u32 = 20;

/// How long a dispatch waits after a refusal, in milliseconds.
const PAUSE: u64 = 10;

/// How often memory was refused to a dispatch since it was granted last.
#[derive(Clone, Copy, Drop)]
pub(crate) struct Patience {
    refusals: u32,
}

impl Patience {
    /// No refusal yet.
    pub(crate) fn new() -> Self {
        Patience { refusals: 0 }
    }

    /// Memory was refused.
    pub(crate) fn refused(&mut self) {
        self.refusals = self.refusals.saturating_add(1);
    }

    /// Memory was granted.
    pub(crate) fn granted(&mut self) {
        self.refusals = 0;
    }

    /// Whether memory was refused too often. After a refusal it waits a little first.
    pub(crate) fn has_ended<W: Wait>(&self, rt: &W) -> bool {
        if self.refusals > 0 {
            Parker::new().park_timeout(rt, Duration::from_millis(PAUSE));
        }
        self.refusals >= TRIES
    }
}
