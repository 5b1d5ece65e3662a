//! How often a slave is polled and a command tried, and how long is waited between.

use std::rt::Clock;
use std::thread;
use std::time::Duration;

/// How often a command is tried, with the pauses of `Pace::retry` between. They take half a second.
pub const ATTEMPTS: u32 = 64;

/// After how many polls in a row that no slave counts, or several do, a slave is given up.
pub const UNCOUNTED: u32 = 100;

/// How many polls follow one another at once.
const QUICK_POLLS: u16 = 8;

/// Pauses that get longer: each is twice as long as the last one, up to a limit.
#[derive(Clone, Copy)]
pub struct Pace {
    /// How many pauses have been made, or left out.
    pauses: u16,
}

impl Pace {
    /// No pause has been made.
    pub fn new() -> Pace {
        Pace { pauses: 0 }
    }

    /// How many pauses have been made, or left out.
    pub fn pauses(self) -> u16 {
        self.pauses
    }

    /// Pauses before a busy slave is polled again: eight polls follow at once, then come 50 microseconds to one millisecond. The pauses of 10,000
    /// polls take ten seconds.
    pub fn poll<C: Clock>(&mut self, clock: &C) {
        if let Some(times) = self.pauses.checked_sub(QUICK_POLLS) {
            thread::sleep(clock, doubled(50, times, 1_000));
        }
        self.pauses = self.pauses.saturating_add(1);
    }

    /// Pauses before a command is tried again that was not acknowledged: one to eight milliseconds.
    pub fn retry<C: Clock>(&mut self, clock: &C) {
        thread::sleep(clock, doubled(1_000, self.pauses, 8_000));
        self.pauses = self.pauses.saturating_add(1);
    }
}

/// So many microseconds, doubled so often, up to a limit of less than 64 times as many.
fn doubled(micros: u64, times: u16, longest: u64) -> Duration {
    let factor = 1_u64 << times.min(6);
    Duration::from_micros(micros.saturating_mul(factor).min(longest))
}
