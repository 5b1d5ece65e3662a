//! A hook that shows that two workers run at the same time.

use station_jobs::Hook;
use std::sync::atomic::{AtomicU64, Ordering};
use std::thread::sleep;
use std::time::{Clock, Duration};

/// A worker is held up for at most this many turns of one millisecond.
const TURNS: usize = 10_000;

/// Holds the first outcome of slave 0 until one of slave 1 was answered, and the second of slave 1 until slave 0 has its first.
#[derive(Drop)]
pub(crate) struct Meeting<'a, C: Clock> {
    clock: &'a C,
    /// How many outcomes slave 0 and slave 1 have had.
    first: AtomicU64,
    second: AtomicU64,
}

impl<'a, C: Clock> Meeting<'a, C> {
    pub(crate) fn new(clock: &'a C) -> Self {
        Meeting {
            clock,
            first: AtomicU64::new(0),
            second: AtomicU64::new(0),
        }
    }

    /// Waits until there were `count` outcomes. False if they don't come within all turns.
    fn waits_for(&self, outcomes: &AtomicU64, count: u64) -> bool {
        for _turn in 0..TURNS {
            if outcomes.load(Ordering::SeqCst) >= count {
                return true;
            }
            sleep(self.clock, Duration::from_millis(1));
        }
        false
    }
}

impl<'a, C: Clock> Hook for Meeting<'a, C> {
    ghost may_hold = { λ _. Unit {0} };

    fn pass(&self, slave: u16) -> bool {
        match slave {
            0 => {
                self.first.fetch_add(1, Ordering::SeqCst);
                self.waits_for(&self.second, 2)
            }
            1 => {
                let earlier = self.second.fetch_add(1, Ordering::SeqCst);
                earlier == 0 || self.waits_for(&self.first, 1)
            }
            _ => true,
        }
    }
}
