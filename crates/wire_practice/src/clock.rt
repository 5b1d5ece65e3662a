//! A clock in memory.

use std::io;
use std::rt::Clock;
use std::sync::atomic::AtomicU64;
use std::sync::atomic::Ordering::SeqCst;
use std::time::Duration;

/// A clock that goes on only as it is set: whoever sleeps by it passes the time at once.
#[derive(Drop)]
pub struct PracticeClock {
    /// The moment, in microseconds.
    now: AtomicU64,
}

impl PracticeClock {
    /// A clock that begins at 0.
    pub fn new() -> PracticeClock {
        PracticeClock {
            now: AtomicU64::new(0),
        }
    }

    /// The moment, in microseconds.
    pub fn now(&self) -> u64 {
        self.now.load(SeqCst)
    }

    /// So many microseconds pass.
    pub fn pass(&self, time: u64) {
        let _before = self.now.fetch_add(time, SeqCst);
    }
}

impl Clock for PracticeClock {
    fn monotonic(&self) -> io::Result<Duration> {
        Ok(Duration::from_micros(self.now()))
    }

    fn since_1970(&self) -> io::Result<Duration> {
        self.monotonic()
    }

    fn sleep(&self, duration: Duration) {
        let entire = duration.as_secs().saturating_mul(1_000_000);
        self.pass(entire.saturating_add(u64::from(duration.subsec_micros())));
    }
}
