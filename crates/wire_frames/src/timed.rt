//! A wire on which a frame is waited for no longer than a time-out.

use crate::wire::Wire;
use std::io;
use std::rt::Clock;
use std::time::{Duration, Instant};

/// How many reads without a frame end a wait, and how many frames where no time is known.
const OTHERS: u32 = 256;

/// A wire on which the time-out counts from the sending of a frame, whatever else comes: once it is over, the next wait ends at once, unless it
/// is the first one. Where no time-out is known, or the clock tells no time, that is so behind 256 frames; and behind 256 reads without a frame,
/// as of a wire that is closed. On the wire under it a wait ends by itself where nothing comes.
#[derive(Drop)]
pub struct TimedWire<'c, W, C> {
    wire: W,
    clock: &'c C,
    time_out: Option<Duration>,
    /// When the last frame was sent, if the clock told it.
    sent: Option<Instant>,
    /// Whether it was waited for before.
    has_waited: bool,
    /// How often, as far as that counts. None: it isn't waited for any more.
    waits: Option<u32>,
}

impl<'c, W: Wire, C: Clock> TimedWire<'c, W, C> {
    /// A wire with this time-out, if it is known.
    pub fn new(wire: W, clock: &'c C, time_out: Option<Duration>) -> TimedWire<'c, W, C> {
        TimedWire {
            wire,
            clock,
            time_out,
            sent: None,
            has_waited: false,
            waits: None,
        }
    }

    /// Whether the time-out is over, and this isn't the first wait. None where that isn't known.
    fn is_over(&self) -> Option<bool> {
        let time_out = self.time_out?;
        let waited = self.sent?.elapsed(self.clock).ok()?;
        Some(self.has_waited && waited >= time_out)
    }
}

impl<W: Wire, C: Clock> Wire for TimedWire<'_, W, C> {
    ghost gives = { W.gives };

    ghost takes = { W.takes };

    fn send(&mut self, frame: &[u8]) -> io::Result<()> {
        self.sent = Instant::now(self.clock).ok();
        self.has_waited = false;
        self.waits = Some(0);
        self.wire.send(frame)
    }

    fn receive(&mut self, bytes: &mut [u8]) -> io::Result<usize> {
        let is_over = self.is_over();
        if is_over == Some(true) || self.waits == Some(OTHERS) {
            self.sent = None;
            self.waits = None;
            return Err(io::Error::from(io::ErrorKind::TimedOut));
        }
        self.has_waited = true;
        let came = self.wire.receive(bytes);
        if is_over.is_none() || matches!(came, Ok(0)) {
            self.waits = self.waits.map(|waits| waits.saturating_add(1));
        }
        came
    }
}
