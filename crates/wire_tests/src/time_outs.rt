//! Frames that are waited for on a wire on which frames of others come.

use crate::bench::Bench;
use std::io;
use std::time::Duration;
use wire_frames::{NumberedWire, TimedWire, Wire, count_answers};
use wire_practice::PracticeClock;

// The most bytes of a frame.
const LONGEST: usize = 64;

// Where the number of a frame that counts the slaves begins: after two bytes, a datagram of 13 bytes, and a command and an index.
const NUMBER: usize = 17;

// A wire on which frames come again and again, each with the number of another station but one; or a wire that is closed.
#[derive(Drop)]
struct BusyWire<'c> {
    clock: &'c PracticeClock,
    // How many microseconds lie between two frames. 0: it is closed.
    every: u64,
    // How many pass before a frame that is sent is waited for.
    pause: u64,
    // How many come between a frame that is sent and the answer. None: that one doesn't come.
    before: Option<u32>,
    sent: [u8; LONGEST],
    length: usize,
    came: u32,
}

impl Wire for BusyWire<'_> {
    ghost gives = { λ _. Unit {0} };

    fn send(&mut self, frame: &[u8]) -> io::Result<()> {
        let length = frame.len().min(LONGEST);
        self.sent[..length].copy_from_slice(&frame[..length]);
        self.length = length;
        self.came = 0;
        self.clock.pass(self.pause);
        Ok(())
    }

    fn receive(&mut self, bytes: &mut [u8]) -> io::Result<usize> {
        if self.every == 0 {
            return Ok(0);
        }
        self.clock.pass(self.every);
        let mut frame = self.sent;
        if self.before != Some(self.came) {
            frame[NUMBER] ^= 0x80;
        }
        self.came = self.came.saturating_add(1);
        let length = self.length.min(bytes.len()).min(LONGEST);
        bytes[..length].copy_from_slice(&frame[..length]);
        Ok(length)
    }
}

// How many microseconds lie between two frames, or 0 for a wire that is closed; how many pass before a frame is waited for; the time-out in
// milliseconds; how many frames of others come before the answer; and after how many microseconds it is there, or given up.
type Case = (u64, u64, Option<u64>, Option<u32>, Result<u64, u64>);

const CASES: &[Case] = &[
    // Each of three tries ends as soon as the time-out is over.
    (20_000, 0, Some(100), None, Err(300_000)),
    (30_000, 0, Some(100), None, Err(360_000)),
    (100, 0, Some(100), None, Err(300_000)),
    // The answer stands after frames of others, also after many.
    (20_000, 0, Some(100), Some(0), Ok(20_000)),
    (20_000, 0, Some(100), Some(4), Ok(100_000)),
    (100, 0, Some(100), Some(900), Ok(90_100)),
    // It comes too late in each try.
    (20_000, 0, Some(100), Some(5), Err(300_000)),
    // The station was held up before it waits: what came is looked at.
    (10, 150_000, Some(100), Some(0), Ok(150_010)),
    (10, 150_000, Some(100), None, Err(450_030)),
    // No time-out is known: a try ends after 256 frames.
    (20_000, 0, None, None, Err(15_360_000)),
    (20_000, 0, None, Some(255), Ok(5_120_000)),
    // A wire that is closed is known by that many reads.
    (0, 0, Some(60_000), None, Err(0)),
    (0, 0, None, None, Err(0)),
];

// Whether a frame is answered, or given up, after this time.
fn ends_so(case: &Case) -> bool {
    let (every, pause, time_out, before, ends) = *case;
    let bench = Bench::new();
    let busy = BusyWire {
        clock: &bench.clock,
        every,
        pause,
        before,
        sent: [0; LONGEST],
        length: 0,
        came: 0,
    };
    let timed = TimedWire::new(busy, &bench.clock, time_out.map(Duration::from_millis));
    let mut wire = NumberedWire::new(timed, 7);
    let answer = count_answers(&mut wire);
    let time = bench.clock.now();
    match ends {
        Ok(wanted) => answer.is_some() && time == wanted,
        Err(wanted) => answer.is_none() && time == wanted,
    }
}

#[test]
fn time_outs_count_from_the_sending(rt: HostRuntime) {
    for case in CASES {
        assert!(rt; ends_so(case));
    }
}
