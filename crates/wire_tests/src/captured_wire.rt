//! What a capture of a wire holds, on which frames are lost, doubled and falsified.

use crate::bench::{BLANK, Slave, line_of};
use line_watch::{Capture, ObservedWire, Progress};
use site_file::RandomAccessFile;
use std::alloc::Global;
use std::io;
use std::rt::Clock;
use std::sync::Wait;
use std::sync::atomic::AtomicU64;
use std::sync::atomic::Ordering::SeqCst;
use std::time::Duration;
use wire_bringup::{Sizes, bring_up};
use wire_frames::NumberedWire;
use wire_practice::{Fate, Mishap, NO_QUIRKS, PracticeClock, PracticeWire, Quirks};

// How often the first bytes of a file were written as they must be, byte by byte, and how many writes there were with another one.
#[derive(Drop)]
struct Seen {
    agreeing: AtomicU64,
    differing: AtomicU64,
}

// A file that is empty at first. What is written to its first bytes is compared with what must be.
#[derive(Drop)]
struct Front<'b> {
    wanted: &'b [u8],
    seen: &'b Seen,
}

impl RandomAccessFile for Front<'_> {
    fn len(&self) -> io::Result<u64> {
        Ok(0)
    }

    fn read_exact_at(&self, _bytes: &mut [u8], _at: u64) -> io::Result<()> {
        Err(io::Error::other("the file isn't read"))
    }

    fn write_all_at(&self, bytes: &[u8], at: u64) -> io::Result<()> {
        let wanted = self.wanted.get(at as usize..).unwrap_or(&[]);
        let count = bytes.len().min(wanted.len());
        if bytes[..count] == wanted[..count] {
            self.seen.agreeing.fetch_add(count as u64, SeqCst);
        } else {
            self.seen.differing.fetch_add(1, SeqCst);
        }
        Ok(())
    }

    fn set_len(&self, _length: u64) -> io::Result<()> {
        Ok(())
    }

    fn sync_data(&self) -> io::Result<()> {
        Ok(())
    }
}

// A handle whose clock stands still, at 5 nanoseconds after second 3.
#[derive(Drop)]
struct Still<'r, H> {
    _handle: &'r H,
}

impl<H: Wait> Wait for Still<'_, H> {}

impl<H> Clock for Still<'_, H> {
    fn monotonic(&self) -> io::Result<Duration> {
        Ok(Duration::ZERO)
    }

    fn since_1970(&self) -> io::Result<Duration> {
        Ok(Duration::new(3, 5))
    }
}

// How many bytes of a capture are looked at: its header of 24 bytes, and four records of 16 bytes and an Ethernet frame of 60.
const LOOKED_AT: usize = 328;

// Magic number, version 2.4, two reserved words, 1,514 bytes at most, Ethernet.
const HEADER: &[u8] = &[
    0x4d, 0x3c, 0xb2, 0xa1, 2, 0, 4, 0, 0, 0, 0, 0, 0, 0, 0, 0, 0xea, 0x05, 0, 0, 1, 0, 0, 0,
];

// Second 3, nanosecond 5, twice the length of the Ethernet frame, and the destination: to all.
const BEFORE: &[u8] = &[
    3, 0, 0, 0, 5, 0, 0, 0, 60, 0, 0, 0, 60, 0, 0, 0, 0xff, 0xff, 0xff, 0xff, 0xff, 0xff,
];

// The source and the EtherType of a frame that goes out.
const OUT: &[u8] = &[0x00, 0x10, 0x20, 0x30, 0x40, 0x50, 0x88, 0xa4];

// Those of one that comes back.
const BACK: &[u8] = &[0x02, 0x10, 0x20, 0x30, 0x40, 0x50, 0x88, 0xa4];

// How the slaves of a line are counted (ETG.1000.4): BRD of one byte of register 0, and a NOP with address 8, the number of the frame.
const COUNT: &[u8] = &[
    0x19, 0x10, 7, 0, 0, 0, 0, 0, 1, 0x80, 0, 0, 0, 0, 0, 0, 0, 8, 0, 0, 0, 0, 0, 0, 0, 0, 0,
];

// One slave has counted up the working counter.
const COUNTED: &[u8] = &[
    0x19, 0x10, 7, 0, 0, 0, 0, 0, 1, 0x80, 0, 0, 0x11, 1, 0, 0, 0, 8, 0, 0, 0, 0, 0, 0, 0, 0, 0,
];

// Its counter is falsified.
const UNCOUNTED: &[u8] = &[
    0x19, 0x10, 7, 0, 0, 0, 0, 0, 1, 0x80, 0, 0, 0x11, 0, 0, 0, 0, 8, 0, 0, 0, 0, 0, 0, 0, 0, 0,
];

// Its length is falsified.
const SHORTER: &[u8] = &[
    0x18, 0x10, 7, 0, 0, 0, 0, 0, 1, 0x80, 0, 0, 0x11, 1, 0, 0, 0, 8, 0, 0, 0, 0, 0, 0, 0, 0, 0,
];

// Aliases are left: BWR of a byte 0 to register 0x0103, and the number 9.
const LEAVE: &[u8] = &[
    0x19, 0x10, 8, 0, 0, 0, 3, 1, 1, 0x80, 0, 0, 0, 0, 0, 0, 0, 9, 0, 0, 0, 0, 0, 0, 0, 0, 0,
];

const LEFT: &[u8] = &[
    0x19, 0x10, 8, 0, 0, 0, 3, 1, 1, 0x80, 0, 0, 0, 1, 0, 0, 0, 9, 0, 0, 0, 0, 0, 0, 0, 0, 0,
];

// Which way a frame goes, and its bytes.
type Noted = (&'static [u8], &'static [u8]);

// What becomes of the first frame, and what the capture begins with. The last line ends there: no slave is counted.
const CASES: &[(Fate, &[Noted])] = &[
    (
        Fate::Passes,
        &[(OUT, COUNT), (BACK, COUNTED), (OUT, LEAVE), (BACK, LEFT)],
    ),
    (
        Fate::LostBefore,
        &[(OUT, COUNT), (OUT, COUNT), (BACK, COUNTED), (OUT, LEAVE)],
    ),
    (
        Fate::LostAfter,
        &[(OUT, COUNT), (OUT, COUNT), (BACK, COUNTED), (OUT, LEAVE)],
    ),
    (
        Fate::Doubled,
        &[(OUT, COUNT), (BACK, COUNTED), (OUT, LEAVE), (BACK, COUNTED)],
    ),
    (
        Fate::Turned(0, 1),
        &[(OUT, COUNT), (BACK, SHORTER), (OUT, COUNT), (BACK, COUNTED)],
    ),
    (Fate::Turned(13, 1), &[(OUT, COUNT), (BACK, UNCOUNTED)]),
];

// A slave of 64 words, which stays busy for a datagram with a command.
const BUSY: Slave = Slave {
    quirks: Quirks {
        delay: 1,
        ..NO_QUIRKS
    },
    ..BLANK
};

// A wire with one slave, whose first frame has this fate. None: memory was refused.
fn wire_with<'f>(alloc: Global, clock: &'f PracticeClock, fate: Fate) -> Option<PracticeWire<'f>> {
    let line = line_of(alloc, &[BUSY], None)?;
    let mut wire = PracticeWire::new(line, clock);
    wire.plan(Mishap {
        passing: 0,
        failing: 1,
        fate,
    });
    Some(wire)
}

// Brings up a line on the wire, and writes its frames to this file. Tells whether all were written.
fn is_captured_in(rt: &impl Wait, alloc: Global, fate: Fate, front: Front<'_>) -> Option<bool> {
    let capture = Capture::begin(front).ok()?;
    let still = Still { _handle: rt };
    let clock = PracticeClock::new();
    let progress: Option<&Progress<Vec<u8>>> = None;
    let wire = ObservedWire::new(
        wire_with(alloc, &clock, fate)?,
        Some(&capture),
        progress,
        &still,
    );
    let _found = bring_up(
        alloc,
        &mut NumberedWire::new(wire, 7),
        &clock,
        &Sizes::unknown(),
    )
    .is_ok();
    Some(capture.end().is_ok())
}

// Writes bytes over others, from a place on, if there is room.
fn put(bytes: &mut [u8], from: usize, new: &[u8]) {
    if let Some(room) = bytes.get_mut(from..from.saturating_add(new.len())) {
        room.copy_from_slice(new);
    }
}

// The first bytes of a capture with these records.
fn spelt(records: &[Noted]) -> [u8; LOOKED_AT] {
    let mut bytes = [0u8; LOOKED_AT];
    put(&mut bytes, 0, HEADER);
    let mut at = HEADER.len();
    for (way, frame) in records {
        put(&mut bytes, at, BEFORE);
        put(&mut bytes, at.saturating_add(22), *way);
        put(&mut bytes, at.saturating_add(30), *frame);
        at = at.saturating_add(76);
    }
    bytes
}

// Whether a capture begins with these records, and ends there if it has fewer bytes than are looked at, where the first frame has this fate.
fn is_captured(rt: &impl Wait, alloc: Global, fate: Fate, records: &[Noted]) -> bool {
    let seen = Seen {
        agreeing: AtomicU64::new(0),
        differing: AtomicU64::new(0),
    };
    let front = Front {
        wanted: &spelt(records),
        seen: &seen,
    };
    let count = HEADER
        .len()
        .saturating_add(records.len().saturating_mul(76));
    is_captured_in(rt, alloc, fate, front) == Some(true)
        && seen.agreeing.load(SeqCst) == count as u64
        && seen.differing.load(SeqCst) == 0
}

#[test]
fn frames_are_captured_as_they_go(rt: HostRuntime) {
    for (fate, records) in CASES {
        assert!(rt; is_captured(&rt, rt.alloc(), *fate, *records));
    }
}
