//! The frames that access to an EEPROM and to process data sends, byte by byte. The frames of an issue, a read, a poll, a fetch and a turn
//! are those of the format's description; the others were spelt by hand: two bytes of header with the length of the datagram, then command
//! (4 reads, 5 writes), index, station, register, length, IRQ, content and working counter.

use super::access::{self, Access, TAKEN, WRITTEN};
use super::recorder::Recorder;
use super::{ISSUE, line};
use crate::devices::put;
use esc_rom::RomFault;
use site_core::{Issued, Settled};
use std::alloc::Global;

// Forces access for the station, and ends that.
const FORCE: &[u8] = &[
    0x0d, 0x10, 5, 0, 0x01, 0x10, 0x00, 0x05, 1, 0, 0, 0, 0x02, 0, 0,
];

const ALLOW: &[u8] = &[
    0x0d, 0x10, 5, 0, 0x01, 0x10, 0x00, 0x05, 1, 0, 0, 0, 0x00, 0, 0,
];

const POLL: &[u8] = &[
    0x0e, 0x10, 4, 0, 0x01, 0x10, 0x02, 0x05, 2, 0, 0, 0, 0, 0, 0, 0,
];

// Clears the errors.
const CLEAR: &[u8] = &[
    0x0e, 0x10, 5, 0, 0x01, 0x10, 0x02, 0x05, 2, 0, 0, 0, 0, 0, 0, 0,
];

// Asks for words 8 and 9, and for words 0 and 1.
const READ: &[u8] = &[
    0x12, 0x10, 5, 0, 0x01, 0x10, 0x02, 0x05, 6, 0, 0, 0, 0x00, 0x01, 8, 0, 0, 0, 0, 0,
];

const READ_0: &[u8] = &[
    0x12, 0x10, 5, 0, 0x01, 0x10, 0x02, 0x05, 6, 0, 0, 0, 0x00, 0x01, 0, 0, 0, 0, 0, 0,
];

const FETCH: &[u8] = &[
    0x10, 0x10, 4, 0, 0x01, 0x10, 0x08, 0x05, 4, 0, 0, 0, 0, 0, 0, 0, 0, 0,
];

// The fault of a slave that is given up.
const DEAD: RomFault = RomFault::SlaveDead { slave: 0 };

const OPENED: Access = Access::Open(0, Ok(()));

const GIVEN_UP: Access = Access::Open(0, Err(DEAD));

// What wasn't taken is settled.
const CLEARED: Access = Access::Settle(0, false, Ok(Settled::Again));

// The word is issued again while the slave is busy with it.
const NOT_TAKEN: Access = Access::Issue(0, Ok(Issued::NotTaken));

// For how many datagrams the slave stays busy with a command, how many frames pass, how many are lost then, what is done with slave 0,
// and the frames that are sent. A frame that must be taken is sent three times at most.
type Sent = (u32, u32, u32, &'static [Access], &'static [&'static [u8]]);

const SENT: &[Sent] = &[
    (0, 0, 0, &[OPENED], &[FORCE, ALLOW, POLL, CLEAR]),
    (0, 0, 0, &[TAKEN, WRITTEN], &[ISSUE, POLL]),
    (2, 0, 0, &[TAKEN, WRITTEN], &[ISSUE, POLL, POLL, POLL]),
    (
        3,
        0,
        0,
        &[TAKEN, NOT_TAKEN, CLEARED],
        &[ISSUE, ISSUE, POLL, POLL, POLL, CLEAR],
    ),
    (0, 0, 0, &[CLEARED], &[POLL, CLEAR]),
    (
        0,
        0,
        2,
        &[OPENED],
        &[FORCE, FORCE, FORCE, ALLOW, POLL, CLEAR],
    ),
    (0, 0, 3, &[GIVEN_UP], &[FORCE, FORCE, FORCE]),
    (0, 1, 3, &[GIVEN_UP], &[FORCE, ALLOW, ALLOW, ALLOW]),
    (
        0,
        3,
        3,
        &[GIVEN_UP],
        &[FORCE, ALLOW, POLL, CLEAR, CLEAR, CLEAR],
    ),
    (
        0,
        1,
        3,
        &[Access::Read(Err(DEAD))],
        &[POLL, READ_0, READ_0, READ_0],
    ),
];

// Whether all of this comes, one after another.
fn all_come(alloc: Global, site: &mut Recorder, accesses: &[Access]) -> bool {
    let mut come = true;
    for access in accesses {
        come &= access::comes(alloc, site, access);
    }
    come
}

// Whether this comes on a line whose slave stays busy for `delay` datagrams, and sends these frames.
fn sends(
    alloc: Global,
    delay: u32,
    lost: (u32, u32),
    accesses: &[Access],
    frames: &[&[u8]],
) -> bool {
    let Some(site) = line(alloc, delay) else {
        return false;
    };
    let mut recorder = Recorder::of(alloc, site, lost.0, lost.1);
    let sends = all_come(alloc, &mut recorder, accesses) && recorder.has_sent(frames);
    recorder.end();
    sends
}

// The frames by which all 64 words are read: a poll, and for each pair of words a read, a poll and a fetch.
fn frames_of_a_read() -> [u8; 1744] {
    let mut frames = [0u8; 1744];
    put(&mut frames, 0, POLL);
    for pair in 0..32u8 {
        let at = 16 + 54 * usize::from(pair);
        put(&mut frames, at, READ);
        put(&mut frames, at + 14, &[2 * pair]);
        put(&mut frames, at + 20, POLL);
        put(&mut frames, at + 36, FETCH);
    }
    frames
}

#[test]
fn words_are_written_and_read_by_these_frames(rt: HostRuntime) {
    for (delay, passing, losing, accesses, frames) in SENT {
        assert!(rt; sends(rt.alloc(), *delay, (*passing, *losing), accesses, frames));
    }
    let read = &[Access::Read(Ok(0))];
    assert!(rt; sends(rt.alloc(), 0, (0, 0), read, &[&frames_of_a_read()]));
}

// The zeros with which all FMMUs of a slave are cleared, and a working counter.
const ZEROS: &[u8] = &[0; 130];

// The frames that configure two slaves, and the one of a turn with the output 0xaa.
pub(super) const CYCLED: &[&[u8]] = &[
    &[0x8c, 0x10, 5, 0, 0x01, 0x10, 0x00, 0x06, 128, 0, 0, 0],
    ZEROS,
    &[
        0x14, 0x10, 5, 0, 0x01, 0x10, 0x10, 0x08, 8, 0, 0, 0, 0x00, 0x11, 0x01, 0x00, 0x24, 0x00,
        0x01, 0x00, 0, 0,
    ],
    &[
        0x1c, 0x10, 5, 0, 0x01, 0x10, 0x00, 0x06, 16, 0, 0, 0, 0, 0, 0, 0, 1, 0, 0, 7, 0x00, 0x11,
        0, 2, 1, 0, 0, 0, 0, 0,
    ],
    &[
        0x14, 0x10, 5, 0, 0x01, 0x10, 0x18, 0x08, 8, 0, 0, 0, 0x80, 0x11, 0x04, 0x00, 0x20, 0x00,
        0x01, 0x00, 0, 0,
    ],
    &[
        0x1c, 0x10, 5, 0, 0x01, 0x10, 0x10, 0x06, 16, 0, 0, 0, 1, 0, 0, 0, 4, 0, 0, 7, 0x80, 0x11,
        0, 1, 1, 0, 0, 0, 0, 0,
    ],
    &[0x8c, 0x10, 5, 0, 0x02, 0x10, 0x00, 0x06, 128, 0, 0, 0],
    ZEROS,
    &[
        0x14, 0x10, 5, 0, 0x02, 0x10, 0x00, 0x08, 8, 0, 0, 0, 0x00, 0x10, 0x02, 0x00, 0x20, 0x00,
        0x01, 0x00, 0, 0,
    ],
    &[
        0x1c, 0x10, 5, 0, 0x02, 0x10, 0x00, 0x06, 16, 0, 0, 0, 5, 0, 0, 0, 2, 0, 0, 7, 0x00, 0x10,
        0, 1, 1, 0, 0, 0, 0, 0,
    ],
    &[
        0x13, 0x10, 12, 0, 0, 0, 0, 0, 7, 0, 0, 0, 0xaa, 0, 0, 0, 0, 0, 0, 0, 0,
    ],
];
