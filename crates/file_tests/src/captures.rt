//! The file of a capture that is begun over something, or whose disk fails.

use line_watch::{BeginFault, Capture, Way};
use station_cases::{Pattern, Shelf, Trouble};
use station_files::Store;
use std::rt::Clock;
use std::sync::Wait;

/// What a file holds before: its first bytes, and how many it has (the others are 0); which call on it fails; whether all of three frames are
/// written then, `None` where the capture can't begin; and how many bytes the file has in the end.
type Case = (&'static [u8], usize, Trouble, Option<bool>, usize);

/// What a capture file begins with.
const HEADER: &[u8] = &[
    0x4d, 0x3c, 0xb2, 0xa1, 2, 0, 4, 0, 0, 0, 0, 0, 0, 0, 0, 0, 0xea, 0x05, 0, 0, 1, 0, 0, 0,
];

/// A frame: a NOP. Its record has 16 bytes, and 60 of an Ethernet frame.
const FRAME: &[u8] = &[0x0c, 0x10, 0, 0, 0, 0, 0, 0, 0, 0, 0, 0, 0, 0];

const CASES: &[Case] = &[
    (&[], 0, Trouble::Nothing, Some(true), 252),
    (HEADER, 24, Trouble::Nothing, Some(true), 252),
    (HEADER, 900, Trouble::Nothing, Some(true), 252),
    // Something else: of other bytes, and too short.
    (b"journal = ", 900, Trouble::Nothing, None, 900),
    (&[], 24, Trouble::Nothing, None, 24),
    (HEADER, 23, Trouble::Nothing, None, 23),
    // The file's opening, its emptying and its header are calls 0 to 2, and each record is one.
    (&[], 0, Trouble::Error(3), Some(false), 24),
    (HEADER, 900, Trouble::Error(5), Some(false), 176),
];

/// Whether a capture ends so. None: memory was refused, or the file couldn't be written as it began.
fn ends_so<R: Wait + Clock + AllocGlobal>(rt: &R, case: Case) -> Option<bool> {
    let (first, length, trouble, ended, left) = case;
    let mut bytes = first.to_vec(rt.alloc()).ok()?;
    bytes.truncate(length);
    bytes.resize(length, 0).ok()?;
    let mut shelf = Shelf::new(rt.alloc()).ok()?;
    shelf.put("c.pcap", &bytes).ok()?;
    shelf.trouble(trouble, Pattern::New).ok()?;
    let found = match Capture::begin(shelf.create("c.pcap").ok()?) {
        Ok(capture) => {
            for _frame in 0..3usize {
                capture.note(rt, Way::Out, FRAME);
            }
            Some(capture.end().is_ok())
        }
        Err(BeginFault::Occupied) => None,
        Err(BeginFault::Io(_)) => return None,
    };
    let held = shelf.bytes(rt.alloc(), "c.pcap").ok()??;
    Some(found == ended && held.len() == left)
}

#[test]
fn a_capture_takes_the_place_of_nothing_else(rt: HostRuntime) {
    for case in CASES {
        assert!(rt; ends_so(&rt, *case) == Some(true));
    }
}
