//! Frames as bytes.

use ecat_frame::{Command, Frame, FrameFault, fp};

// An FPWR of 8 bytes at 0x0502 of station 0x1001.
const ISSUE: &[u8] = &[
    0x14, 0x10, 5, 0, 0x01, 0x10, 0x02, 0x05, 8, 0, 0, 0, 0x01, 0x02, 4, 0, 0, 0, 1, 0, 0, 0,
];

// Bytes, and the frame that they are.
#[derive(Clone, Copy)]
enum Case {
    // A command, its address and its content, and the bytes of a frame with only this datagram.
    Spelled(Command, u32, &'static [u8], &'static [u8]),
    // Bytes that are no frame, and the place of the first fault.
    Broken(&'static [u8], usize),
    // A frame, its number of datagrams, and their canonical encoding.
    Read(&'static [u8], usize, &'static [u8]),
}

const CASES: &[Case] = &[
    Case::Spelled(
        Command::Fpwr,
        0x0502_1001,
        &[0x01, 0x02, 4, 0, 0, 0, 1, 0],
        ISSUE,
    ),
    Case::Spelled(
        Command::Fpwr,
        0x0502_1001,
        &[0x00, 0x01, 8, 0, 0, 0],
        &[
            0x12, 0x10, 5, 0, 0x01, 0x10, 0x02, 0x05, 6, 0, 0, 0, 0x00, 0x01, 8, 0, 0, 0, 0, 0,
        ],
    ),
    Case::Spelled(
        Command::Fprd,
        0x0502_1001,
        &[0, 0],
        &[
            0x0e, 0x10, 4, 0, 0x01, 0x10, 0x02, 0x05, 2, 0, 0, 0, 0, 0, 0, 0,
        ],
    ),
    Case::Spelled(
        Command::Fprd,
        0x0508_1001,
        &[0; 4],
        &[
            0x10, 0x10, 4, 0, 0x01, 0x10, 0x08, 0x05, 4, 0, 0, 0, 0, 0, 0, 0, 0, 0,
        ],
    ),
    Case::Spelled(
        Command::Lrw,
        0,
        &[0xaa, 0, 0, 0, 0, 0, 0],
        &[
            0x13, 0x10, 12, 0, 0, 0, 0, 0, 7, 0, 0, 0, 0xaa, 0, 0, 0, 0, 0, 0, 0, 0,
        ],
    ),
    // Another type.
    Case::Broken(&[0x14, 0x20, 0, 0], 1),
    // Too few bytes for a datagram.
    Case::Broken(&[5, 0x10, 4, 0, 0, 0, 0], 2),
    // Content and working counter are cut off.
    Case::Broken(
        &[
            0x14, 0x10, 5, 0, 0x01, 0x10, 0x02, 0x05, 9, 0, 0, 0, 0x01, 0x02, 4, 0, 0, 0, 1, 0, 0,
            0,
        ],
        2,
    ),
    // Bit 15 is set, but no datagram follows.
    Case::Broken(
        &[
            0x14, 0x10, 5, 0, 0x01, 0x10, 0x02, 0x05, 8, 0x80, 0, 0, 0x01, 0x02, 4, 0, 0, 0, 1, 0,
            0, 0,
        ],
        22,
    ),
    // Two surplus bytes inside the stated length.
    Case::Broken(
        &[
            0x16, 0x10, 5, 0, 0x01, 0x10, 0x02, 0x05, 8, 0, 0, 0, 0x01, 0x02, 4, 0, 0, 0, 1, 0, 0,
            0, 0, 0,
        ],
        22,
    ),
    // The stated length is greater than the number of bytes that follow.
    Case::Broken(
        &[
            0x22, 0x10, 4, 0, 0x01, 0x10, 0x02, 0x05, 2, 0x80, 0, 0, 0, 0, 0, 0, 5, 0, 0x01, 0x10,
            0x02, 0x05, 9, 0,
        ],
        0,
    ),
    // The second datagram is cut off.
    Case::Broken(
        &[
            0x16, 0x10, 4, 0, 0x01, 0x10, 0x02, 0x05, 2, 0x80, 0, 0, 0, 0, 0, 0, 5, 0, 0x01, 0x10,
            0x02, 0x05, 8, 0,
        ],
        16,
    ),
    // With padding.
    Case::Read(
        &[
            0x14, 0x10, 5, 0, 0x01, 0x10, 0x02, 0x05, 8, 0, 0, 0, 0x01, 0x02, 4, 0, 0, 0, 1, 0, 0,
            0, 0, 0, 0, 0, 0, 0, 0, 0, 0, 0, 0, 0, 0, 0, 0, 0, 0, 0, 0, 0, 0, 0, 0, 0,
        ],
        1,
        ISSUE,
    ),
    // With reserved bits, the circulating bit and an IRQ set.
    Case::Read(
        &[
            0x14, 0x18, 5, 0, 0x01, 0x10, 0x02, 0x05, 8, 0x78, 0x34, 0x12, 0x01, 0x02, 4, 0, 0, 0,
            1, 0, 0, 0,
        ],
        1,
        ISSUE,
    ),
    // Without datagrams.
    Case::Read(&[0, 0x10, 7, 7], 0, &[0, 0x10]),
];

// An index, the content and the counter with which the poll or the issue of one frame is answered, and the frame's bytes after that.
const ANSWERED: &[(usize, &[u8], u16, [u8; 36])] = &[
    (
        0,
        &[0x34, 0x12],
        0x0102,
        [
            0x22, 0x10, 4, 0, 0x01, 0x10, 0x02, 0x05, 2, 0x80, 0, 0, 0x34, 0x12, 2, 1, 5, 0, 0x01,
            0x10, 0x02, 0x05, 8, 0, 0, 0, 0x01, 0x02, 4, 0, 0, 0, 1, 0, 0, 0,
        ],
    ),
    (
        1,
        &[9; 8],
        1,
        [
            0x22, 0x10, 4, 0, 0x01, 0x10, 0x02, 0x05, 2, 0x80, 0, 0, 0x34, 0x12, 2, 1, 5, 0, 0x01,
            0x10, 0x02, 0x05, 8, 0, 0, 0, 9, 9, 9, 9, 9, 9, 9, 9, 1, 0,
        ],
    ),
];

// Whether these bytes are read as only this datagram, with a working counter of 0.
fn reads_as(bytes: &[u8], command: Command, address: u32, content: &[u8]) -> bool {
    let Ok(frame) = Frame::parse(bytes) else {
        return false;
    };
    if frame.count() != 1 {
        return false;
    }
    let datagram = frame.datagram(0);
    datagram.command == command
        && datagram.address == address
        && datagram.index == 0
        && datagram.counter == 0
        && datagram.content == content
}

// Whether a frame with only this datagram has these bytes.
fn is_spelled_as(command: Command, address: u32, content: &[u8], bytes: &[u8]) -> bool {
    let mut frame = Frame::new();
    frame.push(command, 0, address, content).is_ok() && frame.as_bytes() == bytes
}

// Whether these bytes are no frame, with the first fault at this place.
fn is_broken(bytes: &[u8], place: usize) -> bool {
    match Frame::parse(bytes) {
        Err(FrameFault::BadFrame { at }) => at == place,
        Err(FrameFault::FrameFull) | Ok(_) => false,
    }
}

// Whether these bytes are read as this number of datagrams, with this canonical encoding.
fn is_read_as(bytes: &[u8], count: usize, spelling: &[u8]) -> bool {
    let Ok(frame) = Frame::parse(bytes) else {
        return false;
    };
    frame.count() == count && frame.as_bytes() == spelling
}

// Whether the bytes are this frame, or none.
fn comes(case: &Case) -> bool {
    match *case {
        Case::Spelled(command, address, content, bytes) => {
            is_spelled_as(command, address, content, bytes)
                && reads_as(bytes, command, address, content)
        }
        Case::Broken(bytes, place) => is_broken(bytes, place),
        Case::Read(bytes, count, spelling) => is_read_as(bytes, count, spelling),
    }
}

// Whether a frame that is cut off is none, and neither is one with a stated length above 1,498.
fn are_broken() -> bool {
    let mut long = [0u8; 1501];
    long[0] = 0xdb;
    long[1] = 0x15;
    let mut are_broken = is_broken(&long, 0);
    for count in 0..22usize {
        are_broken &= is_broken(&ISSUE[..count], 0);
    }
    are_broken
}

// A frame of as many datagrams without content as there is room for. Their codes and indices are 0, 1 and so on.
fn full_frame() -> Frame {
    let mut frame = Frame::new();
    for index in 0..200u8 {
        if frame.push(Command::Other(index), index, 0, &[]).is_err() {
            return frame;
        }
    }
    frame
}

// The number of datagrams, from the first one on, whose code and index are 0, 1 and so on.
fn counted_up(frame: &Frame) -> usize {
    let mut count = 0usize;
    for datagram in frame.datagrams() {
        if usize::from(datagram.index) != count || datagram.command.code() != datagram.index {
            return count;
        }
        count = count.saturating_add(1);
    }
    count
}

// Whether a frame has room for 124 datagrams. A code that has a variant of its own is read as that variant.
fn is_filled(frame: &Frame) -> bool {
    counted_up(frame) == 124
        && frame.count() == 124
        && is_read_as(frame.as_bytes(), 124, frame.as_bytes())
        && frame.datagram(4).command == Command::Fprd
}

// Whether a frame has these bytes once the datagram at index `k` is answered.
fn is_answered(frame: &mut Frame, k: usize, content: &[u8], counter: u16, bytes: &[u8]) -> bool {
    if k >= frame.count() || frame.datagram(k).content.len() != content.len() {
        return false;
    }
    frame.answer(k, content, counter);
    frame.as_bytes() == bytes
}

// Whether a frame of a poll and an issue has these bytes after each answer.
fn are_answered() -> bool {
    let mut frame = Frame::new();
    let mut are_so = frame.push(Command::Fprd, 0, 0x0502_1001, &[0, 0]).is_ok()
        && frame
            .push(Command::Fpwr, 0, 0x0502_1001, &ISSUE[12..20])
            .is_ok();
    for (k, content, counter, bytes) in ANSWERED {
        are_so &= is_answered(&mut frame, *k, content, *counter, bytes);
    }
    are_so
}

#[test]
fn frames_are_spelled_read_and_answered(rt: HostRuntime) {
    for case in CASES {
        assert!(rt; comes(case));
    }
    let is_address = fp(0x1001, 0x0502) == 0x0502_1001;
    assert!(rt; is_address && are_broken() && is_filled(&full_frame()) && are_answered());
}
