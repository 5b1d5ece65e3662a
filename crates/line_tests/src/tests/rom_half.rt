//! The EEPROM half of a slave, datagram by datagram.

use crate::devices::{Device, ZERO, put, words_of};
use ecat_frame::{Command, fp};
use esc_model::{Rest, RomHalf, WordWrite};
use std::alloc::Global;

const STATION: u16 = 0x1001;

// Something that is done with a half, and what must come of it.
#[derive(Clone, Copy)]
enum Act {
    // These bytes are written from a register on, and add this to the working counter.
    Write(u16, &'static [u8], u16),
    // These four bytes are read from a register on. What isn't read stays 0xff.
    Read(u16, [u8; 4]),
    // The status byte is this one, without bits 11 and 12.
    Poll(u8),
    // A datagram with this command, address and number of zeros adds this to the working counter.
    Take(Command, u32, usize, u16),
    // This number of datagrams pass, and a word is in flight after each.
    Pass(u32),
    // A word in flight ends so.
    End(Rest),
    // Word 4 has this value, and this word is in flight.
    Hold(u16, Option<WordWrite>),
    // This byte is written to 0x0500 (1 offers the EEPROM to the PDI), then control and status with the low byte of the address. The
    // status byte is this one, and 0 once the errors are cleared.
    Validate(u8, [u8; 3], u8),
    // A copy of the half has its words.
    IsCopied,
}

// Word 7 of a half, for how many datagrams it stays busy with a command, and what is done with it.
type Case = (u16, u32, &'static [Act]);

// The command to write 1 to word 4.
const ISSUE: &[u8] = &[0x01, 0x02, 4, 0, 0, 0, 1, 0];

const FLYING: Option<WordWrite> = Some(WordWrite { word: 4, value: 1 });

const CASES: &[Case] = &[
    (
        0x0030,
        1,
        &[
            Act::Write(0x0502, ISSUE, 1),
            Act::Hold(0, FLYING),
            Act::Poll(0x82),
            Act::Hold(0, FLYING),
            Act::Poll(0x02),
            Act::Hold(1, None),
        ],
    ),
    (
        0x0030,
        0,
        &[
            Act::Write(0x0502, &[0x00, 0x01, 8, 0, 0, 0], 1),
            Act::Read(0x0508, [0x21, 0x43, 0x65, 0x87]),
            Act::IsCopied,
        ],
    ),
    // Datagrams are counted.
    (0x0030, 0, &[Act::Write(0x0502, ISSUE, 1), Act::Poll(0x02)]),
    (
        0x0030,
        3,
        &[Act::Write(0x0502, ISSUE, 1), Act::Pass(3), Act::Poll(0x02)],
    ),
    (
        0x0030,
        9_999,
        &[
            Act::Write(0x0502, ISSUE, 1),
            Act::Pass(9_999),
            Act::Poll(0x02),
        ],
    ),
    // How a write ends. At an idle half nothing is changed.
    (
        0x0030,
        9,
        &[
            Act::End(Rest::Well),
            Act::Write(0x0502, ISSUE, 1),
            Act::End(Rest::Well),
            Act::Hold(1, None),
            Act::Poll(0x02),
        ],
    ),
    (
        0x0030,
        9,
        &[
            Act::End(Rest::Failed(7)),
            Act::Hold(0, None),
            Act::Write(0x0502, ISSUE, 1),
            Act::End(Rest::Failed(7)),
            Act::Hold(7, None),
            Act::Poll(0x22),
        ],
    ),
    (
        0x0030,
        9,
        &[
            Act::End(Rest::Torn(9)),
            Act::Hold(0, None),
            Act::Write(0x0502, ISSUE, 1),
            Act::End(Rest::Torn(9)),
            Act::Hold(9, None),
            Act::Poll(0x02),
        ],
    ),
    // Commands are validated.
    (
        0x0030,
        0,
        &[
            Act::Validate(0, [0x00, 0x02, 0], 0x42),
            Act::Validate(0, [0x01, 0x04, 0], 0x24),
            Act::Validate(0, [0x01, 0x02, 64], 0x22),
            Act::Validate(0, [0x01, 0x02, 63], 0x02),
            Act::Validate(0, [0x00, 0x02, 64], 0x62),
            Act::Validate(0, [0x00, 0x01, 63], 0x21),
            Act::Validate(0, [0x00, 0x01, 62], 0x01),
            Act::Validate(1, [0x00, 0x01, 0], 0x21),
            Act::Validate(1, [0x00, 0x02, 0], 0x62),
            Act::Validate(2, [0x01, 0x02, 0], 0x02),
        ],
    ),
    // An idle half, and then a busy one.
    (
        0x0030,
        99,
        &[
            Act::Take(Command::Fprd, 0x0500_1001, 16, 1),
            Act::Take(Command::Fprd, 0x0500_1002, 16, 0),
            Act::Take(Command::Fprd, 0x0500_1001, 0, 0),
            Act::Take(Command::Fprd, 0x0500_1001, 17, 0),
            Act::Take(Command::Fprd, 0x04ff_1001, 2, 0),
            Act::Take(Command::Fprd, 0x0510_1001, 1, 0),
            Act::Take(Command::Fpwr, 0x0500_1001, 2, 1),
            Act::Take(Command::Fpwr, 0x0501_1001, 2, 1),
            Act::Take(Command::Fpwr, 0x050f_1001, 1, 1),
            Act::Take(Command::Fpwr, 0x0502_1002, 1, 0),
            Act::Take(Command::Lrw, 0x0500_1001, 2, 0),
            Act::Take(Command::Other(1), 0x0500_1001, 2, 0),
            Act::Write(0x0502, &[0, 1], 1),
            Act::Take(Command::Fprd, 0x0500_1001, 16, 1),
            Act::Take(Command::Fprd, 0x0500_1002, 16, 0),
            Act::Take(Command::Fprd, 0x0500_1001, 0, 0),
            Act::Take(Command::Fprd, 0x0500_1001, 17, 0),
            Act::Take(Command::Fprd, 0x04ff_1001, 2, 0),
            Act::Take(Command::Fprd, 0x0510_1001, 1, 0),
            Act::Take(Command::Fpwr, 0x0500_1001, 2, 1),
            Act::Take(Command::Fpwr, 0x0501_1001, 2, 0),
            Act::Take(Command::Fpwr, 0x050f_1001, 1, 0),
            Act::Take(Command::Fpwr, 0x0502_1002, 1, 0),
            Act::Take(Command::Lrw, 0x0500_1001, 2, 0),
            Act::Take(Command::Other(1), 0x0500_1001, 2, 0),
        ],
    ),
    // After power-up the status shows whether the check byte is right.
    (0x0030, 0, &[Act::Read(0x0500, [0, 0, 0, 0x00])]),
    (0x0031, 0, &[Act::Read(0x0500, [0, 0, 0, 0x18])]),
    (0xff30, 0, &[Act::Read(0x0500, [0, 0, 0, 0x00])]),
];

// A half of 64 words: zeros, but for word 7, and for words 8 and 9.
fn half_of(alloc: Global, check: u16, delay: u32) -> Option<RomHalf> {
    let mut front = [0u8; 20];
    put(&mut front, 14, &check.to_le_bytes());
    put(&mut front, 16, &[0x21, 0x43, 0x65, 0x87]);
    let device = Device {
        front: &front,
        ..ZERO
    };
    match words_of(alloc, &device) {
        Some(words) => Some(RomHalf::power_up(words, STATION, delay)),
        None => None,
    }
}

// Writes these bytes, 16 at most, from a register on, and returns what that adds to the working counter.
fn write(half: &mut RomHalf, register: u16, bytes: &[u8]) -> u16 {
    let mut content = [0u8; 16];
    put(&mut content, 0, bytes);
    let count = bytes.len().min(16);
    half.take(Command::Fpwr, fp(STATION, register), &mut content[..count])
}

fn read(half: &mut RomHalf, register: u16) -> [u8; 4] {
    let mut content = [0xffu8; 4];
    half.take(Command::Fprd, fp(STATION, register), &mut content);
    content
}

// The status byte, without bits 11 and 12.
fn polled(half: &mut RomHalf) -> u8 {
    let mut content = [0xffu8; 2];
    half.take(Command::Fprd, fp(STATION, 0x0502), &mut content);
    content[1] % 8 + content[1] / 32 * 32
}

// What a datagram of `count` zeros adds to its working counter.
fn added(half: &mut RomHalf, command: Command, address: u32, count: usize) -> u16 {
    let mut content = [0u8; 32];
    half.take(command, address, &mut content[..count % 32])
}

// Whether a word stays in flight for this number of datagrams.
fn stays_busy(half: &mut RomHalf, datagrams: u32) -> bool {
    let mut is_busy = true;
    for _datagram in 0..datagrams {
        is_busy &= half.take(Command::Lrw, 0, &mut []) == 0 && half.in_flight().is_some();
    }
    is_busy
}

fn is_validated(half: &mut RomHalf, access: u8, order: &[u8; 3], status: u8) -> bool {
    write(half, 0x0500, &[access]) == 1
        && write(half, 0x0502, &[order[0], order[1], order[2], 0, 0, 0]) == 1
        && polled(half) == status
        && write(half, 0x0500, &[0]) == 1
        && write(half, 0x0502, &[0, 0]) == 1
        && polled(half) == 0
}

pub(crate) fn is_copied(half: &RomHalf) -> bool {
    match half.try_copy() {
        Ok(copy) => copy.words().as_slice() == half.words().as_slice(),
        Err(_memory) => false,
    }
}

// Whether word 4 has this value, and this word is in flight.
fn holds(half: &RomHalf, alias: u16, write: &Option<WordWrite>) -> bool {
    half.words().alias() == alias && half.in_flight() == *write
}

// Whether the act has come to what it must.
fn comes(half: &mut RomHalf, act: &Act) -> bool {
    match act {
        Act::Write(register, bytes, counter) => write(half, *register, bytes) == *counter,
        Act::Read(register, bytes) => read(half, *register) == *bytes,
        Act::Poll(status) => polled(half) == *status,
        Act::Take(command, address, count, counter) => {
            added(half, *command, *address, *count) == *counter
        }
        Act::Pass(datagrams) => stays_busy(half, *datagrams),
        Act::End(rest) => {
            half.rest(*rest);
            true
        }
        Act::Hold(alias, write) => holds(half, *alias, write),
        Act::Validate(access, order, status) => is_validated(half, *access, order, *status),
        Act::IsCopied => is_copied(half),
    }
}

fn all_come(half: &mut RomHalf, acts: &[Act]) -> bool {
    for act in acts {
        if !comes(half, act) {
            return false;
        }
    }
    true
}

// Whether all acts come to what they must.
fn goes_so(alloc: Global, check: u16, delay: u32, acts: &[Act]) -> bool {
    match half_of(alloc, check, delay) {
        Some(mut half) => all_come(&mut half, acts),
        None => false,
    }
}

#[test]
fn datagrams_come_to_what_they_must(rt: HostRuntime) {
    for (check, delay, acts) in CASES {
        assert!(rt; goes_so(rt.alloc(), *check, *delay, acts));
    }
}
