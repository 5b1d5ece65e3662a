//! The process half of a slave, datagram by datagram.

use crate::devices::{Device, ZERO, words_of};
use ecat_frame::{Command, fp};
use esc_model::ProcessHalf;
use std::alloc::Global;

const STATION: u16 = 0x1001;

// A slave: its FMMUs, where its memory holds bytes, and these bytes; the content of an LRW that comes to it and that goes on; what the
// slave adds to the working counter, and the byte at 0x1100 after it.
type Slave = (
    &'static [[u8; 16]],
    u16,
    &'static [u8],
    [u8; 7],
    [u8; 7],
    u16,
    u8,
);

const LINE: &[Slave] = &[
    (
        &[
            [0, 0, 0, 0, 1, 0, 0, 7, 0x00, 0x11, 0, 2, 1, 0, 0, 0],
            [1, 0, 0, 0, 4, 0, 0, 7, 0x80, 0x11, 0, 1, 1, 0, 0, 0],
        ],
        0x1180,
        &[0x11, 0x22, 0x33, 0x44],
        [0xaa, 0, 0, 0, 0, 0, 0],
        [0xaa, 0x11, 0x22, 0x33, 0x44, 0, 0],
        3,
        0xaa,
    ),
    (
        &[[5, 0, 0, 0, 2, 0, 0, 7, 0x00, 0x10, 0, 1, 1, 0, 0, 0]],
        0x1000,
        &[0x55, 0x06],
        [0xaa, 0x11, 0x22, 0x33, 0x44, 0, 0],
        [0xaa, 0x11, 0x22, 0x33, 0x44, 0x55, 0x06],
        1,
        0x00,
    ),
];

// An FMMU, and what an LRW of `01 02` at logical address 1 adds to the working counter and reads, if the memory from 0x1000 on is `a0 a1`.
const RANGES: &[([u8; 16], u16, [u8; 2])] = &[
    (
        [1, 0, 0, 0, 2, 0, 0, 7, 0x00, 0x10, 0, 1, 1, 0, 0, 0],
        1,
        [0xa0, 0xa1],
    ),
    (
        [1, 0, 0, 0, 2, 0, 0, 7, 0x00, 0x10, 0, 3, 1, 0, 0, 0],
        3,
        [0xa0, 0xa1],
    ),
    (
        [2, 0, 0, 0, 1, 0, 0, 7, 0x01, 0x10, 0, 1, 3, 0, 0, 0],
        1,
        [1, 0xa1],
    ),
    (
        [1, 0, 0, 0, 2, 0, 0, 7, 0x00, 0x10, 0, 1, 0, 0, 0, 0],
        0,
        [1, 2],
    ),
    (
        [1, 0, 0, 0, 0, 0, 0, 7, 0x00, 0x10, 0, 3, 1, 0, 0, 0],
        0,
        [1, 2],
    ),
    (
        [1, 0, 0, 0, 3, 0, 0, 7, 0x00, 0x10, 0, 1, 1, 0, 0, 0],
        0,
        [1, 2],
    ),
    (
        [0, 0, 0, 0, 2, 0, 0, 7, 0x00, 0x10, 0, 1, 1, 0, 0, 0],
        0,
        [1, 2],
    ),
    (
        [1, 0, 0, 0, 2, 0, 0, 7, 0xff, 0x0f, 0, 1, 1, 0, 0, 0],
        0,
        [1, 2],
    ),
    (
        [1, 0, 0, 0, 2, 0, 0, 7, 0xff, 0xff, 0, 1, 1, 0, 0, 0],
        0,
        [1, 2],
    ),
];

// An address, a number of bytes, and what a read and a write of them add to the working counter.
const GUARDED: &[(u32, usize, u16, u16)] = &[
    (0x0010_1001, 4, 1, 0),
    (0x000f_1001, 2, 0, 0),
    (0x0013_1001, 2, 0, 0),
    (0x0600_1001, 128, 1, 1),
    (0x067f_1001, 2, 0, 0),
    (0x0800_1001, 128, 1, 1),
    (0x0fff_1001, 2, 0, 0),
    (0x1000_1001, 1, 1, 1),
    (0x1000_1002, 1, 0, 0),
    (0xffff_1001, 1, 1, 1),
    (0xffff_1001, 2, 0, 0),
    (0x1000_1001, 0, 0, 0),
];

// Writes FMMUs, one after another.
fn write_units(half: &mut ProcessHalf, units: &[[u8; 16]]) {
    let mut register = 0x0600u16;
    for unit in units {
        let mut content = *unit;
        half.take(Command::Fpwr, fp(STATION, register), &mut content);
        register = register.wrapping_add(16);
    }
}

// Puts bytes into the memory from `place` on.
fn stand(half: &mut ProcessHalf, place: u16, memory: &[u8]) {
    let mut address = place;
    for byte in memory {
        if address >= 0x1000 {
            half.poke(address, *byte);
        }
        address = address.saturating_add(1);
    }
}

// The process half of such a slave at this station, with these bytes in its memory from `place` on.
pub(super) fn half_of(
    alloc: Global,
    device: &Device,
    station: u16,
    place: u16,
    memory: &[u8],
) -> Option<ProcessHalf> {
    match words_of(alloc, device) {
        Some(words) => {
            let mut half = ProcessHalf::power_up(alloc, &words, station).ok()?;
            stand(&mut half, place, memory);
            Some(half)
        }
        None => None,
    }
}

// Whether a copy has this byte at 0x1100.
fn is_copied(half: &ProcessHalf, byte: u8) -> bool {
    match half.try_copy() {
        Ok(copy) => copy.peek(0x1100) == byte,
        Err(_refused) => false,
    }
}

// Whether the LRW passes the slave so.
fn passes(half: &mut ProcessHalf, slave: &Slave) -> bool {
    let (units, _place, _memory, sent, back, counter, output) = slave;
    let mut content = *sent;
    write_units(half, units);
    half.take(Command::Lrw, 0, &mut content) == *counter
        && content == *back
        && is_copied(half, *output)
}

// Whether the LRW passes the slave so, once its memory holds its bytes.
fn is_passed(alloc: Global, slave: &Slave) -> bool {
    match half_of(alloc, &ZERO, STATION, slave.1, slave.2) {
        Some(mut half) => passes(&mut half, slave),
        None => false,
    }
}

// Whether the LRW adds this to the working counter and reads this at a half with this FMMU. Where it writes, that is the byte at 0x1000.
fn is_mapped(half: &mut ProcessHalf, unit: &[u8; 16], counter: u16, reads: [u8; 2]) -> bool {
    let mut content = [1u8, 2];
    write_units(half, &[*unit]);
    stand(half, 0x1000, &[0xa0, 0xa1]);
    let byte = if counter == 3 { 1 } else { 0xa0 };
    half.take(Command::Lrw, 1, &mut content) == counter
        && content == reads
        && half.peek(0x1000) == byte
}

// Whether each FMMU maps its ranges as `RANGES` says.
fn are_mapped(half: &mut ProcessHalf) -> bool {
    for (unit, counter, reads) in RANGES {
        if !is_mapped(half, unit, *counter, *reads) {
            return false;
        }
    }
    true
}

// What a datagram of `count` zeros adds to its working counter.
fn added(half: &mut ProcessHalf, command: Command, address: u32, count: usize) -> u16 {
    let mut content = [0u8; 256];
    half.take(command, address, &mut content[..count % 256])
}

// Whether reads and writes of each address add what `GUARDED` says.
fn is_guarded(half: &mut ProcessHalf) -> bool {
    for (address, count, read, write) in GUARDED {
        let is_so = added(half, Command::Fprd, *address, *count) == *read
            && added(half, Command::Fpwr, *address, *count) == *write;
        if !is_so {
            return false;
        }
    }
    true
}

// The station address and the alias that a half shows.
fn identification(half: &mut ProcessHalf) -> [u8; 4] {
    let mut content = [0u8; 4];
    half.take(Command::Fprd, 0x0010_1001, &mut content);
    content
}

// Whether reads and writes are guarded, the half still shows its station address and alias after them, and its FMMUs map whole ranges.
fn keeps_its_memory(alloc: Global) -> bool {
    match half_of(alloc, &ZERO, STATION, 0x1000, &[]) {
        Some(mut half) => {
            is_guarded(&mut half)
                && identification(&mut half) == [0x01, 0x10, 0, 0]
                && are_mapped(&mut half)
        }
        None => false,
    }
}

#[test]
fn a_line_exchanges_data_and_keeps_its_memory(rt: HostRuntime) {
    for slave in LINE {
        assert!(rt; is_passed(rt.alloc(), slave));
    }
    assert!(rt; keeps_its_memory(rt.alloc()));
}
