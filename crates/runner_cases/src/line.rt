//! Lines in memory as rows of a table.

use crate::bytes::patch;
use esc_model::RomHalf;
use sii_words::Words;
use site_mem::Parts;
use std::alloc::Global;

/// A slave whose words are 0, except for its check byte and what its variant says.
#[derive(Clone, Copy)]
pub enum Slave {
    /// 64 words.
    Zero,
    /// 64 words, and alias 1.
    One,
    /// 4,096 words, whose categories end at word 64.
    Long,
    /// 512 words, and one sync manager, for outputs.
    Wide,
}

/// The slaves, and the disk: a header, the first bytes of each half of 2,048 bytes, and the number of bytes, 4,104 at most.
#[derive(Clone, Copy)]
pub struct Line {
    pub slaves: &'static [Slave],
    pub header: [u8; 8],
    pub first: &'static [u8],
    pub second: &'static [u8],
    pub count: usize,
}

/// One slave, two and three, with an empty journal.
pub const ALONE: Line = Line {
    slaves: &[Slave::Zero],
    header: [0xa5, 0x02, 0x01, 0x00, 0x00, 0x10, 0x00, 0x00],
    first: &[],
    second: &[],
    count: 4104,
};

pub const TWO: Line = Line {
    slaves: &[Slave::One, Slave::Zero],
    header: [0xa5, 0x02, 0x02, 0x00, 0x00, 0x10, 0x00, 0x00],
    ..ALONE
};

pub const THREE: Line = Line {
    slaves: &[Slave::Zero, Slave::Zero, Slave::Zero],
    header: [0xa5, 0x02, 0x03, 0x00, 0x00, 0x10, 0x00, 0x00],
    ..ALONE
};

/// The end mark of the categories, and a SyncM category in front of it.
const NOTHING: &[u8] = &[0xff, 0xff];

const OUTPUTS: &[u8] = &[
    41, 0, 4, 0, 0x00, 0x10, 0xce, 0x05, 0x24, 0x00, 0x01, 0x03, 0xff, 0xff,
];

fn words(alloc: Global, slave: Slave) -> Option<Words> {
    let (count, alias, check, categories) = match slave {
        Slave::Zero => (64, 0, 0x30, NOTHING),
        Slave::One => (64, 1, 0x19, NOTHING),
        Slave::Long => (4096, 0, 0x30, NOTHING),
        Slave::Wide => (512, 0, 0x30, OUTPUTS),
    };
    let mut bytes = vec![in alloc; 0u8; 2 * count].ok()?;
    patch(&mut bytes, 8, &[alias]);
    patch(&mut bytes, 14, &[check]);
    patch(&mut bytes, 128, categories);
    Words::from_bytes(alloc, &bytes).ok()
}

/// The words of the slaves. None: memory was refused.
pub fn plant_of(alloc: Global, slaves: &[Slave]) -> Option<Vec<Words>> {
    let mut plant = Vec::new(alloc);
    for slave in slaves {
        plant.push(words(alloc, *slave)?).ok()?;
    }
    Some(plant)
}

/// The EEPROM halves, each just powered up with its station address.
fn halves(alloc: Global, plant: &[Words]) -> Option<Vec<Option<RomHalf>>> {
    let mut halves = Vec::new(alloc);
    for (words, station) in plant.iter().zip(0x1001u16..0x1041) {
        let half = RomHalf::power_up(words.try_copy().ok()?, station, 0);
        halves.push(Some(half)).ok()?;
    }
    Some(halves)
}

fn sizes(alloc: Global, plant: &[Words]) -> Option<Vec<u16>> {
    let mut sizes = Vec::new(alloc);
    for words in plant {
        sizes.push(words.len() as u16).ok()?;
    }
    Some(sizes)
}

/// The bytes of the disk. None: memory was refused.
pub fn disk(alloc: Global, line: &Line) -> Option<Vec<u8>> {
    let mut bytes = vec![in alloc; 0u8; 4104].ok()?;
    patch(&mut bytes, 0, &line.header);
    patch(&mut bytes, 8, line.first);
    patch(&mut bytes, 2056, line.second);
    bytes.truncate(line.count);
    Some(bytes)
}

/// The parts of a line of slaves with these words, just switched on, and a disk with these bytes. None: memory was refused.
pub fn parts_with(alloc: Global, plant: &[Words], disk: Vec<u8>) -> Option<Parts> {
    let sizes = sizes(alloc, plant)?;
    let halves = halves(alloc, plant)?;
    Some(Parts {
        sizes,
        disk: Some(disk),
        halves,
        process: None,
    })
}

/// The parts of the line. None: memory was refused.
pub fn parts_of(alloc: Global, line: &Line) -> Option<Parts> {
    let plant = plant_of(alloc, line.slaves)?;
    parts_with(alloc, &plant, disk(alloc, line)?)
}
