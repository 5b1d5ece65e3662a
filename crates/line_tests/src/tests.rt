mod access;
mod frames;
mod process_data;
mod process_half;
mod recorder;
pub(crate) mod rom_half;
mod sent;
mod site_faults;

use crate::devices::{ZERO, put, words_of};
use ecat_frame::{Command, Frame, FrameFault, fp};
use esc_model::{ProcessHalf, RomHalf};
use site_core::Site;
use site_mem::{MemSite, Parts};
use std::alloc::Global;

// The site of these parts, if they fit together.
fn site_of(alloc: Global, parts: Parts) -> Option<MemSite> {
    if !parts.is_complete() {
        return None;
    }
    Some(MemSite::of_parts(alloc, parts))
}

// The EEPROM halves of slaves of 64 words with these station addresses. Each command keeps them busy for `delay` datagrams.
fn halves_of(alloc: Global, stations: &[u16], delay: u32) -> Option<Vec<Option<RomHalf>>> {
    let mut halves = Vec::new(alloc);
    for station in stations {
        let half = RomHalf::power_up(words_of(alloc, &ZERO)?, *station, delay);
        halves.push(Some(half)).ok()?;
    }
    Some(halves)
}

// A line of such slaves, and a disk, if there is one.
fn line_with(
    alloc: Global,
    stations: &[u16],
    delay: u32,
    disk: Option<Vec<u8>>,
) -> Option<MemSite> {
    let halves = halves_of(alloc, stations, delay)?;
    let sizes = vec![in alloc; 64u16; stations.len()].ok()?;
    let parts = Parts {
        sizes,
        disk,
        halves,
        process: None,
    };
    site_of(alloc, parts)
}

// A line of one slave with the station address 0x1001, without a disk.
fn line(alloc: Global, delay: u32) -> Option<MemSite> {
    line_with(alloc, &[0x1001], delay, None)
}

// An entry for each of `count` EEPROM halves, none of which the site owns.
fn no_halves(alloc: Global, count: usize) -> Option<Vec<Option<RomHalf>>> {
    let mut halves = Vec::new(alloc);
    for _slave in 0..count {
        halves.push(None).ok()?;
    }
    Some(halves)
}

// A line of slaves of 128 words. The site owns only these process halves.
fn process_line(alloc: Global, process: Vec<ProcessHalf>) -> Option<MemSite> {
    let count = process.len();
    let parts = Parts {
        sizes: vec![in alloc; 128u16; count].ok()?,
        disk: None,
        halves: no_halves(alloc, count)?,
        process: Some(process),
    };
    site_of(alloc, parts)
}

// The bytes that issue word 4 = 1 to slave 0.
const ISSUE: &[u8] = &[
    0x14, 0x10, 0x05, 0x00, 0x01, 0x10, 0x02, 0x05, 0x08, 0x00, 0x00, 0x00, 0x01, 0x02, 0x04, 0x00,
    0x00, 0x00, 0x01, 0x00, 0x00, 0x00,
];

// The bytes that come back.
const ISSUED: &[u8] = &[
    0x14, 0x10, 0x05, 0x00, 0x01, 0x10, 0x02, 0x05, 0x08, 0x00, 0x00, 0x00, 0x01, 0x02, 0x04, 0x00,
    0x00, 0x00, 0x01, 0x00, 0x01, 0x00,
];

// Whether a frame with only this datagram has the bytes `sent`, and comes back from slave 0 as `back`.
fn is_exchanged(
    site: &mut impl Site,
    command: Command,
    address: u32,
    content: &[u8],
    sent: &[u8],
    back: &[u8],
) -> bool {
    let mut frame = Frame::new();
    site.owns(0)
        && frame.push(command, 0, address, content).is_ok()
        && frame.as_bytes() == sent
        && site.exchange(0, &mut frame).is_ok()
        && frame.as_bytes() == back
}

// The longest datagram fills a frame of 1,500 bytes, and a slave passes it on unchanged. There is no room for one more byte.
fn longest_is_exchanged(site: &mut impl Site) -> bool {
    let content = [7u8; 1487];
    let mut bytes = [7u8; 1500];
    put(
        &mut bytes,
        0,
        &[0xda, 0x15, 0x0c, 0, 0, 0, 0, 0, 0xce, 0x05, 0, 0],
    );
    put(&mut bytes, 1498, &[0, 0]);
    Frame::new().push(Command::Lrw, 0, 0, &content) == Err(FrameFault::FrameFull)
        && is_exchanged(site, Command::Lrw, 0, &content[..1486], &bytes, &bytes)
}

// Whether the longest frame, and one that issues word 4 = 1, are exchanged.
fn are_exchanged(alloc: Global) -> bool {
    let Some(mut site) = line(alloc, 1) else {
        return false;
    };
    let address = fp(0x1001, 0x0502);
    let content = &ISSUE[12..20];
    let are_exchanged = longest_is_exchanged(&mut site)
        && is_exchanged(&mut site, Command::Fpwr, address, content, ISSUE, ISSUED);
    drop(site.into_parts());
    are_exchanged
}

#[test]
fn frames_are_exchanged(rt: HostRuntime) {
    assert!(rt; are_exchanged(rt.alloc()));
}
