//! Lines in memory, with a site for each part, and the trouble planned for them.

ghost use Rattle.std.specs.Prelude.{◌≡◌, ◌+◌, length};
ghost use Rattle.station_threads.specs.Sites.{OwnParts};
ghost use Rattle.site_shadow.specs.Parts.{site_of as made_of};
ghost use Rattle.site_shadow.specs.Site.{SiteValue};

use crate::line::{Plan, words_of};
use crate::memory::{put, zeros};
use esc_model::{FIRST_STATION, ProcessHalf, RomHalf};
use jrn_format::header;
use runner_cases::bytes::patch;
use site_mem::{MemSite, Parts, Pattern};
use station_threads::{Sites, own_parts};
use std::alloc::Global;
use std::process::Abort;

/// A part of a line.
#[derive(Clone, Copy, PartialEq)]
pub(crate) enum Part {
    Disk,
    Slave(u16),
}

/// What goes wrong on a part of a line.
#[derive(Clone, Copy)]
pub(crate) enum Trouble {
    Nothing,
    /// This part stops after this many writes.
    Stops(Part, u64, Pattern),
    /// The next writes of this slave, this many, end in error.
    WordsFail(u16, u32),
}

/// A slave is busy with a word for this many datagrams.
const DELAY: u32 = 3;

/// A slave's number, or a number of slaves, in 16 bits.
pub(crate) fn number_of(slave: usize) -> u16 {
    u16::try_from(slave).unwrap_or(0)
}

/// The station address of a slave.
fn station_of(slave: usize) -> u16 {
    FIRST_STATION.wrapping_add(number_of(slave))
}

/// How many words each slave has.
fn sizes_of(rt: &impl Abort, alloc: Global, plan: &Plan) -> Vec<u16> {
    let mut sizes = Vec::new(alloc);
    for _slave in plan.slaves {
        put(rt, &mut sizes, plan.words);
    }
    sizes
}

/// The EEPROM half of the slave at this place, just switched on, if it is the wanted one.
fn half_at(
    rt: &impl Abort,
    alloc: Global,
    plan: &Plan,
    place: usize,
    wanted: Option<usize>,
) -> Option<RomHalf> {
    if wanted != Some(place) {
        return None;
    }
    let words = words_of(rt, alloc, plan, place);
    Some(RomHalf::power_up(words, station_of(place), DELAY))
}

/// The EEPROM half of one slave, just switched on, and none of the others; or none at all.
fn halves_with(
    rt: &impl Abort,
    alloc: Global,
    plan: &Plan,
    wanted: Option<usize>,
) -> Vec<Option<RomHalf>> {
    let mut halves = Vec::new(alloc);
    for place in 0..plan.slaves.len() {
        put(rt, &mut halves, half_at(rt, alloc, plan, place, wanted));
    }
    halves
}

/// The site of these parts.
pub(crate) fn site_of(rt: &impl Abort, alloc: Global, parts: Parts) -> MemSite
    ensures { result ≡ made_of parts }
{
    assert!(rt; parts.is_complete());
    MemSite::of_parts(alloc, parts)
}

/// The bytes of the disk, formatted.
fn disk_bytes(rt: &impl Abort, alloc: Global, plan: &Plan) -> Vec<u8>
    ensures { length result.items ≡ 8 + plan.now.area }
{
    let mut bytes = zeros(rt, alloc, 8 + plan.area as usize);
    patch(
        &mut bytes,
        0,
        &header(number_of(plan.slaves.len()), plan.area),
    );
    bytes
}

/// Plans the trouble on the site of a part, if it is about this part.
fn befall(site: &mut MemSite, part: Part, trouble: Trouble)
    ensures { site.new ≡ site.old }
{
    match trouble {
        Trouble::Nothing => {}
        Trouble::Stops(which, writes, pattern) => {
            if which == part {
                site.fuse(writes, pattern);
            }
        }
        Trouble::WordsFail(slave, words) => {
            if part == Part::Slave(slave) {
                site.fail_writes(slave, words);
            }
        }
    }
}

/// The disk of the line.
fn disk_of(rt: &impl Abort, alloc: Global, plan: &Plan, trouble: Trouble) -> MemSite
    ensures { length result.seen.state.disk.bytes ≡ 8 + plan.now.area }
{
    let parts = Parts {
        sizes: sizes_of(rt, alloc, plan),
        disk: Some(disk_bytes(rt, alloc, plan)),
        halves: halves_with(rt, alloc, plan, None),
        process: None,
    };
    let mut site = site_of(rt, alloc, parts);
    befall(&mut site, Part::Disk, trouble);
    site
}

/// A slave of the line.
fn slave_of(
    rt: &impl Abort,
    alloc: Global,
    plan: &Plan,
    slave: usize,
    trouble: Trouble,
) -> MemSite {
    let parts = Parts {
        sizes: sizes_of(rt, alloc, plan),
        disk: None,
        halves: halves_with(rt, alloc, plan, Some(slave)),
        process: None,
    };
    let mut site = site_of(rt, alloc, parts);
    befall(&mut site, Part::Slave(number_of(slave)), trouble);
    site
}

/// The slaves of the line.
fn slaves_of(rt: &impl Abort, alloc: Global, plan: &Plan, trouble: Trouble) -> Vec<MemSite> {
    let mut sites = Vec::new(alloc);
    for slave in 0..plan.slaves.len() {
        put(rt, &mut sites, slave_of(rt, alloc, plan, slave, trouble));
    }
    sites
}

/// The process half of a slave, with 0x77 at 0x1100.
fn process_half(rt: &impl Abort, alloc: Global, plan: &Plan, slave: usize) -> ProcessHalf {
    let words = words_of(rt, alloc, plan, slave);
    let station = station_of(slave);
    let mut half = match ProcessHalf::power_up(alloc, &words, station) {
        Ok(half) => half,
        Err(_refused) => ProcessHalf::power_up(alloc, &words, station).expect(rt, "memory"),
    };
    half.poke(0x1100, 0x77);
    half
}

/// The process halves of the line.
fn process_of(rt: &impl Abort, alloc: Global, plan: &Plan) -> Vec<ProcessHalf> {
    let mut halves = Vec::new(alloc);
    for slave in 0..plan.slaves.len() {
        put(rt, &mut halves, process_half(rt, alloc, plan, slave));
    }
    halves
}

/// The site of the process halves, if the line exchanges process data.
fn cycle_of(rt: &impl Abort, alloc: Global, plan: &Plan) -> Option<MemSite> {
    if !plan.has_cycle {
        return None;
    }
    let parts = Parts {
        sizes: sizes_of(rt, alloc, plan),
        disk: None,
        halves: halves_with(rt, alloc, plan, None),
        process: Some(process_of(rt, alloc, plan)),
    };
    Some(site_of(rt, alloc, parts))
}

/// The sites of the line.
pub(crate) fn sites_of(
    rt: &impl Abort,
    alloc: Global,
    plan: &Plan,
    trouble: Trouble,
) -> Sites<MemSite>
    ensures owned { OwnParts (λ (site : SiteValue). site.line) result.disk result.slaves.items result.cycle }
    ensures long { length result.disk.seen.state.disk.bytes ≡ 8 + plan.now.area }
{
    let sites = Sites {
        disk: disk_of(rt, alloc, plan, trouble),
        slaves: slaves_of(rt, alloc, plan, trouble),
        cycle: cycle_of(rt, alloc, plan),
    };
    assert!(rt; own_parts(&sites));
    sites
}
