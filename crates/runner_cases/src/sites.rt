//! Sites in memory: what goes wrong on them, how a station takes them and gives them back, and what they hold.

use esc_model::RomHalf;
use esc_rom::{RomFault, owns_all};
use jrn_format::JournalFault;
use site_core::{DeviceFault, Site};
use site_journal::ReadFault;
use site_mem::{MemSite, Parts, Pattern};
use station_alone::{Alone, OpenFault, recover};
use std::alloc::Global;

/// What goes wrong, counted from now on.
#[derive(Clone, Copy)]
pub enum Trouble {
    Nothing,
    /// This number of device writes pass, and the next is torn by the pattern. Opening a station takes one write.
    Fuse(u64, Pattern),
    /// This number of device calls pass, and the next fails.
    Call(u64),
    /// This number of words of slave 0 end in error.
    Words(u32),
}

/// What a torn write leaves.
pub const PATTERNS: [Pattern; 4] = [
    Pattern::Old,
    Pattern::New,
    Pattern::Fill(0x00a5),
    Pattern::Fill(0x5a5a),
];

fn set(site: &mut MemSite, trouble: &Trouble) {
    match *trouble {
        Trouble::Nothing => {}
        Trouble::Fuse(writes, pattern) => site.fuse(writes, pattern),
        Trouble::Call(calls) => site.fail_once(calls),
        Trouble::Words(words) => site.fail_writes(0, words),
    }
}

/// The site of these parts, on which this goes wrong. None if a part is missing.
pub fn site_of(alloc: Global, parts: Parts, trouble: &Trouble) -> Option<MemSite> {
    if !parts.is_complete() {
        drop(parts);
        return None;
    }
    let mut site = MemSite::of_parts(alloc, parts);
    set(&mut site, trouble);
    Some(site)
}

/// Takes the site out of its station.
pub fn off<S: Site>(station: Alone<S>) -> S {
    let (core, site) = station.into_parts();
    drop(core);
    site
}

/// Opens a station on the site.
pub fn open<S: Site>(alloc: Global, site: S) -> Result<Alone<S>, (S, OpenFault)> {
    if !site.has_disk() || !owns_all(&site) {
        return Err((site, OpenFault::Memory));
    }
    Alone::open(alloc, site)
}

/// Recovers the site. Returns the numbers of batches and commands found, and of issues.
pub fn recovered<S: Site>(alloc: Global, site: S) -> (S, Result<[u64; 3], OpenFault>) {
    if !site.has_disk() || !owns_all(&site) {
        return (site, Err(OpenFault::Memory));
    }
    match recover(alloc, site) {
        Ok((station, found)) => (
            off(station),
            Ok([found.batches, found.commands, found.words]),
        ),
        Err((site, fault)) => (site, Err(fault)),
    }
}

/// Whether a station wasn't opened, or a line not recovered, because memory was refused to it or to the disk.
pub fn is_memory(fault: OpenFault) -> bool {
    matches!(
        fault,
        OpenFault::Memory
            | OpenFault::Slave(RomFault::Memory)
            | OpenFault::Journal(
                ReadFault::Journal(JournalFault::Memory) | ReadFault::Device(DeviceFault::Disk),
            )
    )
}

/// The parts of a line after a recovery, and its fault. None if a part is missing.
pub fn recovery(alloc: Global, parts: Parts) -> Option<(Parts, Option<OpenFault>)> {
    let site = site_of(alloc, parts, &Trouble::Nothing)?;
    let (site, came) = recovered(alloc, site);
    Some((site.into_parts(), came.err()))
}

fn alias_of(halves: &[Option<RomHalf>], slave: usize) -> u16 {
    match halves.get(slave) {
        Some(Some(half)) => half.words().alias(),
        _ => 0,
    }
}

/// The aliases of the first three slaves, 0 for one that is missing.
pub fn aliases_of(parts: &Parts) -> [u16; 3] {
    let halves = parts.halves.as_slice();
    [
        alias_of(halves, 0),
        alias_of(halves, 1),
        alias_of(halves, 2),
    ]
}

/// Whether the disk holds these bytes from byte `at` on.
pub fn holds(parts: &Parts, at: usize, bytes: &[u8]) -> bool {
    match &parts.disk {
        Some(disk) => disk.get(at..at.saturating_add(bytes.len())) == Some(bytes),
        None => false,
    }
}
