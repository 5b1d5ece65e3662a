//! Damaged journals: each is read, or refused by name before anything is sent or written.

use crate::failures::fails;
use crate::journals::{OF_0, OF_255, OLD};
use jrn_format::JournalFault::{self, BadJournal, NotAJournal};
use runner_cases::dice::Dice;
use runner_cases::line::{ALONE, Line, TWO, parts_of};
use runner_cases::runs::is_empty_journal;
use runner_cases::sites::Trouble::Call;
use runner_cases::sites::{off, open, recovered, site_of};
use site_journal::ReadFault;
use site_mem::{MemSite, Parts};
use station_alone::OpenFault;
use std::alloc::Global;

/// The call that reads a journal.
#[derive(Clone, Copy, PartialEq)]
pub(crate) enum Reader {
    Open,
    Recover,
}

pub(crate) const READERS: &[Reader] = &[Reader::Open, Reader::Recover];

/// What a journal was found to be.
#[derive(Clone, Copy, PartialEq)]
pub(crate) enum Verdict {
    Read,
    /// It was refused by name, and the site was handed back. The disk was synced, measured and read; nothing was sent or written.
    Refused(JournalFault),
    Wrong,
}

/// The site after the call, and its fault.
fn asked(alloc: Global, site: MemSite, reader: Reader) -> (MemSite, Option<OpenFault>) {
    if reader == Reader::Recover {
        let (site, came) = recovered(alloc, site);
        return (site, came.err());
    }
    match open(alloc, site) {
        Ok(station) => (off(station), None),
        Err((site, fault)) => (site, Some(fault)),
    }
}

/// What the fault says of the journal. Three device calls were made on the site, if the next is the one that fails.
fn refusal_of(site: &mut MemSite, fault: OpenFault) -> Verdict {
    match fault {
        OpenFault::Journal(ReadFault::Journal(why)) if fails(site) => Verdict::Refused(why),
        _ => Verdict::Wrong,
    }
}

/// The parts of the line after the call, and what the journal was found to be. A frame is lost once if the journal is read.
fn read(alloc: Global, parts: Parts, reader: Reader) -> Option<(Parts, Verdict)> {
    let (site, fault) = asked(alloc, site_of(alloc, parts, &Call(3))?, reader);
    let mut site = site;
    let found = match fault {
        Some(fault) => refusal_of(&mut site, fault),
        None => Verdict::Read,
    };
    Some((site.into_parts(), found))
}

/// What the journal of the line is found to be.
pub(crate) fn verdict_of(alloc: Global, line: &Line, reader: Reader) -> Option<Verdict> {
    let (parts, found) = read(alloc, parts_of(alloc, line)?, reader)?;
    drop(parts);
    Some(found)
}

/// Whether a journal cut to this number of bytes is refused by its length.
fn is_cut(alloc: Global, count: usize) -> bool {
    let line = Line { count, ..TWO };
    let why = if count < 8 {
        NotAJournal
    } else {
        BadJournal { at: count }
    };
    verdict_of(alloc, &line, Reader::Open) == Some(Verdict::Refused(why))
}

#[test]
fn journals_cut_short(rt: HostRuntime) {
    for count in 0..4104usize {
        assert!(rt; is_cut(rt.alloc(), count));
    }
}

/// Journals without damage: with nothing live, with batches in both halves, and of version 1.
const GOOD: &[Line] = &[
    ALONE,
    Line {
        first: OF_255,
        second: OF_0,
        ..ALONE
    },
    OLD,
];

/// Changes bytes near the beginning of the file or of the second half.
fn change(dice: &mut Dice, bytes: &mut [u8]) {
    for _byte in 0..4u8 {
        let half = dice.below(2).saturating_mul(2048);
        let at = half.saturating_add(dice.below(48));
        if let Some(byte) = bytes.get_mut(at) {
            *byte = dice.byte();
        }
    }
}

/// Writes a copy of a piece after it.
fn double(dice: &mut Dice, bytes: &mut [u8]) {
    let from = dice.below(2056);
    let count = dice.below(48);
    for at in from..from.saturating_add(count) {
        let value = bytes.get(at).copied().unwrap_or(0);
        if let Some(byte) = bytes.get_mut(at.saturating_add(count)) {
            *byte = value;
        }
    }
}

/// Exchanges the halves, if the journal has both.
fn exchange(bytes: &mut [u8]) {
    if bytes.len() == 4104 {
        bytes[8..].rotate_left(2048);
    }
}

/// Damages a journal in one of four ways.
fn damage(dice: &mut Dice, bytes: &mut Vec<u8>) {
    match dice.below(8) {
        0 => bytes.truncate(dice.below(4104)),
        1 | 2 => exchange(bytes.as_mut_slice()),
        3 | 4 => double(dice, bytes.as_mut_slice()),
        _ => change(dice, bytes.as_mut_slice()),
    }
}

/// The parts of a line whose journal was damaged once or more often.
fn damaged(alloc: Global, line: &Line, seed: u32) -> Option<Parts> {
    let mut parts = parts_of(alloc, line)?;
    let mut dice = Dice::of(seed);
    if let Some(disk) = &mut parts.disk {
        for _damage in 0..1usize.saturating_add(dice.below(3)) {
            damage(&mut dice, disk);
        }
    }
    Some(parts)
}

/// Whether a damaged journal is refused, or read and recovered. None if it is neither.
fn is_refused(alloc: Global, line: &Line, seed: u32, reader: Reader) -> Option<bool> {
    let (parts, found) = read(alloc, damaged(alloc, line, seed)?, reader)?;
    let is_recovered = reader == Reader::Open || is_empty_journal(&parts);
    drop(parts);
    match found {
        Verdict::Refused(JournalFault::Memory) | Verdict::Wrong => None,
        Verdict::Refused(_) => Some(true),
        Verdict::Read if is_recovered => Some(false),
        Verdict::Read => None,
    }
}

/// How many of these damaged journals are refused. None if a call neither reads nor refuses one, or the calls differ.
fn refused(alloc: Global, line: &Line, count: u32) -> Option<u32> {
    let mut refused = 0u32;
    for seed in 0..count {
        let opens = is_refused(alloc, line, seed, Reader::Open)?;
        if is_refused(alloc, line, seed, Reader::Recover)? != opens {
            return None;
        }
        refused = refused.saturating_add(u32::from(opens));
    }
    Some(refused)
}

#[test]
fn journals_damaged_by_chance(rt: HostRuntime) {
    for line in GOOD {
        let refused = refused(rt.alloc(), line, 340);
        // Some are read, and some aren't.
        assert!(rt; matches!(refused, Some(40..=300)));
    }
}
