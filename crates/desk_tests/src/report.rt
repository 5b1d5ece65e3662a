//! How a desk was closed, and what its line holds then.

use crate::memory::{Memory, put};
use esc_model::RomHalf;
use runner_cases::runs::{Way, kept_by};
use runner_cases::sites::{aliases_of, is_memory, recovery};
use sii_words::Plant;
use site_mem::{MemSite, Parts};
use station_alone::OpenFault;
use station_jobs::{CycleLog, CycleNote, End, SlaveLog};
use station_threads::{
    CloseFault, Closed, Desk, Ends, NotClosed, Receipt, Refusals, Served, Share, Tickets, close,
};
use std::alloc::Global;
use std::process::Abort;

/// How a desk was closed, and what its line holds then.
#[derive(Clone, Copy)]
pub(crate) struct Report {
    /// Why the desk couldn't be closed.
    pub(crate) fault: Option<CloseFault>,
    /// How many commands were accepted, and how many receipts handed in.
    pub(crate) accepted: usize,
    pub(crate) receipts: usize,
    /// All commands below this number are acknowledged.
    pub(crate) acknowledged: u64,
    /// The last turn of the cycle, and slave 0's byte at 0x1100 then.
    pub(crate) last: Option<CycleNote>,
    pub(crate) byte: Option<u8>,
    /// Whether each slave reads as the book's contents.
    pub(crate) reads: bool,
    /// The prefix of the three commands of a run after which a recovery leaves the line, if there is such a prefix.
    pub(crate) place: Option<u64>,
}

/// All commands below this number are acknowledged by the receipts.
fn acknowledged(receipts: &[Receipt]) -> u64 {
    let mut below = 0;
    for receipt in receipts {
        below = below.max(receipt.number().saturating_add(1));
    }
    below
}

/// What a power cut leaves of the site.
fn left_at(rt: &impl Abort, alloc: Global, site: &MemSite) -> Parts {
    match site.snapshot(alloc) {
        Ok(parts) => parts,
        Err(_refused) => site.snapshot(alloc).expect(rt, "memory"),
    }
}

/// What a power cut leaves of a slave.
fn half_left(rt: &impl Abort, alloc: Global, end: &End<MemSite, SlaveLog>) -> Option<RomHalf> {
    let slave = usize::from(end.log().slave);
    let mut left = left_at(rt, alloc, end.site());
    assert!(rt; slave < left.halves.len());
    left.halves.swap_remove(slave)
}

/// What a power cut leaves of the slaves.
fn halves_left(
    rt: &impl Abort,
    alloc: Global,
    workers: &[End<MemSite, SlaveLog>],
) -> Vec<Option<RomHalf>> {
    let mut halves = Vec::new(alloc);
    for end in workers {
        put(rt, &mut halves, half_left(rt, alloc, end));
    }
    halves
}

/// What a power cut leaves of the line without its process data, put together from what it leaves of each part.
fn put_together(rt: &impl Abort, alloc: Global, ends: &Ends<MemSite>) -> Parts {
    let Parts { sizes, disk, .. } = left_at(rt, alloc, ends.flusher.site());
    Parts {
        sizes,
        disk,
        halves: halves_left(rt, alloc, &ends.workers),
        process: None,
    }
}

/// The last turn of the cycle.
fn last_turn(cycle: &Option<End<MemSite, CycleLog>>) -> Option<CycleNote> {
    match cycle {
        Some(end) => end.log().notes().last(),
        None => None,
    }
}

/// Slave 0's byte at 0x1100.
fn byte_of(line: &Parts) -> Option<u8> {
    match &line.process {
        Some(halves) => Some(halves.first()?.peek(0x1100)),
        None => None,
    }
}

/// Slave 0's byte at 0x1100 as a power cut leaves it, if process data is exchanged.
fn byte_left(rt: &impl Abort, alloc: Global, cycle: &Option<End<MemSite, CycleLog>>) -> Option<u8> {
    match cycle {
        Some(end) => byte_of(&left_at(rt, alloc, end.site())),
        None => None,
    }
}

/// Whether this slave of the line reads as the contents.
fn reads_at(line: &Parts, contents: &Plant, slave: usize) -> bool {
    if slave >= contents.len() {
        return false;
    }
    match line.halves.get(slave) {
        Some(Some(half)) => half.words().as_slice() == contents.slave(slave).as_slice(),
        _ => false,
    }
}

/// Whether each slave of the line reads as the contents.
fn reads_as(line: &Parts, contents: &Plant) -> bool {
    for slave in 0..contents.len() {
        if !reads_at(line, contents, slave) {
            return false;
        }
    }
    true
}

/// The prefix of the three commands after which the slaves have these aliases.
fn place_of(aliases: [u16; 3]) -> Option<u64> {
    let rows = kept_by(Way::OneByOne, 0);
    for place in 0..rows.len() {
        if rows[place] == aliases {
            return Some(place as u64);
        }
    }
    None
}

/// The line after a recovery, and its fault, with a second try where a growth is refused on purpose.
fn recovered(alloc: Global, line: Parts, memory: Memory) -> Option<(Parts, Option<OpenFault>)> {
    let (left, fault) = recovery(alloc, line)?;
    match fault {
        Some(fault) if memory == Memory::RefusedOnce && is_memory(fault) => recovery(alloc, left),
        _ => Some((left, fault)),
    }
}

/// The prefix of the three commands after which a recovery leaves the line. None: it isn't recovered, or its aliases fit no prefix.
fn place_left(alloc: Global, line: Parts, memory: Memory) -> Option<u64> {
    let (left, fault) = recovered(alloc, line, memory)?;
    let aliases = aliases_of(&left);
    drop(left);
    if fault.is_some() {
        return None;
    }
    place_of(aliases)
}

/// The report with what the book and the ends add to it.
fn completed<T: Tickets, R: Refusals>(
    rt: &impl Abort,
    alloc: Global,
    begun: Report,
    book: Served<T, R>,
    ends: Ends<MemSite>,
    memory: Memory,
) -> Report {
    let line = put_together(rt, alloc, &ends);
    let byte = byte_left(rt, alloc, &ends.cycle);
    drop(ends);
    let accepted = book.accepted().len();
    let reads = reads_as(&line, book.contents());
    drop(book);
    let place = place_left(alloc, line, memory);
    Report {
        accepted,
        reads,
        byte,
        place,
        ..begun
    }
}

/// Closes the desk.
pub(crate) fn report_of<T: Tickets, R: Refusals>(
    rt: &impl Abort,
    alloc: Global,
    desk: Desk<T, R>,
    held: (Vec<Share<T, R>>, Vec<Receipt>),
    ends: Ends<MemSite>,
    memory: Memory,
) -> Report {
    let (shares, receipts) = held;
    let begun = Report {
        fault: None,
        accepted: 0,
        receipts: receipts.len(),
        acknowledged: acknowledged(&receipts),
        last: last_turn(&ends.cycle),
        byte: None,
        reads: false,
        place: None,
    };
    match close(desk, shares, receipts, ends) {
        Ok(closed) => {
            let Closed { book, ends } = closed;
            completed(rt, alloc, begun, book, ends, memory)
        }
        Err(left) => {
            let NotClosed {
                fault,
                book,
                ends,
                ..
            } = left;
            let fault = Some(fault);
            completed(rt, alloc, Report { fault, ..begun }, book, ends, memory)
        }
    }
}
