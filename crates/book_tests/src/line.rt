//! Books on lines of slaves and on journals that are given as bytes.

ghost use Rattle.std.specs.Prelude.{◌≡◌, IfOk};
ghost use Rattle.book_model.specs.Entries.{sizes_of};

use book_core::Core;
use book_model::CoreFault;
use jrn_format::{JournalFault, capacity, scan};
use sii_words::Words;
use std::alloc::{AllocError, Global};

/// A slave: its number of bytes, and those that differ from 0, each group with its place. The check byte is 0x30 unless it is given.
pub(crate) type Slave = (usize, &'static [(usize, &'static [u8])]);

/// The slaves of a line, and its journal: the header, the length of a half in bytes, and the first bytes of each half.
#[derive(Clone, Copy)]
pub(crate) struct Line {
    pub slaves: &'static [Slave],
    pub header: [u8; 8],
    pub half: u16,
    pub first: &'static [u8],
    pub second: &'static [u8],
}

/// What memory calls find.
#[derive(Clone, Copy, PartialEq)]
pub(crate) enum Memory {
    /// Enough for each call.
    Ample,
    /// Too little for one growth, which is refused on purpose. What wanted it may be asked a second time.
    RefusedOnce,
}

/// Writes bytes over others, from a place on, as far as there is room.
pub(crate) fn patch(bytes: &mut [u8], from: usize, new: &[u8]) {
    for place in 0..new.len() {
        let at = from.saturating_add(place);
        if at < bytes.len() {
            bytes[at] = new[place];
        }
    }
}

/// A slave of 8,192 bytes at most.
fn slave(alloc: Global, slave: &Slave) -> Option<Words> {
    let (count, patches) = slave;
    let mut bytes = [0u8; 8192];
    patch(&mut bytes, 14, &[0x30]);
    for (from, new) in *patches {
        patch(&mut bytes, *from, new);
    }
    if *count > 8192 {
        return None;
    }
    Words::from_bytes(alloc, &bytes[..*count]).ok()
}

fn slaves(alloc: Global, line: &Line) -> Option<Vec<Words>> {
    let mut slaves = Vec::new(alloc);
    for one in line.slaves {
        slaves.push(slave(alloc, one)?).ok()?;
    }
    Some(slaves)
}

/// The number of words of each slave.
fn sizes(alloc: Global, slaves: &[Words]) -> Result<Vec<u16>, AllocError>
    ensures { IfOk result (λ sizes. sizes.items ≡ sizes_of slaves.now) }
{
    let mut sizes = Vec::new(alloc);
    for words in slaves {
        sizes.push(words.len() as u16)?;
    }
    Ok(sizes)
}

/// A book on a journal of these bytes. Without 1 to 64 slaves, or with a file of fewer than 8 bytes, there is none.
fn open(alloc: Global, slaves: Vec<Words>, file: &[u8]) -> Result<Core, JournalFault> {
    if slaves.len() < 1 || slaves.len() > 64 || file.len() < 8 {
        return Err(JournalFault::NotAJournal);
    }
    let sizes = sizes(alloc, &slaves)?;
    let journal = scan(alloc, file, &sizes)?;
    match Core::open(alloc, slaves, capacity(file), journal) {
        Ok(core) => Ok(core),
        Err(CoreFault::Memory) => Err(JournalFault::Memory),
    }
}

/// The book of such a line, whose journal has one byte after its halves. None: memory was refused, or the line has no book.
fn book(alloc: Global, line: &Line) -> Option<Core> {
    let mut file = [0u8; 65_545];
    let half = usize::from(line.half);
    patch(&mut file, 0, &line.header);
    patch(&mut file, 8, line.first);
    patch(&mut file, 8 + half, line.second);
    if half > 32_768 {
        return None;
    }
    match slaves(alloc, line) {
        Some(slaves) => open(alloc, slaves, &file[..9 + 2 * half]).ok(),
        None => None,
    }
}

/// The book of such a line. None: memory was refused on no purpose, or the line has no book.
pub(crate) fn book_of(alloc: Global, line: &Line, memory: Memory) -> Option<Core> {
    match book(alloc, line) {
        None if memory == Memory::RefusedOnce => book(alloc, line),
        opened => opened,
    }
}
