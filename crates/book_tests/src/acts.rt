//! Events of a world, and what must be seen of it, as rows of a table.

use crate::contents::{contents_in, held, zero_slaves};
use book_model::RomOutcome;
use sii_edit::{Command, Edit};
use sii_words::Words;
use site_core::{Issued, Settled};
use std::alloc::Global;
use world_run::{DiskEnd, Event, Left, LeftByte, LeftWord, WordEnd, World, step};

/// An event in a world of one slave, or something that must be seen of it.
#[derive(Clone, Copy)]
pub(crate) enum Act {
    Open,
    /// A command is submitted that gives the slave this alias.
    Alias(u16),
    Migrate,
    /// The next action of the disk begins.
    Begin,
    /// The next action of the disk begins and succeeds.
    Action,
    /// The next action for the slave begins. An idle slave takes the datagram of an issue.
    Rom,
    /// A word of the slave is issued and written.
    Word,
    Rest(WordEnd),
    Stop(&'static [LeftByte], &'static [LeftWord]),
    Sees(Seen),
}

/// What can be seen of a world.
#[derive(Clone, Copy)]
pub(crate) enum Seen {
    /// No station is up.
    Down,
    /// The slave's alias in the contents of the book, and the number of live bytes.
    Book(u16, u64),
    /// The words 4 and 7 of the slave.
    Slave(u16, u16),
    /// This byte of the disk.
    Byte(usize, u8),
}

/// A disk that begins with these bytes and goes on with zeros.
fn disk_on(alloc: Global, front: &[u8]) -> Option<Vec<u8>> {
    let mut bytes = Vec::from_slice(alloc, front).ok()?;
    bytes.resize(4104, 0).ok()?;
    Some(bytes)
}

/// What a world begins on.
#[derive(Clone, Copy)]
pub(crate) enum Start {
    /// A journal that was just formatted, with an area of 4,096 bytes.
    Formatted,
    /// A disk that begins with these bytes and goes on with zeros.
    Bytes(&'static [u8]),
}

/// A world of `count` zero slaves, 1 to 64, whose disk begins with these bytes and goes on with zeros.
pub(crate) fn world_on(alloc: Global, count: usize, front: &[u8]) -> Option<World> {
    let bytes = disk_on(alloc, front)?;
    let slaves = zero_slaves(alloc, count)?;
    if slaves.len() < 1 || slaves.len() > 64 {
        return None;
    }
    World::with_disk(alloc, slaves, bytes).ok()
}

/// A world of one zero slave, with a journal that was just formatted.
fn formatted_world(alloc: Global) -> Option<World> {
    let slaves = zero_slaves(alloc, 1)?;
    if slaves.len() < 1 || slaves.len() > 64 {
        return None;
    }
    World::of(alloc, slaves, 4096).ok()
}

/// A world of one zero slave that begins so.
fn world_from(alloc: Global, start: Start) -> Option<World> {
    match start {
        Start::Formatted => formatted_world(alloc),
        Start::Bytes(front) => world_on(alloc, 1, front),
    }
}

/// Lets the event happen if it can. False if memory was refused.
pub(crate) fn happens(world: &mut World, event: Event) -> bool {
    step(world, event).is_ok()
}

/// An action of the disk begins and succeeds.
pub(crate) fn is_acted(world: &mut World) -> bool {
    happens(world, Event::DiskBegin) && happens(world, Event::DiskDone(DiskEnd::Done))
}

/// The next action for a slave begins and ends with this outcome. An idle slave takes the datagram of an issue.
fn calls(world: &mut World, slave: u16, outcome: RomOutcome) -> bool {
    let takes = true;
    happens(world, Event::RomIssue { slave, takes })
        && happens(world, Event::RomDone { slave, outcome })
}

/// A word of a slave is issued and written.
pub(crate) fn writes(world: &mut World, slave: u16) -> bool {
    let end = WordEnd::Well;
    calls(world, slave, RomOutcome::Issued(Issued::Taken))
        && happens(world, Event::RomResolve { slave, end })
        && calls(world, slave, RomOutcome::Settled(Settled::Written))
}

/// The power is cut, and these bytes and words are left. False if memory was refused.
pub(crate) fn stops(
    alloc: Global,
    world: &mut World,
    bytes: &[LeftByte],
    words: &[LeftWord],
) -> bool {
    let Ok(bytes) = bytes.to_vec(alloc) else {
        return false;
    };
    match words.to_vec(alloc) {
        Ok(words) => happens(world, Event::Stop(Left { bytes, words })),
        Err(_refused) => false,
    }
}

/// Whether the book's contents have this alias, and `live` bytes are live.
fn book_is(world: &World, alias: u16, live: u64) -> bool {
    let Some(core) = world.core() else {
        return false;
    };
    contents_in(core)[0][4] == alias && core.live_bytes() == live
}

/// Whether the slave's words 4 and 7 are these.
fn slave_is(world: &World, alias: u16, check: u16) -> bool {
    let Some(contents) = held(world) else {
        return false;
    };
    contents[0][4] == alias && contents[0][7] == check
}

/// Whether this byte of the disk is this one.
fn byte_is(world: &World, at: usize, byte: u8) -> bool {
    match world.disk().get(at) {
        Some(held) => *held == byte,
        None => false,
    }
}

/// Whether this is seen.
fn sees(world: &World, seen: Seen) -> bool {
    match seen {
        Seen::Down => return world.core().is_none(),
        Seen::Book(alias, live) => return book_is(world, alias, live),
        Seen::Slave(alias, check) => return slave_is(world, alias, check),
        Seen::Byte(at, byte) => return byte_is(world, at, byte),
    }
}

/// The event of an act that is one event, and no power cut.
fn event_of(act: Act) -> Option<Event> {
    let slave = 0;
    match act {
        Act::Open => return Some(Event::Open),
        Act::Alias(value) => return Some(Event::Submit(Command::One(Edit::Alias { slave, value }))),
        Act::Migrate => return Some(Event::Migrate),
        Act::Begin => return Some(Event::DiskBegin),
        Act::Rom => return Some(Event::RomIssue { slave, takes: true }),
        Act::Rest(end) => return Some(Event::RomResolve { slave, end }),
        Act::Action | Act::Word | Act::Stop(..) | Act::Sees(..) => return None,
    }
}

/// Whether the act succeeds: its event finds memory, or what must be seen is seen.
fn comes(alloc: Global, world: &mut World, act: Act) -> bool {
    match act {
        Act::Stop(bytes, words) => return stops(alloc, world, bytes, words),
        Act::Sees(seen) => return sees(world, seen),
        Act::Action => return is_acted(world),
        Act::Word => return writes(world, 0),
        _ => {}
    }
    match event_of(act) {
        Some(event) => return happens(world, event),
        None => return false,
    }
}

/// Whether all acts succeed.
fn reported(alloc: Global, world: &mut World, acts: &[Act]) -> bool {
    for act in acts {
        if !comes(alloc, world, *act) {
            return false;
        }
    }
    true
}

/// What a world begins on, and the acts in this world: its own, and then those that other cases share.
pub(crate) type Case = (Start, &'static [Act], &'static [Act]);

/// Whether all acts of a case succeed.
pub(crate) fn is_reported(alloc: Global, case: &Case) -> bool {
    let (start, acts, then) = case;
    match world_from(alloc, *start) {
        Some(mut world) => {
            let is_reported = reported(alloc, &mut world, acts)
                && reported(alloc, &mut world, then);
            drop(world);
            is_reported
        }
        None => false,
    }
}
