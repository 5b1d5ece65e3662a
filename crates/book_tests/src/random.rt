//! Pseudorandom events, and what callers know after each.

use crate::acts::{happens, is_acted, stops, world_on, writes};
use crate::contents::{Contents, contents_in, put, zeros};
use crate::dice::Dice;
use crate::kept::{Session, is_kept};
use sii_edit::{Command, Edit};
use site_core::DeviceFault;
use std::alloc::Global;
use world_run::{DiskEnd, Event, World};

/// Headers for two slaves, of version 1 and of version 2.
const HEADERS: &[[u8; 8]] = &[
    [0xA5, 1, 2, 0, 0, 0x10, 0, 0],
    [0xA5, 2, 2, 0, 0, 0x10, 0, 0],
];

/// Aliases, each with the check byte of a slave that is zero otherwise.
const ALIASES: &[(u16, u16)] = &[(0, 0x30), (1, 0x19), (0xFFFF, 0xA6)];

/// Whether a station is up that no fault has closed.
fn is_up(world: &World) -> bool {
    match world.core() {
        Some(core) => return core.fault().is_none(),
        None => return false,
    }
}

/// The number of commands that the station has accepted.
fn accepted(world: &World) -> usize {
    match world.core() {
        Some(core) => return core.accepted().len(),
        None => return 0,
    }
}

/// The contents of its book.
fn book(world: &World) -> Option<Contents> {
    match world.core() {
        Some(core) => return Some(contents_in(core)),
        None => return None,
    }
}

/// Acknowledges everything that is durable by now.
fn acknowledge(world: &World, session: &mut Session) {
    if let Some(core) = world.core() {
        session.acknowledged = core.status().durable;
    }
}

/// Begins a session, whose contents must be after a prefix of the last session's commands.
fn goes_on(world: &World, session: &mut Session) -> bool {
    let Some(base) = book(world) else {
        return false;
    };
    let is_known = session.has(&base);
    session.begin(base) && is_known
}

fn opens(world: &mut World, session: &mut Session) -> bool {
    if is_up(world) {
        return happens(world, Event::Open);
    }
    acknowledge(world, session);
    if !happens(world, Event::Open) {
        return false;
    }
    !is_up(world) || goes_on(world, session)
}

/// Submits a command after which the contents must be these, if it is accepted.
fn asks(world: &mut World, session: &mut Session, command: Command, after: Contents) -> bool {
    let before = accepted(world);
    if !happens(world, Event::Submit(command)) {
        return false;
    }
    if accepted(world) == before {
        return true;
    }
    session.contents.push(after).is_ok() && book(world) == Some(after)
}

fn asks_alias(world: &mut World, session: &mut Session, dice: &mut Dice) -> bool {
    let slave = dice.below(2);
    let (value, check) = ALIASES[usize::from(dice.below(3))];
    let mut after = session.last();
    put(&mut after, usize::from(slave), 4, &[value]);
    put(&mut after, usize::from(slave), 7, &[check]);
    asks(
        world,
        session,
        Command::One(Edit::Alias { slave, value }),
        after,
    )
}

fn asks_swap(world: &mut World, session: &mut Session) -> bool {
    let [first, second] = session.last();
    asks(
        world,
        session,
        Command::Swap { a: 0, b: 1 },
        [second, first],
    )
}

fn of_caller(world: &mut World, session: &mut Session, dice: &mut Dice) -> bool {
    match dice.below(64) {
        0 => return happens(world, Event::Finish),
        1 => return happens(world, Event::Plan),
        2..=15 => return happens(world, Event::Migrate),
        16..=31 => return asks_swap(world, session),
        _ => return asks_alias(world, session, dice),
    }
}

fn disk_fails(alloc: Global, world: &mut World, dice: &mut Dice) -> bool {
    let Ok(bytes) = [dice.left_byte()].to_vec(alloc) else {
        return false;
    };
    let fault = DeviceFault::Disk;
    happens(world, Event::DiskDone(DiskEnd::Failed { fault, bytes }))
}

fn of_disk(alloc: Global, world: &mut World, dice: &mut Dice) -> bool {
    match dice.below(128) {
        0 => return disk_fails(alloc, world, dice),
        1..=31 => return happens(world, Event::DiskBegin),
        32..=63 => return happens(world, Event::DiskDone(DiskEnd::Done)),
        _ => return is_acted(world),
    }
}

fn of_slave(world: &mut World, dice: &mut Dice) -> bool {
    let slave = dice.below(2);
    match dice.below(8) {
        0 => {
            let takes = !dice.one_in(8);
            return happens(world, Event::RomIssue { slave, takes });
        }
        1 => {
            let end = dice.word_end();
            return happens(world, Event::RomResolve { slave, end });
        }
        2..=4 => {
            let outcome = dice.outcome();
            return happens(world, Event::RomDone { slave, outcome });
        }
        _ => return writes(world, slave),
    }
}

/// Cuts the power. Whether what it leaves is kept.
fn stops_kept(alloc: Global, world: &mut World, session: &mut Session, dice: &mut Dice) -> bool {
    acknowledge(world, session);
    let bytes = dice.left_bytes();
    let words = [dice.left_word()];
    stops(alloc, world, &bytes, &words) && is_kept(alloc, world, session)
}

/// Lets one event happen. Whether what is seen of it is right.
fn goes_well(alloc: Global, world: &mut World, session: &mut Session, dice: &mut Dice) -> bool {
    match dice.below(64) {
        0 => return stops_kept(alloc, world, session, dice),
        1..=4 => return opens(world, session),
        5..=8 => return of_caller(world, session, dice),
        9..=28 => return of_disk(alloc, world, dice),
        _ => return of_slave(world, dice),
    }
}

/// Whether everything is right in a list of events, and after a power cut at its end.
fn list_goes_well(
    alloc: Global,
    world: &mut World,
    session: &mut Session,
    dice: &mut Dice,
) -> bool {
    for _choice in 0..128u8 {
        if !goes_well(alloc, world, session, dice) {
            return false;
        }
    }
    stops_kept(alloc, world, session, dice)
}

/// Whether everything is right in a list of events on a disk that begins with these bytes, in a new session.
fn begins_well(alloc: Global, front: &[u8], session: &mut Session, dice: &mut Dice) -> bool {
    if !session.begin(zeros()) {
        return false;
    }
    match world_on(alloc, 2, front) {
        Some(mut world) => {
            let is_well = list_goes_well(alloc, &mut world, session, dice);
            drop(world);
            is_well
        }
        None => false,
    }
}

/// Tries `lists` lists of events on disks of both versions. Returns how many are right, before the first that isn't.
pub(crate) fn count_well(alloc: Global, lists: usize) -> usize {
    let mut dice = Dice::of(1);
    let mut session = Session::of(alloc);
    for count in 0..lists {
        if !begins_well(alloc, &HEADERS[count % 2], &mut session, &mut dice) {
            return count;
        }
    }
    lists
}
