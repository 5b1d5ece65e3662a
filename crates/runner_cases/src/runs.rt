//! A run of three commands on a line of three slaves.

use crate::asks::Ask;
use crate::line::{THREE, parts_of};
use crate::sites::{Trouble, aliases_of, holds, off, open, recovery, site_of};
use crate::stations::{fault_of, serve, status_of, submit};
use book_model::Fault;
use site_core::Site;
use site_mem::{MemSite, Parts};
use station_alone::Alone;
use std::alloc::Global;

pub const ASKS: &[Ask] = &[
    Ask::Alias(0, 1),
    Ask::Swap(0, 1),
    Ask::Group(&[(2, 7), (0, 9)]),
];

/// The aliases after each batch, with one batch for each command.
const ONE_BY_ONE: &[[u16; 3]] = &[[0, 0, 0], [1, 0, 0], [0, 1, 0], [9, 1, 7]];

/// The aliases after each batch, with one batch for all commands.
const QUEUED: &[[u16; 3]] = &[[0, 0, 0], [9, 1, 7]];

/// How the commands are submitted.
#[derive(Clone, Copy, PartialEq)]
pub enum Way {
    /// Each command is served before the next is submitted.
    OneByOne,
    /// All are submitted, and then served.
    Queued,
}

/// How a run ended.
#[derive(Clone, Copy, PartialEq)]
pub struct End {
    /// How many commands are accepted, durable and settled, and how many bytes are live.
    pub status: [u64; 4],
    pub fault: Option<Fault>,
}

/// How a run without failures ends.
pub const SERVED: End = End {
    status: [3, 3, 3, 0],
    fault: None,
};

/// The end of a run whose station wasn't opened.
pub const UNOPENED: End = End {
    status: [0; 4],
    fault: None,
};

fn run<S: Site>(alloc: Global, station: &mut Alone<S>, way: Way) {
    for ask in ASKS {
        submit(alloc, station, ask);
        if way == Way::OneByOne {
            serve(station);
        }
    }
    serve(station);
}

/// The counts of a station, and its fault.
pub fn end_of<S: Site>(station: &Alone<S>) -> End {
    End {
        status: status_of(station),
        fault: fault_of(station),
    }
}

fn ran<S: Site>(alloc: Global, station: Alone<S>, way: Way) -> (S, End) {
    let mut station = station;
    run(alloc, &mut station, way);
    let end = end_of(&station);
    (off(station), end)
}

/// The site after a run, and how the run ended.
pub fn ended_on<S: Site>(alloc: Global, site: S, way: Way) -> (S, End) {
    match open(alloc, site) {
        Ok(station) => ran(alloc, station, way),
        Err((site, _fault)) => (site, UNOPENED),
    }
}

/// The line after a run that meets this trouble, and how the run ended. None: memory was refused for the line.
pub fn ended(alloc: Global, way: Way, trouble: &Trouble) -> Option<(MemSite, End)> {
    let site = site_of(alloc, parts_of(alloc, &THREE)?, trouble)?;
    Some(ended_on(alloc, site, way))
}

/// The aliases that a recovery may find with `acknowledged` commands acknowledged.
pub fn kept_by(way: Way, acknowledged: u64) -> &'static [[u16; 3]] {
    match way {
        Way::OneByOne => ONE_BY_ONE.get(acknowledged as usize..).unwrap_or(&[]),
        Way::Queued => QUEUED.get(acknowledged.min(1) as usize..).unwrap_or(&[]),
    }
}

fn is_one_of(aliases: [u16; 3], kept: &[[u16; 3]]) -> bool {
    for one in kept {
        if *one == aliases {
            return true;
        }
    }
    false
}

/// Whether this is a journal of version 2 in which nothing is live.
pub fn is_empty_journal(parts: &Parts) -> bool {
    holds(parts, 0, &[0xa5, 0x02]) && !holds(parts, 8, &[0xa5]) && !holds(parts, 2056, &[0xa5])
}

/// Whether nothing is live, and the aliases are one of these rows.
pub fn is_found(parts: &Parts, kept: &[[u16; 3]]) -> bool {
    is_empty_journal(parts) && is_one_of(aliases_of(parts), kept)
}

/// Whether a recovery completes, leaves nothing live, and the aliases are one of these rows.
pub fn recovers(alloc: Global, parts: Parts, kept: &[[u16; 3]]) -> bool {
    let Some((left, fault)) = recovery(alloc, parts) else {
        return false;
    };
    let is_found = is_found(&left, kept);
    drop(left);
    fault.is_none() && is_found
}
