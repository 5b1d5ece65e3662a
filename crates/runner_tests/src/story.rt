//! Stories of a line: sessions, recoveries, and what is found after them.

use runner_cases::line::{Line, parts_of};
use runner_cases::sites::{Trouble, aliases_of, holds, off, open, recovered, site_of};
use runner_cases::stations::{Event, all_come};
use site_core::DeviceFault;
use site_journal::ReadFault;
use site_mem::{MemSite, Parts};
use station_alone::{Alone, OpenFault};
use std::alloc::Global;
use std::process::Abort;

/// The fault of a recovery in which the site stops.
pub(crate) const STOPPED: OpenFault = OpenFault::Journal(ReadFault::Device(DeviceFault::Stopped));

/// A chapter of a story. Each begins with a new site of the line's parts, on which earlier trouble is over.
#[derive(Clone, Copy)]
pub(crate) enum Chapter {
    /// A station is opened, and its calls give what they must.
    Session(Trouble, &'static [Event]),
    /// A recovery gives the numbers of batches and commands found and of issues, or its fault.
    Recovery(Trouble, Result<[u64; 3], OpenFault>),
    /// The aliases of three slaves, 0 for one that is missing.
    Aliases([u16; 3]),
    /// The disk holds these bytes from this place on.
    Bytes(usize, &'static [u8]),
}

/// A line, and its chapters.
pub(crate) type Story = (Line, &'static [Chapter]);

fn served(alloc: Global, station: Alone<MemSite>, events: &[Event]) -> (MemSite, bool) {
    let mut station = station;
    let is_reported = all_come(alloc, &mut station, events);
    (off(station), is_reported)
}

fn session(alloc: Global, site: MemSite, events: &[Event]) -> (MemSite, bool) {
    match open(alloc, site) {
        Ok(station) => served(alloc, station, events),
        Err((site, _fault)) => (site, false),
    }
}

/// The parts after the chapter, and whether it gave what it must. None: memory was refused, or a part is missing.
fn comes(alloc: Global, parts: Parts, chapter: &Chapter) -> Option<(Parts, bool)> {
    let (site, is_reported) = match *chapter {
        Chapter::Aliases(aliases) => {
            let is_reported = aliases_of(&parts) == aliases;
            return Some((parts, is_reported));
        }
        Chapter::Bytes(at, bytes) => {
            let is_reported = holds(&parts, at, bytes);
            return Some((parts, is_reported));
        }
        Chapter::Session(trouble, events) => {
            session(alloc, site_of(alloc, parts, &trouble)?, events)
        }
        Chapter::Recovery(trouble, wanted) => {
            let (site, came) = recovered(alloc, site_of(alloc, parts, &trouble)?);
            (site, came == wanted)
        }
    };
    Some((site.into_parts(), is_reported))
}

/// How many chapters give what they must, before the first that doesn't.
fn reported(alloc: Global, line: &Line, chapters: &[Chapter]) -> Option<usize> {
    let mut parts = parts_of(alloc, line)?;
    for count in 0..chapters.len() {
        let (left, is_reported) = comes(alloc, parts, &chapters[count])?;
        if !is_reported {
            drop(left);
            return Some(count);
        }
        parts = left;
    }
    Some(chapters.len())
}

/// Checks that each story's chapters give what they must.
pub(crate) fn all_reported(rt: &impl Abort, alloc: Global, stories: &[Story]) {
    for (line, chapters) in stories {
        assert!(rt; reported(alloc, line, chapters) == Some(chapters.len()));
    }
}
