//! A failure of each device call of a run.

use book_model::Fault;
use runner_cases::runs::{End, SERVED, UNOPENED, Way, ended, kept_by, recovers};
use runner_cases::sites::{Trouble, aliases_of};
use site_core::{DeviceFault, Site};
use site_mem::{MemSite, Parts};
use std::alloc::Global;

/// What the failure of a device call does.
#[derive(Clone, Copy, PartialEq)]
enum Failure {
    /// The station isn't opened.
    Unopened,
    /// The disk failed, which closed the book, and a recovery finds aliases that are kept.
    Closed,
    /// A frame was lost, and all commands were still served.
    Served,
    /// The run has fewer calls.
    Over,
    /// Anything else.
    Wrong,
}

/// Whether the next device call of the disk fails.
pub(crate) fn fails(site: &mut MemSite) -> bool {
    site.has_disk() && site.disk_len() == Err(DeviceFault::Disk)
}

/// What the failure did to a run that has these parts and ended so.
fn failure_of(alloc: Global, way: Way, parts: Parts, end: &End, is_over: bool) -> Failure {
    if is_over {
        drop(parts);
        return Failure::Over;
    }
    if end.fault == Some(Fault::Disk) {
        let is_kept = recovers(alloc, parts, kept_by(way, end.status[1]));
        return if is_kept {
            Failure::Closed
        } else {
            Failure::Wrong
        };
    }
    let aliases = aliases_of(&parts);
    drop(parts);
    if *end == UNOPENED {
        return Failure::Unopened;
    }
    if *end == SERVED && aliases == [9, 1, 7] {
        return Failure::Served;
    }
    Failure::Wrong
}

/// What the failure does that comes after this number of device calls of a run.
fn failing(alloc: Global, way: Way, calls: u64) -> Option<Failure> {
    let (site, end) = ended(alloc, way, &Trouble::Call(calls))?;
    let mut site = site;
    let is_over = fails(&mut site);
    Some(failure_of(alloc, way, site.into_parts(), &end, is_over))
}

/// The number of device calls whose failure has each of the first three effects.
fn failures(alloc: Global, way: Way) -> Option<[u64; 3]> {
    let mut counts = [0u64; 3];
    for calls in 0..1000 {
        match failing(alloc, way, calls)? {
            Failure::Unopened => counts[0] = counts[0].saturating_add(1),
            Failure::Closed => counts[1] = counts[1].saturating_add(1),
            Failure::Served => counts[2] = counts[2].saturating_add(1),
            Failure::Over => return Some(counts),
            Failure::Wrong => return None,
        }
    }
    None
}

// Opening has three calls for the disk, and 101 for each slave. One by one, the commands take 18 calls for the disk, six for each batch,
// and ten words, each with its poll; queued, one batch and six words.
#[test]
fn a_failure_of_each_call(rt: HostRuntime) {
    assert!(rt; failures(rt.alloc(), Way::OneByOne) == Some([3, 18, 323]));
    assert!(rt; failures(rt.alloc(), Way::Queued) == Some([3, 6, 315]));
}
