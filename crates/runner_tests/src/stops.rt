//! A power cut at each device write of a run, and at each write of the recovery after it.

use crate::story::STOPPED;
use book_model::Fault;
use runner_cases::runs::{End, SERVED, Way, ended, kept_by, recovers};
use runner_cases::sites::{PATTERNS, Trouble, recovered, site_of};
use site_mem::{MemSite, Pattern};
use std::alloc::Global;

/// Whether a recovery of what a power cut leaves of the site now is itself cut by the pattern after this number of writes. None if it
/// fails otherwise, or a second one doesn't complete it.
fn is_cut_off(
    alloc: Global,
    site: &MemSite,
    kept: &[[u16; 3]],
    writes: u64,
    pattern: Pattern,
) -> Option<bool> {
    let left = site.snapshot(alloc).ok()?;
    let site = site_of(alloc, left, &Trouble::Fuse(writes, pattern))?;
    let (site, first) = recovered(alloc, site);
    if !recovers(alloc, site.into_parts(), kept) {
        return None;
    }
    match first {
        Ok(_) => Some(false),
        Err(fault) if fault == STOPPED => Some(true),
        Err(_) => None,
    }
}

/// The number of writes of a recovery of what a power cut leaves of the site now. Cut by the pattern at any of them, a second recovery
/// completes it; None if not.
pub(crate) fn writes_mended(
    alloc: Global,
    site: &MemSite,
    kept: &[[u16; 3]],
    pattern: Pattern,
) -> Option<u64> {
    for writes in 0..100 {
        if !is_cut_off(alloc, site, kept, writes, pattern)? {
            return Some(writes);
        }
    }
    None
}

/// Whether a run with this end was cut. None if it was neither cut nor served.
fn ends_stopped(end: &End) -> Option<bool> {
    if end.fault == Some(Fault::Stopped) {
        return Some(true);
    }
    if *end == SERVED { Some(false) } else { None }
}

/// Whether a run is cut by the pattern after this number of writes, not counting the one of the open. None if it ends otherwise, or if
/// its recovery, cut at some write, isn't completed by a second one.
fn is_stopped(alloc: Global, way: Way, writes: u64, pattern: Pattern) -> Option<bool> {
    let trouble = Trouble::Fuse(writes.saturating_add(1), pattern);
    let (site, end) = ended(alloc, way, &trouble)?;
    let mended = writes_mended(alloc, &site, kept_by(way, end.status[1]), pattern);
    drop(site);
    mended.and(ends_stopped(&end))
}

/// The number of writes of a run. Cut by the pattern at any of them, a recovery completes it, even if that is cut too; None if not.
fn writes_survived(alloc: Global, way: Way, pattern: Pattern) -> Option<u64> {
    for writes in 0..100 {
        if !is_stopped(alloc, way, writes, pattern)? {
            return Some(writes);
        }
    }
    None
}

#[test]
fn a_stop_at_each_write_of_commands_one_by_one(rt: HostRuntime) {
    for pattern in PATTERNS.as_slice() {
        assert!(rt; writes_survived(rt.alloc(), Way::OneByOne, *pattern) == Some(28));
    }
}

#[test]
fn a_stop_at_each_write_of_queued_commands(rt: HostRuntime) {
    for pattern in PATTERNS.as_slice() {
        assert!(rt; writes_survived(rt.alloc(), Way::Queued, *pattern) == Some(12));
    }
}
