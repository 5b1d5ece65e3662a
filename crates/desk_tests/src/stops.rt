//! One part of a line stops at each of its writes, and then the line is recovered.

use crate::line::Plan;
use crate::memory::Memory;
use crate::report::Report;
use crate::session::{LeftOut, Scenario, Way, session};
use crate::sites::{Part, Trouble};
use crate::submitter::Pace;
use runner_cases::runs::ASKS;
use runner_cases::sites::PATTERNS;
use site_mem::Pattern;
use station_jobs::NoHook;
use station_threads::CloseFault;
use std::alloc::Global;
use std::process::Abort;
use std::sync::Wait;
use std::test::*;
use std::thread::Threads;

/// Three slaves of zeros.
const THREE: Plan = Plan {
    words: 64,
    slaves: &[&[], &[], &[]],
    area: 4096,
    has_cycle: false,
};

/// One submitter with three commands.
const STOPPING: Scenario = Scenario {
    plan: THREE,
    first: ASKS,
    second: &[],
    rounds: 1,
    pace: Pace::Queued,
    way: Way::Threads,
    trouble: Trouble::Nothing,
    left_out: LeftOut::Nothing,
    memory: Memory::Ample,
};

/// Whether the line was stopped. None if a promise was broken:
///
/// - a recovery leaves no prefix of the commands, or one without an acknowledged command, or not all commands though nothing stopped the line
/// - the desk wasn't closed because of a mismatch
/// - all commands were queued before the line was served, and not three were accepted, or neither all of them nor none are left
fn validated(pace: Pace, report: &Report) -> Option<bool> {
    let place = report.place?;
    let least = match report.fault {
        None => 3,
        Some(CloseFault::Unserved) => report.acknowledged,
        Some(CloseFault::Mismatch) => return None,
    };
    let is_complete = report.accepted == 3 && (place == 0 || place == 3);
    if place < least || (matches!(pace, Pace::Queued) && !is_complete) {
        return None;
    }
    Some(report.fault.is_some())
}

/// Runs the scenario. Whether its line was stopped. None: a promise was broken, as `validated` says.
fn is_stopped<W: Wait + Threads + Sync + Abort>(
    rt: &W,
    alloc: Global,
    scenario: &Scenario,
) -> Option<bool> {
    let report = session(rt, alloc, scenario, &NoHook);
    validated(scenario.pace, &report)
}

/// The scenario `STOPPING` with this pace and this trouble.
fn stopping(pace: Pace, trouble: Trouble) -> Scenario {
    Scenario {
        pace,
        trouble,
        ..STOPPING
    }
}

/// Whether the line is stopped with some pattern, if this part stops after `writes` writes. None: a promise was broken.
fn stops_by<W: Wait + Threads + Sync + Abort>(
    rt: &W,
    alloc: Global,
    pace: Pace,
    part: Part,
    writes: u64,
) -> Option<bool> {
    let mut is_any = false;
    for pattern in PATTERNS.as_slice() {
        let scenario = stopping(pace, Trouble::Stops(part, writes, *pattern));
        is_any |= is_stopped(rt, alloc, &scenario)?;
    }
    Some(is_any)
}

/// The first number of writes that is too large for this part to stop at. None: a promise was broken, or there is none below 40.
fn first_unstopped<W: Wait + Threads + Sync + Abort>(
    rt: &W,
    alloc: Global,
    pace: Pace,
    part: Part,
) -> Option<u64> {
    for writes in 0..40u64 {
        if !stops_by(rt, alloc, pace, part, writes)? {
            return Some(writes);
        }
    }
    None
}

/// How the commands are submitted, which part stops, and how many writes it makes at least: the disk four for each batch, and a slave
/// that gets an alias two words, the alias and the check byte.
const STOPS: &[(Pace, Part, u64)] = &[
    (Pace::OneByOne, Part::Disk, 12),
    (Pace::OneByOne, Part::Slave(0), 2),
    (Pace::OneByOne, Part::Slave(1), 2),
    (Pace::OneByOne, Part::Slave(2), 2),
    (Pace::Queued, Part::Disk, 4),
    (Pace::Queued, Part::Slave(0), 2),
    (Pace::Queued, Part::Slave(1), 2),
    (Pace::Queued, Part::Slave(2), 2),
];

#[test]
fn any_part_may_stop(rt: HostRuntime) {
    for (pace, part, least) in STOPS {
        assert!(rt; first_unstopped(&rt, rt.alloc(), *pace, *part) >= Some(*least));
    }
}

/// Three commands are queued, and a growth is refused.
const REFUSED: Scenario = Scenario {
    memory: Memory::RefusedOnce,
    ..STOPPING
};

/// The gate refuses no growth; `tools/refuse_each` refuses each. Then what wanted it is tried again, or the disk's failure closes the book, and a
/// recovery finds what was acknowledged.
#[test]
fn a_refused_growth_loses_nothing(rt: HostRuntime) {
    assert!(rt; is_stopped(&rt, rt.alloc(), &REFUSED).is_some());
}

/// Three commands are queued, and the disk stops at its first write.
const ALONE: Scenario = Scenario {
    way: Way::Alone,
    trouble: Trouble::Stops(Part::Disk, 0, Pattern::Old),
    ..REFUSED
};

/// Like `a_refused_growth_loses_nothing`, on one thread, so that a desk's allocations come in the same order each time.
#[test]
fn a_growth_refused_on_one_thread_loses_nothing(rt: HostRuntime) {
    assert!(rt; is_stopped(&rt, rt.alloc(), &ALONE) == Some(true));
}
