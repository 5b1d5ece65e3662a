//! Threads serve a line, and its desk is closed.

use crate::line::Plan;
use crate::meeting::Meeting;
use crate::memory::Memory;
use crate::report::Report;
use crate::session::{LeftOut, Scenario, Way, session};
use crate::sites::Trouble;
use crate::submitter::Pace;
use runner_cases::asks::Ask;
use station_jobs::{CycleNote, NoHook};
use station_threads::CloseFault;
use std::test::*;

/// Aliases for four slaves in turn.
const FIRST: &[Ask] = &[
    Ask::Alias(0, 1),
    Ask::Alias(1, 2),
    Ask::Alias(2, 3),
    Ask::Alias(3, 4),
    Ask::Alias(0, 5),
    Ask::Alias(1, 6),
    Ask::Alias(2, 7),
    Ask::Alias(3, 8),
    Ask::Alias(0, 9),
    Ask::Alias(1, 10),
];

const SECOND: &[Ask] = &[
    Ask::Alias(2, 11),
    Ask::Alias(3, 12),
    Ask::Alias(0, 13),
    Ask::Alias(1, 14),
    Ask::Alias(2, 15),
    Ask::Alias(3, 16),
    Ask::Alias(0, 17),
    Ask::Alias(1, 18),
    Ask::Alias(2, 19),
    Ask::Alias(3, 20),
];

/// Four slaves of zeros.
const FOUR: Plan = Plan {
    words: 64,
    slaves: &[&[], &[], &[], &[]],
    area: 65_536,
    has_cycle: false,
};

/// Two submitters with fifty aliases each, while process data is exchanged.
const HUNDRED: Scenario = Scenario {
    plan: Plan {
        has_cycle: true,
        ..FOUR
    },
    first: FIRST,
    second: SECOND,
    rounds: 5,
    pace: Pace::Together,
    way: Way::Threads,
    trouble: Trouble::Nothing,
    left_out: LeftOut::Nothing,
    memory: Memory::Ample,
};

/// The scenario `HUNDRED` without process data.
const MEETING: Scenario = Scenario {
    plan: FOUR,
    ..HUNDRED
};

/// A slave with a byte of outputs and four bytes of inputs: its SyncM, RXPDO and TXPDO categories.
const BOTH: &[u8] = &[
    41, 0, 16, 0, 0x00, 0x10, 0x80, 0x00, 0x26, 0x00, 0x01, 0x01, 0x80, 0x10, 0x80, 0x00, 0x22,
    0x00, 0x01, 0x02, 0x00, 0x11, 0x01, 0x00, 0x24, 0x00, 0x01, 0x03, 0x80, 0x11, 0x04, 0x00, 0x20,
    0x00, 0x01, 0x04, 51, 0, 8, 0, 0x00, 0x16, 0x01, 0x02, 0x00, 0x00, 0x00, 0x00, 0x00, 0x70,
    0x01, 0x00, 0x05, 0x08, 0x00, 0x00, 50, 0, 12, 0, 0x00, 0x1a, 0x02, 0x03, 0x00, 0x00, 0x00,
    0x00, 0x00, 0x60, 0x01, 0x00, 0x06, 0x10, 0x00, 0x00, 0x00, 0x60, 0x02, 0x00, 0x06, 0x10, 0x00,
    0x00, 0xff, 0xff,
];

/// A slave with twelve bits of inputs.
const INPUTS: &[u8] = &[
    41, 0, 4, 0, 0x00, 0x10, 0x02, 0x00, 0x20, 0x00, 0x01, 0x04, 50, 0, 8, 0, 0x00, 0x1a, 0x01,
    0x00, 0x00, 0x00, 0x00, 0x00, 0x00, 0x60, 0x01, 0x00, 0x00, 0x0c, 0x00, 0x00, 0xff, 0xff,
];

/// An alias for the first of two slaves with process data.
pub(crate) const TURNING: Scenario = Scenario {
    plan: Plan {
        words: 128,
        slaves: &[BOTH, INPUTS],
        area: 4096,
        has_cycle: true,
    },
    first: &[Ask::Alias(0, 1)],
    second: &[],
    rounds: 1,
    ..HUNDRED
};

/// The scenario `TURNING`, in which slave 0 is given up. The only command is never settled, so that each cycle is of none; the slave's
/// fault ends the cycle.
const DYING: Scenario = Scenario {
    trouble: Trouble::WordsFail(0, 3),
    ..TURNING
};

/// Two submitters with one alias each.
const TWO: Scenario = Scenario {
    first: &[Ask::Alias(0, 1)],
    second: &[Ask::Alias(1, 1)],
    rounds: 1,
    ..MEETING
};

/// How a session has to end.
#[derive(Clone, Copy)]
enum End {
    /// With a hundred commands accepted and acknowledged, and slaves that read as the book.
    AllServed,
    /// With a last cycle of one command and of seven bytes, and outputs of zero.
    Turned,
    /// With a last cycle of no command and of seven bytes, if there was one, and commands that aren't settled.
    GivenUp,
    /// With a desk that can't be closed for this reason.
    NotClosed(CloseFault),
}

/// The prefix of the cycle's last turn is `prefix`, of seven bytes.
fn is_turn(last: Option<CycleNote>, prefix: u64) -> bool {
    last == Some(CycleNote { prefix, size: 7 })
}

/// Whether a session has ended so.
fn has_ended(report: &Report, end: End) -> bool {
    match end {
        End::AllServed => {
            report.fault.is_none()
                && report.accepted == 100
                && report.receipts == 100
                && report.reads
        }
        End::Turned => {
            report.fault.is_none() && is_turn(report.last, 1) && report.byte == Some(0)
        }
        End::GivenUp => {
            report.fault == Some(CloseFault::Unserved)
                && (report.last.is_none() || is_turn(report.last, 0))
        }
        End::NotClosed(fault) => report.fault == Some(fault),
    }
}

const CASES: &[(Scenario, End)] = &[
    (HUNDRED, End::AllServed),
    (TURNING, End::Turned),
    (DYING, End::GivenUp),
    (
        Scenario {
            left_out: LeftOut::End,
            ..TWO
        },
        End::NotClosed(CloseFault::Mismatch),
    ),
    (
        Scenario {
            left_out: LeftOut::Share,
            ..TWO
        },
        End::NotClosed(CloseFault::Mismatch),
    ),
    (
        Scenario {
            trouble: Trouble::WordsFail(0, 3),
            ..TWO
        },
        End::NotClosed(CloseFault::Unserved),
    ),
];

#[test]
fn lines_are_served(rt: HostRuntime) {
    for (scenario, end) in CASES {
        let report = session(&rt, rt.alloc(), scenario, &NoHook);
        assert!(rt; has_ended(&report, *end));
    }
}

#[test]
fn two_workers_meet(rt: HostRuntime) {
    let report = session(&rt, rt.alloc(), &MEETING, &Meeting::new(&rt));
    assert!(rt; has_ended(&report, End::AllServed));
}
