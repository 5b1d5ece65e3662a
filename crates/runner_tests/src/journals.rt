//! Journals as a station finds them: none, those of two generations, and old ones, which are migrated.

use crate::damage::{READERS, Verdict, verdict_of};
use crate::stops::writes_mended;
use crate::story::Chapter::{Aliases, Bytes, Recovery, Session};
use crate::story::{Chapter, STOPPED, Story, all_reported};
use book_model::SubmitRefusal;
use jrn_format::JournalFault::{self, BadJournal, BadVersion, NotAJournal, WrongLine};
use runner_cases::asks::Ask::Alias;
use runner_cases::line::{ALONE, Line, THREE, TWO, parts_of};
use runner_cases::sites::Trouble::{Fuse, Nothing};
use runner_cases::sites::{PATTERNS, site_of};
use runner_cases::stations::Event::Submit;
use site_mem::Pattern::{self, Fill};
use station_alone::Answer::Refused;
use std::alloc::Global;

/// Lines whose disk holds no journal of this line, and the fault of each.
const REFUSED: &[(Line, JournalFault)] = &[
    // A batch of 2,042 bytes would not find room for its closing gate.
    (
        Line {
            first: &[0xa5, 0x00, 0xfa, 0x07, 0x00, 0x00],
            ..TWO
        },
        BadJournal { at: 8 },
    ),
    (Line { count: 0, ..TWO }, NotAJournal),
    (Line { count: 7, ..TWO }, NotAJournal),
    (Line { count: 4103, ..TWO }, BadJournal { at: 4103 }),
    (
        Line {
            header: [0xa5, 0x09, 0x02, 0x00, 0x00, 0x10, 0x00, 0x00],
            ..TWO
        },
        BadVersion { found: 9 },
    ),
    // Areas of 4,095, 4,194,305 and 4,097 bytes: two outside their limits, and one that is longer than the file.
    (
        Line {
            header: [0xa5, 0x02, 0x02, 0x00, 0xff, 0x0f, 0x00, 0x00],
            ..TWO
        },
        BadJournal { at: 4 },
    ),
    (
        Line {
            header: [0xa5, 0x02, 0x02, 0x00, 0x01, 0x00, 0x40, 0x00],
            ..TWO
        },
        BadJournal { at: 4 },
    ),
    (
        Line {
            header: [0xa5, 0x02, 0x02, 0x00, 0x01, 0x10, 0x00, 0x00],
            ..TWO
        },
        BadJournal { at: 4104 },
    ),
    // The mark of a migration after an open gate is none.
    (
        Line {
            header: [0xa5, 0x77, 0x02, 0x00, 0x00, 0x10, 0x00, 0x00],
            first: &[0xa5, 0x4d, 0x49, 0x47, 0x32],
            ..TWO
        },
        BadVersion { found: 0x77 },
    ),
    (
        Line {
            header: [0xa5, 0x02, 0x02, 0x00, 0x00, 0x10, 0x00, 0x00],
            ..THREE
        },
        WrongLine,
    ),
    // Longer than a half, no command, a run of no words, and a byte left over.
    (
        Line {
            first: &[0xa5, 0x00, 0xff, 0xff, 0xff, 0xff],
            ..TWO
        },
        BadJournal { at: 8 },
    ),
    (
        Line {
            first: &[0xa5, 0x00, 0x02, 0x00, 0x00, 0x00, 0x00, 0x00, 0x00],
            ..TWO
        },
        BadJournal { at: 8 },
    ),
    (
        Line {
            first: &[
                0xa5, 0, 0x12, 0, 0, 0, 1, 0, 0, 0, 0, 0, 0, 0, 0, 0, 1, 0, 0, 0, 0, 0, 0, 0, 0,
            ],
            ..TWO
        },
        BadJournal { at: 8 },
    ),
    (
        Line {
            first: &[
                0xa5, 0, 0x0d, 0, 0, 0, 1, 0, 0, 0, 0, 0, 0, 0, 0, 0, 0, 0, 0, 0,
            ],
            ..TWO
        },
        BadJournal { at: 8 },
    ),
    // A second half that can't be read, word 64 of 64, and slave 2 of two.
    (
        Line {
            second: &[0xa5],
            ..TWO
        },
        BadJournal { at: 2056 },
    ),
    (
        Line {
            first: &[
                0xa5, 0, 0x14, 0, 0, 0, 1, 0, 0, 0, 0, 0, 0, 0, 0, 0, 1, 0, 1, 0, 64, 0, 1, 0, 0,
                0, 0,
            ],
            ..TWO
        },
        WrongLine,
    ),
    (
        Line {
            first: &[
                0xa5, 0, 0x14, 0, 0, 0, 1, 0, 0, 0, 0, 0, 0, 0, 0, 0, 1, 0, 2, 0, 0, 0, 1, 0, 0, 0,
                0,
            ],
            ..TWO
        },
        WrongLine,
    ),
    // Both halves are live, and neither generation follows the other.
    (
        Line {
            first: OF_0,
            second: OF_2,
            ..ALONE
        },
        BadJournal { at: 8 },
    ),
];

/// Batches by which slave 0 gets alias 1 or 2, of generations 255, 0 and 2.
pub(crate) const OF_255: &[u8] = &[
    0xa5, 0xff, 0x14, 0x00, 0x00, 0x00, 0x01, 0x00, 0x00, 0x00, 0x00, 0x00, 0x00, 0x00, 0x00, 0x00,
    0x01, 0x00, 0x00, 0x00, 0x04, 0x00, 0x01, 0x00, 0x01, 0x00,
];

pub(crate) const OF_0: &[u8] = &[
    0xa5, 0x00, 0x14, 0x00, 0x00, 0x00, 0x01, 0x00, 0x00, 0x00, 0x00, 0x00, 0x00, 0x00, 0x00, 0x00,
    0x01, 0x00, 0x00, 0x00, 0x04, 0x00, 0x01, 0x00, 0x02, 0x00,
];

const OF_2: &[u8] = &[
    0xa5, 0x02, 0x14, 0x00, 0x00, 0x00, 0x01, 0x00, 0x00, 0x00, 0x00, 0x00, 0x00, 0x00, 0x00, 0x00,
    0x01, 0x00, 0x00, 0x00, 0x04, 0x00, 0x01, 0x00, 0x02, 0x00,
];

#[test]
fn what_is_no_journal_is_refused(rt: HostRuntime) {
    for (line, why) in REFUSED {
        for reader in READERS {
            assert!(rt; verdict_of(rt.alloc(), line, *reader) == Some(Verdict::Refused(*why)));
        }
    }
}

/// Each of the halves' batches comes first in turn: the alias of generation 0 stays.
const GENERATIONS: &[Story] = &[
    (
        Line {
            first: OF_255,
            second: OF_0,
            ..ALONE
        },
        &[Recovery(Nothing, Ok([2, 2, 1])), Aliases([2, 0, 0])],
    ),
    (
        Line {
            first: OF_0,
            second: OF_255,
            ..ALONE
        },
        &[Recovery(Nothing, Ok([2, 2, 1])), Aliases([2, 0, 0])],
    ),
];

#[test]
fn the_newer_half_counts(rt: HostRuntime) {
    all_reported(&rt, rt.alloc(), GENERATIONS);
}

/// A journal of version 1 with a batch by which the slave gets alias 1.
pub(crate) const OLD: Line = Line {
    header: [0xa5, 0x01, 0x01, 0x00, 0x00, 0x10, 0x00, 0x00],
    first: &[
        0xa5, 0x1c, 0x00, 0x00, 0x00, 0x01, 0x00, 0x00, 0x00, 0x00, 0x00, 0x00, 0x00, 0x00, 0x00,
        0x02, 0x00, 0x00, 0x00, 0x04, 0x00, 0x01, 0x00, 0x01, 0x00, 0x00, 0x00, 0x07, 0x00, 0x01,
        0x00, 0x19, 0x00, 0x00,
    ],
    ..ALONE
};

/// How the file begins once it is of version 2, with the mark after the first gate.
const NEW: &[u8] = &[
    0xa5, 0x02, 0x01, 0x00, 0x00, 0x10, 0x00, 0x00, 0x00, 0x4d, 0x49, 0x47, 0x32,
];

const MIGRATED: &[Chapter] = &[
    Recovery(Nothing, Ok([1, 1, 2])),
    Aliases([1, 0, 0]),
    Bytes(0, NEW),
    Bytes(2056, &[0x00]),
];

/// Before the migration no command is taken.
const UNMIGRATED: &[Chapter] = &[Session(
    Nothing,
    &[Submit(Alias(0, 1), Refused(SubmitRefusal::OldJournal))],
)];

/// The version byte is torn: it is neither version, or it is the new one.
const TORN_VERSION: &[Chapter] = &[
    Recovery(Fuse(8, Fill(0x0077)), Err(STOPPED)),
    Bytes(0, &[0xa5, 0x77, 0x01]),
    Recovery(Nothing, Ok([0, 0, 0])),
    Aliases([1, 0, 0]),
    Bytes(0, NEW),
];

const NEW_VERSION: &[Chapter] = &[
    Recovery(Fuse(8, Fill(2)), Err(STOPPED)),
    Bytes(0, NEW),
    Recovery(Nothing, Ok([0, 0, 0])),
    Bytes(0, NEW),
];

/// The mark is torn, and so is the gate of the second half.
const TORN_MARK: &[Chapter] = &[
    Recovery(Fuse(6, Fill(0x00a5)), Err(STOPPED)),
    Bytes(0, &[0xa5, 0x01]),
    Bytes(9, &[0xa5, 0xa5, 0xa5, 0xa5]),
    Bytes(2056, &[0xa5]),
    Recovery(Nothing, Ok([0, 0, 0])),
    Bytes(0, NEW),
];

const MIGRATIONS: &[Story] = &[
    (OLD, MIGRATED),
    (OLD, UNMIGRATED),
    (OLD, TORN_VERSION),
    (OLD, NEW_VERSION),
    (OLD, TORN_MARK),
];

#[test]
fn an_old_journal_is_migrated(rt: HostRuntime) {
    all_reported(&rt, rt.alloc(), MIGRATIONS);
}

/// The number of writes of a recovery of the old journal. Cut by the pattern at any of them, a second recovery completes it.
fn writes_of_a_migration(alloc: Global, pattern: Pattern) -> Option<u64> {
    let site = site_of(alloc, parts_of(alloc, &OLD)?, &Nothing)?;
    let writes = writes_mended(alloc, &site, &[[1, 0, 0]], pattern);
    drop(site);
    writes
}

#[test]
fn a_stop_at_each_write_of_a_migration(rt: HostRuntime) {
    for pattern in PATTERNS.as_slice() {
        assert!(rt; writes_of_a_migration(rt.alloc(), *pattern) == Some(10));
    }
}
