//! Lists of events, and what is seen after them.

use crate::acts::Act::{Action, Alias, Begin, Migrate, Open, Rest, Rom, Sees, Stop, Word};
use crate::acts::Seen::{Book, Byte, Down, Slave};
use crate::acts::Start::{Bytes, Formatted};
use crate::acts::{Act, Case, is_reported};
use crate::random::count_well;
use world_run::{LeftByte, LeftWord, WordEnd};

/// A header for one slave.
const HEADER: &[u8] = &[0xA5, 2, 1, 0, 0, 0x10, 0, 0];

/// What a power cut leaves in the gate.
const GATE_OPEN: &[LeftByte] = &[LeftByte { at: 8, byte: 0xA5 }];

const GATE_TORN: &[LeftByte] = &[LeftByte { at: 8, byte: 0x5A }];

const GATE_CLOSED: &[LeftByte] = &[LeftByte { at: 8, byte: 0 }];

/// For a byte that is named twice the last value counts. The other bytes are synced.
const NAMED_TWICE: &[LeftByte] = &[
    LeftByte { at: 8, byte: 0x5A },
    LeftByte { at: 8, byte: 0xA5 },
    LeftByte { at: 0, byte: 0 },
    LeftByte { at: 9, byte: 7 },
];

/// There is no such word in flight.
const NO_WORD: &[LeftWord] = &[
    LeftWord { slave: 0, word: 7 },
    LeftWord { slave: 1, word: 7 },
];

/// A command gives the slave alias 1. Its batch is written and synced, and the gate, byte 8, is torn as it is opened, on a journal that was
/// just formatted. Whether the batch is found.
const TORN_GATES: &[Case] = &[
    (
        Formatted,
        &[Open, Alias(1), Action, Action, Begin, Stop(GATE_TORN, &[])],
        &[Open, Sees(Book(0, 0))],
    ),
    (
        Formatted,
        &[Open, Alias(1), Action, Action, Begin, Stop(GATE_OPEN, &[])],
        &[Open, Sees(Book(1, 34))],
    ),
    (
        Formatted,
        &[Open, Alias(1), Action, Action, Begin, Stop(&[], &[])],
        &[Open, Sees(Book(0, 0))],
    ),
    (
        Formatted,
        &[
            Open,
            Alias(1),
            Action,
            Action,
            Begin,
            Stop(NAMED_TWICE, NO_WORD),
            Sees(Slave(0, 0x30)),
        ],
        &[Open, Sees(Book(1, 34))],
    ),
];

#[test]
fn gates_are_torn(rt: HostRuntime) {
    for case in TORN_GATES {
        assert!(rt; is_reported(rt.alloc(), case));
    }
}

/// The batch is live, and each of its words is written.
const IN_PLACE: &[Act] = &[Open, Alias(1), Action, Action, Action, Action, Word, Word];

/// A batch is in place, and its gate is torn while it is closed, or before the sync. If the batch is found again, nothing is left to
/// do but to close its gate.
const TORN_RETIRES: &[Case] = &[
    (
        Bytes(HEADER),
        IN_PLACE,
        &[
            Begin,
            Stop(GATE_CLOSED, &[]),
            Open,
            Sees(Book(1, 0)),
            Sees(Slave(1, 0x19)),
        ],
    ),
    (
        Bytes(HEADER),
        IN_PLACE,
        &[
            Begin,
            Stop(GATE_OPEN, &[]),
            Open,
            Sees(Book(1, 34)),
            Sees(Slave(1, 0x19)),
            Word,
            Word,
            Action,
            Action,
            Sees(Book(1, 0)),
            Sees(Byte(8, 0)),
            Sees(Slave(1, 0x19)),
        ],
    ),
    (
        Bytes(HEADER),
        IN_PLACE,
        &[
            Action,
            Begin,
            Stop(GATE_OPEN, &[]),
            Open,
            Sees(Book(1, 34)),
            Sees(Slave(1, 0x19)),
        ],
    ),
];

#[test]
fn retires_are_torn(rt: HostRuntime) {
    for case in TORN_RETIRES {
        assert!(rt; is_reported(rt.alloc(), case));
    }
}

const FIRST: &[LeftWord] = &[LeftWord {
    slave: 0,
    word: 0xDEAD,
}];

const SECOND: &[LeftWord] = &[LeftWord {
    slave: 0,
    word: 0xBEEF,
}];

/// The batch is redone and retired.
const RECOVERED: &[Act] = &[
    Word,
    Word,
    Action,
    Action,
    Sees(Book(1, 0)),
    Sees(Byte(8, 0)),
    Sees(Slave(1, 0x19)),
];

/// A word in flight is torn, and torn again as it is done again. And one that a power cut doesn't tear is still in flight afterwards, and
/// no station opens until its slave has come to rest.
const TORN_WORDS: &[Case] = &[
    (
        Bytes(HEADER),
        &[
            Open,
            Alias(1),
            Action,
            Action,
            Action,
            Action,
            Rom,
            Stop(&[], FIRST),
            Sees(Slave(0xDEAD, 0x30)),
            Open,
            Sees(Book(1, 34)),
            Rom,
            Stop(&[], SECOND),
            Sees(Slave(0xBEEF, 0x30)),
            Open,
        ],
        RECOVERED,
    ),
    (
        Bytes(HEADER),
        &[
            Open,
            Alias(1),
            Action,
            Action,
            Action,
            Action,
            Rom,
            Stop(&[], &[]),
            Open,
            Sees(Down),
            Rest(WordEnd::Failed { left: 0xDEAD }),
            Sees(Slave(0xDEAD, 0x30)),
            Open,
        ],
        RECOVERED,
    ),
];

#[test]
fn words_are_torn(rt: HostRuntime) {
    for case in TORN_WORDS {
        assert!(rt; is_reported(rt.alloc(), case));
    }
}

/// A header of version 1, and one with a batch that gives the slave alias 1.
const OLD: &[u8] = &[0xA5, 1, 1, 0, 0, 0x10, 0, 0];

const OLD_LIVE: &[u8] = &[
    0xA5, 1, 1, 0, 0, 0x10, 0, 0, 0xA5, 0x1C, 0, 0, 0, 1, 0, 0, 0, 0, 0, 0, 0, 0, 0, 2, 0, 0, 0, 4,
    0, 1, 0, 1, 0, 0, 0, 7, 0, 1, 0, 0x19, 0, 0,
];

/// What a power cut leaves in the far gate, in the mark and in the version byte.
const FAR_GATE: &[LeftByte] = &[LeftByte {
    at: 2056,
    byte: 0xA5,
}];

const MARK: &[LeftByte] = &[
    LeftByte { at: 9, byte: 0xA5 },
    LeftByte { at: 10, byte: 0x49 },
];

const FAR_GATE_AND_MARK: &[LeftByte] = &[
    LeftByte { at: 9, byte: 0 },
    LeftByte { at: 2056, byte: 7 },
];

const VERSION: &[LeftByte] = &[LeftByte { at: 1, byte: 0x77 }];

const VERSION_2: &[LeftByte] = &[LeftByte { at: 1, byte: 2 }];

/// The far gate is closed, the mark is written, both are synced, the version is written, and it is synced. Then the station takes
/// commands.
const MIGRATED: &[Act] = &[
    Open,
    Migrate,
    Action,
    Action,
    Action,
    Action,
    Action,
    Sees(Byte(1, 2)),
    Sees(Byte(2056, 0)),
    Alias(0xFFFF),
    Sees(Book(0xFFFF, 0)),
];

/// A migration is cut in each of its five steps, and a second one completes.
const TORN_MIGRATIONS: &[Case] = &[
    (
        Bytes(OLD),
        &[
            Open,
            Migrate,
            Begin,
            Stop(FAR_GATE, &[]),
            Sees(Byte(1, 1)),
            Sees(Byte(2056, 0xA5)),
        ],
        MIGRATED,
    ),
    (
        Bytes(OLD),
        &[
            Open,
            Migrate,
            Action,
            Begin,
            Stop(MARK, &[]),
            Sees(Byte(1, 1)),
            Sees(Byte(10, 0x49)),
        ],
        MIGRATED,
    ),
    (
        Bytes(OLD),
        &[
            Open,
            Migrate,
            Action,
            Action,
            Begin,
            Stop(FAR_GATE_AND_MARK, &[]),
            Sees(Byte(1, 1)),
            Sees(Byte(2056, 7)),
        ],
        MIGRATED,
    ),
    (
        Bytes(OLD),
        &[
            Open,
            Migrate,
            Action,
            Action,
            Action,
            Begin,
            Stop(VERSION, &[]),
            Sees(Byte(1, 0x77)),
        ],
        MIGRATED,
    ),
    (
        Bytes(OLD),
        &[
            Open,
            Migrate,
            Action,
            Action,
            Action,
            Begin,
            Stop(VERSION_2, &[]),
            Sees(Byte(1, 2)),
        ],
        MIGRATED,
    ),
    (
        Bytes(OLD),
        &[
            Open,
            Migrate,
            Action,
            Action,
            Action,
            Action,
            Begin,
            Stop(VERSION, &[]),
            Sees(Byte(1, 0x77)),
        ],
        MIGRATED,
    ),
];

#[test]
fn migrations_are_torn(rt: HostRuntime) {
    for case in TORN_MIGRATIONS {
        assert!(rt; is_reported(rt.alloc(), case));
    }
}

/// What is live is in place and retired before a migration, which then completes, and the file is as it must be.
const MIGRATED_LIVE: Case = (
    Bytes(OLD_LIVE),
    &[
        Open,
        Sees(Book(1, 33)),
        Migrate,
        Alias(2),
        Sees(Book(1, 33)),
        Word,
        Word,
        Action,
        Action,
        Open,
        Migrate,
        Action,
        Action,
        Action,
        Action,
        Action,
        Sees(Byte(1, 2)),
        Sees(Byte(2056, 0)),
        Alias(0xFFFF),
        Sees(Book(0xFFFF, 0)),
    ],
    &[
        Sees(Slave(1, 0x19)),
        Sees(Byte(0, 0xA5)),
        Sees(Byte(8, 0)),
        Sees(Byte(9, 0x4D)),
        Sees(Byte(10, 0x49)),
        Sees(Byte(11, 0x47)),
        Sees(Byte(12, 0x32)),
    ],
);

#[test]
fn live_journals_are_migrated_and_random_lists_kept(rt: HostRuntime) {
    assert!(rt;
        is_reported(rt.alloc(), &MIGRATED_LIVE) && count_well(rt.alloc(), 10_000) == 10_000
    );
}
