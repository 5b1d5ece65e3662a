//! Words that are read before a slave has loaded them, and words of the bytes that stand in the data register before.

use crate::bench::{Bench, Content, Slave, wire_of};
use crate::beside::lent;
use crate::master::PROMPT;
use sii_words::Words;
use std::alloc::Global;
use wire_bringup::{Sizes, bring_up};
use wire_frames::{NumberedWire, Wire};
use wire_practice::{NO_QUIRKS, Quirks};

// A slave of 256 words, each its own number, whose chip repeats. A master has given it its station address.
const NUMBERED: Slave = Slave {
    words: 256,
    content: Content::Numbers(256, 3),
    alias: 0,
    quirks: ADDRESSED,
};

const ADDRESSED: Quirks = Quirks {
    chip: Some(256),
    station: Some(0x1001),
    ..NO_QUIRKS
};

// It shows as busy late, for longer than a poll takes, and then for longer than a poll and a fetch.
const SHOWN_LATE: Quirks = Quirks {
    delay: 3,
    shown_late: 1,
    ..ADDRESSED
};

const NEVER_SHOWN: Quirks = Quirks {
    delay: 9,
    shown_late: 9,
    ..ADDRESSED
};

const SLOW: Quirks = Quirks {
    read_time: 2_000,
    shown_late: u32::MAX,
    ..ADDRESSED
};

// The same with reads of eight bytes, and with commands that miss their acknowledge.
const WIDE: Quirks = Quirks {
    is_wide: true,
    ..SHOWN_LATE
};

const MISSES: Quirks = Quirks {
    each_missed: 3,
    is_blocked_by_errors: true,
    ..SHOWN_LATE
};

// One whose words all are 0xb9b9: the byte that stands in the data register first, and the ones of which one does as words are read again.
const FILLED: Slave = Slave {
    words: 64,
    content: Content::Filled(0xb9b9),
    alias: 0,
    quirks: Quirks {
        station: Some(0x1001),
        ..NO_QUIRKS
    },
};

const CASES: &[Slave] = &[
    NUMBERED,
    Slave {
        quirks: SHOWN_LATE,
        ..NUMBERED
    },
    Slave {
        quirks: NEVER_SHOWN,
        ..NUMBERED
    },
    Slave {
        quirks: SLOW,
        ..NUMBERED
    },
    Slave {
        quirks: WIDE,
        ..NUMBERED
    },
    Slave {
        quirks: MISSES,
        ..NUMBERED
    },
    FILLED,
    Slave {
        content: Content::Filled(0xeeb9),
        ..FILLED
    },
    Slave {
        content: Content::Filled(0x23ee),
        ..FILLED
    },
];

// The words that bringing up reads of the last slave on this wire. None: it isn't brought up, or memory was refused.
fn words_read<W: Wire>(alloc: Global, bench: &Bench, wire: &mut NumberedWire<W>) -> Option<Words> {
    let found = bring_up(alloc, wire, &bench.clock, &Sizes::unknown()).ok()?;
    found.into_words(alloc).ok()?.pop()
}

// Whether the words that are read of a slave are those of its chip. None: it isn't brought up, or memory was refused.
fn are_read(alloc: Global, slave: Slave) -> Option<bool> {
    let bench = Bench::new();
    let mut wire = wire_of(alloc, &bench, &[slave], None)?;
    let words = words_read(alloc, &bench, &mut wire)?;
    Some(wire.wire().line().words(0)? == words.as_slice())
}

// The same beside a master.
fn are_read_beside(alloc: Global, slave: Slave) -> Option<bool> {
    let bench = Bench::new();
    let mut wire = lent(alloc, &bench, &[slave], PROMPT, false)?;
    let words = words_read(alloc, &bench, &mut wire)?;
    Some(wire.wire().line.words(0)? == words.as_slice())
}

#[test]
fn words_are_those_that_were_loaded(rt: HostRuntime) {
    for slave in CASES {
        assert!(rt; are_read(rt.alloc(), *slave) == Some(true));
        assert!(rt; are_read_beside(rt.alloc(), *slave) == Some(true));
    }
}
