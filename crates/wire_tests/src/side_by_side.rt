//! Slaves whose words are read side by side, by frames of many datagrams, and what is reported of those that can't be worked on.

use crate::bench::{BLANK, Content, FATES, Slave, WELL};
use crate::bringing_up::{Finding, Findings, Line, course_of};
use std::alloc::Global;
use wire_bringup::Sizes;
use wire_frames::{LineFault, SlaveTrouble};
use wire_practice::{Cable, Fate, Mishap, NO_QUIRKS, PowerLoss, Quirks};
use wire_words::Extent;

// A slave of 64 words, each its own number, whose chip repeats.
const PLAIN: Slave = Slave {
    content: Content::Numbers(64, 0),
    quirks: REPEATS,
    ..BLANK
};

const REPEATS: Quirks = Quirks {
    chip: Some(64),
    ..NO_QUIRKS
};

const BUSY: Slave = Slave {
    quirks: Quirks {
        delay: 5,
        ..REPEATS
    },
    ..PLAIN
};

// Its reads load eight bytes.
const WIDE: Slave = Slave {
    quirks: Quirks {
        is_wide: true,
        ..REPEATS
    },
    ..PLAIN
};

const WIDE_AND_MISSES: Slave = Slave {
    quirks: Quirks {
        each_missed: 3,
        is_blocked_by_errors: true,
        is_wide: true,
        ..REPEATS
    },
    ..PLAIN
};

const SLOW: Slave = Slave {
    quirks: Quirks {
        read_time: 2_000,
        ..REPEATS
    },
    ..PLAIN
};

const MISSES: Slave = Slave {
    quirks: Quirks {
        each_missed: 3,
        is_blocked_by_errors: true,
        ..REPEATS
    },
    ..PLAIN
};

const NEVER_ACKNOWLEDGES: Slave = Slave {
    quirks: Quirks {
        each_missed: 1,
        ..REPEATS
    },
    ..PLAIN
};

// After frame 60, while its words are read.
const LOSES_POWER: Slave = Slave {
    quirks: Quirks {
        loss: PowerLoss::After(60),
        ..REPEATS
    },
    ..PLAIN
};

// Slaves with the same words that emulate their EEPROMs.
const EMULATED: Slave = Slave {
    quirks: NO_QUIRKS,
    ..PLAIN
};

const EMULATED_MUTE: Slave = Slave {
    quirks: Quirks {
        each_missed: 1,
        ..NO_QUIRKS
    },
    ..PLAIN
};

const STAYS_BUSY: Slave = Slave {
    quirks: Quirks {
        delay: u32::MAX,
        ..NO_QUIRKS
    },
    ..PLAIN
};

const KEEPS_ADDRESS: Slave = Slave {
    quirks: Quirks {
        station: Some(0x1001),
        ..NO_QUIRKS
    },
    ..PLAIN
};

const EMULATED_LOSES_POWER: Slave = Slave {
    quirks: Quirks {
        loss: PowerLoss::After(60),
        ..NO_QUIRKS
    },
    ..PLAIN
};

// One of 128 words.
const LARGER: Slave = Slave {
    words: 128,
    content: Content::Numbers(128, 1),
    alias: 0,
    quirks: Quirks {
        chip: Some(128),
        ..NO_QUIRKS
    },
};

const SIX_LARGER: &[Slave] = &[LARGER, LARGER, LARGER, LARGER, LARGER, LARGER];

const SIZE: Finding = Finding::Size(128, 128, Extent::Repeats(128), false);

const SIX_SIZES: &[Finding] = &[SIZE, SIZE, SIZE, SIZE, SIZE, SIZE];

pub(crate) const PLAINS: &[Slave] = &[PLAIN, PLAIN, PLAIN];

const MIXED: &[Slave] = &[PLAIN, WIDE, PLAIN];

const READ: Finding = Finding::Read;

const RESTARTED: Finding = Finding::Dead(SlaveTrouble::Restarted);

const UNPLUGGED: Finding = Finding::Dead(SlaveTrouble::CableOrPower);

const MUTE: Finding = Finding::Dead(SlaveTrouble::NoAcknowledge);

const STUCK: Finding = Finding::Dead(SlaveTrouble::StuckBusy);

const SHARED: Finding = Finding::Dead(SlaveTrouble::Shared);

pub(crate) const ALL_READ: &[Finding] = &[READ, READ, READ];

// A slave that emulates its EEPROM of words that are all 0, and stays busy for two datagrams.
const DELAYS: Slave = Slave {
    quirks: Quirks {
        delay: 2,
        ..NO_QUIRKS
    },
    ..BLANK
};

// The cable after the first slave or after the second one is pulled, while words are read.
const PULLED_AFTER_FIRST: Cable = Cable {
    after: 0,
    frames: 60,
};

const PULLED: Cable = Cable {
    after: 1,
    frames: 60,
};

// Three frames are lost, and one comes back with a counter of 0 or 129 in place of 1.
const FIRST_LOST: Mishap = Mishap {
    passing: 0,
    failing: 3,
    fate: Fate::LostBefore,
};

const TENTH_LOST: Mishap = Mishap {
    passing: 9,
    failing: 3,
    fate: Fate::LostAfter,
};

const UNCOUNTED: Mishap = Mishap {
    passing: 0,
    failing: 1,
    fate: Fate::Turned(13, 1),
};

const OVERCOUNTED: Mishap = Mishap {
    passing: 0,
    failing: 1,
    fate: Fate::Turned(13, 0x80),
};

// How many frames are sent before those that tell each of three slaves to read: a broadcast, another one, and three addresses; AL status and
// access of three; for each of three access by force, and access given back; a poll and a clearing of all three.
pub(crate) const BEFORE: u32 = 2 + 3 + 2 * 3 + 2 * 3 + 2;

// The first of these frames has three commands of ten bytes, at bytes 2, 24 and 46, and the number at 68. The second one has three polls, which have
// ten bytes too. Of a datagram, byte 0 is the command, 2 and 3 are the station address, 4 and 5 the register, 6 the length, 10 and further the
// content, and the working counter is after that. Of a poll control and status stand at 10, and the data at 16.
const TURNED: &[(&[Slave], u32, usize, u8)] = &[
    // Command, address, register, length, content and counter of the second command; the frame's number.
    (PLAINS, 0, 24, 1),
    (PLAINS, 0, 26, 1),
    (PLAINS, 0, 28, 2),
    (PLAINS, 0, 30, 1),
    (PLAINS, 0, 36, 1),
    (PLAINS, 0, 42, 1),
    (PLAINS, 0, 44, 1),
    (PLAINS, 0, 44, 3),
    (PLAINS, 0, 70, 1),
    // Busy, an error, and the counter of the second poll.
    (PLAINS, 1, 35, 0x80),
    (PLAINS, 1, 35, 0x20),
    (PLAINS, 1, 44, 1),
    // The command of the first poll, the address of the second one, and the counter of the last one.
    (PLAINS, 1, 2, 1),
    (PLAINS, 1, 26, 1),
    (PLAINS, 1, 66, 3),
    // The second slave's reads load eight bytes, which the first poll shows, so the third frame has a command, a fetch at byte 24, and a command at
    // byte 44: bit 6 of the second poll; length and counter of the fetch; command and counter of what is after it.
    (MIXED, 1, 34, 0x40),
    (MIXED, 2, 30, 1),
    (MIXED, 2, 42, 1),
    (MIXED, 2, 42, 3),
    (MIXED, 2, 44, 1),
    (MIXED, 2, 64, 1),
];

// Whether this is found of these slaves where one frame has this fate.
fn is_found_with(
    alloc: Global,
    slaves: &[Slave],
    passing: u32,
    fate: Fate,
    findings: &Findings,
) -> bool {
    let line = Line {
        slaves,
        cable: None,
        mishap: Mishap {
            passing,
            failing: 1,
            fate,
        },
    };
    matches!(course_of(alloc, &line, &Sizes::unknown(), findings), Some(course) if course.is_so)
}

#[test]
fn falsified_datagrams_are_asked_again(rt: HostRuntime) {
    for (slaves, frame, place, bits) in TURNED {
        let fate = Fate::Turned(*place, *bits);
        assert!(rt; is_found_with(rt.alloc(), slaves, BEFORE + *frame, fate, &Ok(ALL_READ)));
    }
}

// Slaves, from which frame on and up to which one a frame may be lost or doubled, and what is found nevertheless.
const ASKED_AGAIN: &[(&[Slave], u32, u32, Findings)] = &[
    (MIXED, BEFORE, BEFORE + 12, Ok(ALL_READ)),
    (&[DELAYS], 0, 40, Ok(&[Finding::Open])),
];

// Whether this is found of these slaves, whichever of these frames has this fate.
fn is_always_found(alloc: Global, fate: Fate, case: &(&[Slave], u32, u32, Findings)) -> bool {
    let (slaves, from, to, findings) = case;
    for passing in *from..*to {
        if !is_found_with(alloc, slaves, passing, fate, findings) {
            return false;
        }
    }
    true
}

#[test]
fn lost_and_doubled_frames_are_asked_again(rt: HostRuntime) {
    for fate in FATES {
        for case in ASKED_AGAIN {
            assert!(rt; is_always_found(rt.alloc(), *fate, case));
        }
    }
}

// Slaves side by side, a cable that is pulled, what frames meet, what is found, and how many frames are sent, where that is known.
type Case = (
    &'static [Slave],
    Option<Cable>,
    Mishap,
    Findings,
    Option<u64>,
);

// The frames to slaves that are all read: each pair of words takes two frames for all slaves: 32 pairs of the first 64 words, and as many
// from each of seven words on at which chips may begin to repeat. Besides there are two broadcasts, a poll and a clearing of all slaves, and five
// frames for each slave. Of slaves that load eight bytes each four words take two frames: 16 times, and as many from each of the seven words on; the
// first poll that shows it has four bytes of data, so that those words are fetched in one frame more. Of slaves of 128 words 64 pairs are read, and
// 32 from each of six words on.
const CASES: &[Case] = &[
    (&[PLAIN], None, WELL, Ok(&[READ]), Some(521)),
    (&[PLAIN, PLAIN], None, WELL, Ok(&[READ, READ]), Some(526)),
    (PLAINS, None, WELL, Ok(ALL_READ), Some(531)),
    (&[WIDE], None, WELL, Ok(&[READ]), Some(266)),
    (&[WIDE, WIDE], None, WELL, Ok(&[READ, READ]), Some(271)),
    (&[WIDE, WIDE, WIDE], None, WELL, Ok(ALL_READ), Some(276)),
    (SIX_LARGER, None, WELL, Ok(SIX_SIZES), Some(546)),
    (&[PLAIN, BUSY, SLOW], None, WELL, Ok(ALL_READ), None),
    (&[SLOW, MISSES, BUSY], None, WELL, Ok(ALL_READ), None),
    (
        &[WIDE, BUSY, WIDE_AND_MISSES],
        None,
        WELL,
        Ok(ALL_READ),
        None,
    ),
    (
        &[PLAIN, LOSES_POWER, SLOW],
        None,
        WELL,
        Ok(&[READ, RESTARTED, READ]),
        None,
    ),
    (
        &[BUSY, NEVER_ACKNOWLEDGES, PLAIN],
        None,
        WELL,
        Ok(&[READ, MUTE, READ]),
        None,
    ),
    (
        &[PLAIN, MISSES, PLAIN],
        Some(PULLED),
        WELL,
        Ok(&[READ, READ, UNPLUGGED]),
        None,
    ),
    (&[EMULATED, EMULATED], None, WELL, Ok(&[READ, READ]), None),
    (
        &[EMULATED_MUTE, EMULATED],
        None,
        WELL,
        Ok(&[MUTE, READ]),
        None,
    ),
    (
        &[EMULATED, STAYS_BUSY],
        None,
        WELL,
        Ok(&[READ, STUCK]),
        None,
    ),
    // Slave 1 keeps the station address of slave 0.
    (
        &[EMULATED, KEEPS_ADDRESS],
        None,
        WELL,
        Ok(&[SHARED, RESTARTED]),
        None,
    ),
    (
        &[EMULATED_LOSES_POWER, EMULATED],
        None,
        WELL,
        Ok(&[RESTARTED, READ]),
        None,
    ),
    (
        &[EMULATED, EMULATED],
        Some(PULLED_AFTER_FIRST),
        WELL,
        Ok(&[READ, UNPLUGGED]),
        None,
    ),
    // Frames that are lost three times, or falsified as slaves are counted.
    (&[DELAYS], None, WELL, Ok(&[Finding::Open]), None),
    (&[DELAYS], None, FIRST_LOST, Err(LineFault::Silent), None),
    (&[DELAYS], None, TENTH_LOST, Err(LineFault::Silent), None),
    (&[DELAYS], None, UNCOUNTED, Err(LineFault::NoSlaves), None),
    (
        &[DELAYS],
        None,
        OVERCOUNTED,
        Err(LineFault::TooManySlaves { slaves: 129 }),
        None,
    ),
];

// Whether this is found, with so many frames.
fn is_found(alloc: Global, case: &Case) -> bool {
    let (slaves, cable, mishap, findings, frames) = case;
    let line = Line {
        slaves,
        cable: *cable,
        mishap: *mishap,
    };
    match course_of(alloc, &line, &Sizes::unknown(), findings) {
        Some(course) => course.is_so && (frames.is_none() || *frames == Some(course.frames)),
        None => false,
    }
}

#[test]
fn slaves_are_found(rt: HostRuntime) {
    for case in CASES {
        assert!(rt; is_found(rt.alloc(), case));
    }
}

// One slow slave, and three.
const ONE_SLOW: Line<'static> = Line {
    slaves: &[SLOW],
    cable: None,
    mishap: WELL,
};

const THREE_SLOW: Line<'static> = Line {
    slaves: &[SLOW, SLOW, SLOW],
    ..ONE_SLOW
};

// After how many microseconds the line is brought up, if this is found.
fn time_of(alloc: Global, line: &Line<'_>, findings: &Findings) -> Option<u64> {
    match course_of(alloc, line, &Sizes::unknown(), findings) {
        Some(course) if course.is_so => Some(course.time),
        _ => None,
    }
}

// Three slow slaves take no more than a tenth longer than one.
#[test]
fn slow_slaves_are_read_at_the_same_time(rt: HostRuntime) {
    let one = time_of(rt.alloc(), &ONE_SLOW, &Ok(&[READ])).unwrap_or(0);
    let three = time_of(rt.alloc(), &THREE_SLOW, &Ok(ALL_READ)).unwrap_or(u64::MAX);
    assert!(rt; one >= 256 * 2_000 && three <= one.saturating_add(one / 10));
}

// One slave that stays busy, and four beside one that is read.
const ONE_BUSY: Line<'static> = Line {
    slaves: &[STAYS_BUSY],
    ..ONE_SLOW
};

const FOUR_BUSY: Line<'static> = Line {
    slaves: &[STAYS_BUSY, STAYS_BUSY, EMULATED, STAYS_BUSY, STAYS_BUSY],
    ..ONE_SLOW
};

const FOUR_STUCK: &[Finding] = &[STUCK, STUCK, READ, STUCK, STUCK];

// They are given up together after 10,000 frames, with pauses of a millisecond at most.
#[test]
fn slaves_that_stay_busy_are_given_up_together(rt: HostRuntime) {
    let one = time_of(rt.alloc(), &ONE_BUSY, &Ok(&[STUCK])).unwrap_or(0);
    let four = time_of(rt.alloc(), &FOUR_BUSY, &Ok(FOUR_STUCK)).unwrap_or(u64::MAX);
    assert!(rt; one > 10_000_000 && one < 10_500_000);
    assert!(rt; four < one.saturating_add(one / 10));
}
