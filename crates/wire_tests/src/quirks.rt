//! Words that are written to slaves with the quirks of real ones, and the power of these cut at each word and at each frame.

use crate::bench::{
    Act, BLANK, NO_TROUBLE, Ran, Run, Slave, Trouble, WELL, WRITE_NEW, Work, came_of,
};
use site_shadow::Pattern;
use std::alloc::Global;
use wire_practice::{NO_QUIRKS, PowerLoss, Quirks};

// What a slave does, and whether it is found above Pre-Operational, and with its PDI.
type Case = (Quirks, bool, bool);

// A pause between two tries of a command is a millisecond at first, and a poll of a busy slave is one of 10,000.
const CASES: &[Case] = &[
    (NO_QUIRKS, false, false),
    (
        Quirks {
            delay: 3,
            ..NO_QUIRKS
        },
        false,
        false,
    ),
    // A missing acknowledge of the first commands, and of each second and third one.
    (
        Quirks {
            first_missed: 20,
            ..NO_QUIRKS
        },
        false,
        false,
    ),
    (
        Quirks {
            each_missed: 2,
            ..NO_QUIRKS
        },
        false,
        false,
    ),
    (
        Quirks {
            each_missed: 3,
            delay: 3,
            ..NO_QUIRKS
        },
        false,
        false,
    ),
    // Commands are ignored while an error is pending.
    (
        Quirks {
            first_missed: 20,
            is_blocked_by_errors: true,
            ..NO_QUIRKS
        },
        false,
        false,
    ),
    (
        Quirks {
            each_missed: 2,
            is_blocked_by_errors: true,
            ..NO_QUIRKS
        },
        false,
        false,
    ),
    (
        Quirks {
            each_missed: 3,
            is_blocked_by_errors: true,
            ..NO_QUIRKS
        },
        false,
        false,
    ),
    // The chip programs on for five milliseconds.
    (
        Quirks {
            programs_on: 5_000,
            ..NO_QUIRKS
        },
        false,
        false,
    ),
    (
        Quirks {
            programs_on: 5_000,
            is_blocked_by_errors: true,
            write_time: 2_000,
            ..NO_QUIRKS
        },
        false,
        false,
    ),
    // Busy by the clock: a chip, and a slave that emulates its EEPROM.
    (
        Quirks {
            read_time: 500,
            write_time: 3_000,
            ..NO_QUIRKS
        },
        false,
        false,
    ),
    (
        Quirks {
            read_time: 2_000,
            write_time: 300_000,
            ..NO_QUIRKS
        },
        false,
        false,
    ),
    // It answers to its alias, which is the station address of the other slave.
    (
        Quirks {
            has_alias_addressing: true,
            ..NO_QUIRKS
        },
        false,
        false,
    ),
    // Reads load eight bytes.
    (
        Quirks {
            is_wide: true,
            each_missed: 3,
            delay: 2,
            ..NO_QUIRKS
        },
        false,
        false,
    ),
    // Pre-Operational, Safe-Operational, Operational.
    (
        Quirks {
            state: 2,
            ..NO_QUIRKS
        },
        false,
        false,
    ),
    (
        Quirks {
            state: 4,
            ..NO_QUIRKS
        },
        true,
        false,
    ),
    (
        Quirks {
            state: 8,
            ..NO_QUIRKS
        },
        true,
        false,
    ),
    (
        Quirks {
            is_held: true,
            ..NO_QUIRKS
        },
        false,
        true,
    ),
];

// Whether all words are written, by what the site says and in the chip.
fn are_written(work: &Work) -> bool {
    work.outcome.count == 3 && work.outcome.reason.is_none() && work.is_kept
}

// Whether the words are written to two slaves that do this, and these are found in the states that the case says, and so again once they are
// handed back. The alias of the second one is the station address of the first.
fn is_written_so(alloc: Global, case: &Case) -> bool {
    let (quirks, is_above, is_with_pdi) = *case;
    let first = Slave { quirks, ..BLANK };
    let second = Slave {
        alias: 0x1001,
        ..first
    };
    let run = Run {
        slaves: &[first, second],
        trouble: NO_TROUBLE,
        act: WRITE_NEW,
        after: Some(NO_TROUBLE),
        then: Act::Nothing,
    };
    match came_of(alloc, &run) {
        Some(Ran { first, again, .. }) => {
            let state = first.states[0];
            are_written(&first)
                && state.is_above_preop() == is_above
                && state.is_with_pdi() == is_with_pdi
                && again.states[0] == state
        }
        None => false,
    }
}

#[test]
fn words_are_written(rt: HostRuntime) {
    for case in CASES {
        assert!(rt; is_written_so(rt.alloc(), case));
    }
}

// What comes of it as the words are written with this trouble. None: the chip hasn't so many then, or not all once they are written on a good
// wire, or memory was refused.
fn written_with(alloc: Global, quirks: Quirks, trouble: Trouble) -> Option<Work> {
    let run = Run {
        slaves: &[Slave { quirks, ..BLANK }],
        trouble,
        act: WRITE_NEW,
        after: None,
        then: WRITE_NEW,
    };
    match came_of(alloc, &run) {
        Some(Ran { first, again, .. }) if first.is_kept && are_written(&again) => Some(first),
        _ => None,
    }
}

// Whether a power cut in the midst of any of the words, which is left as 0xdead, is recovered from.
fn is_recovered(alloc: Global, quirks: Quirks) -> bool {
    for word in 0..3u32 {
        let trouble = Trouble {
            mishap: WELL,
            cut: Some((word, Pattern::Fill(0xdead))),
        };
        match written_with(alloc, quirks, trouble) {
            Some(work) if work.outcome.count == word as usize => {}
            _ => return false,
        }
    }
    true
}

#[test]
fn cuts_in_each_word_are_recovered_from(rt: HostRuntime) {
    for (quirks, _, _) in CASES {
        assert!(rt; is_recovered(rt.alloc(), *quirks));
    }
}

// Whether a power loss of a slave after any frame of a run is recovered from. The word in flight is left as 0xdead.
fn is_always_recovered(alloc: Global, quirks: Quirks) -> bool {
    let Some(work) = written_with(alloc, quirks, NO_TROUBLE) else {
        return false;
    };
    for frame in work.from..work.to {
        let cut = Quirks {
            loss: PowerLoss::After(u32::try_from(frame).unwrap_or(u32::MAX)),
            left: Pattern::Fill(0xdead),
            ..quirks
        };
        if written_with(alloc, cut, NO_TROUBLE).is_none() {
            return false;
        }
    }
    true
}

// A slave as the definition says, one whose chip misses each second command and ignores others until its error is cleared, and one whose chip
// programs on.
const LOST: &[Quirks] = &[
    Quirks {
        delay: 1,
        ..NO_QUIRKS
    },
    Quirks {
        each_missed: 2,
        is_blocked_by_errors: true,
        ..NO_QUIRKS
    },
    Quirks {
        programs_on: 5_000,
        ..NO_QUIRKS
    },
];

#[test]
fn losses_after_each_frame_are_recovered_from(rt: HostRuntime) {
    for quirks in LOST {
        assert!(rt; is_always_recovered(rt.alloc(), *quirks));
    }
}
