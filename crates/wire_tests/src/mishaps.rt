//! A line on a wire that loses, doubles, delays and falsifies frames, and slaves that lose their power.

use crate::bench::{Act, BLANK, Run, Slave, Trouble, WELL, came_of};
use site_shadow::Pattern;
use site_wire::{Difference, StopReason};
use std::alloc::Global;
use wire_practice::{Fate, Mishap, NO_QUIRKS, Quirks};

// Word 4 is made 1, or words 4, 5 and 6 are made 1, 2 and 3.
const WRITE: Act<'static> = Act::Write(&[1], 1);

const WRITE_ALL: Act<'static> = Act::Write(&[1, 2, 3], 1);

// The site doesn't stop.
const GOES_ON: Option<StopReason> = None;

const SILENT: Option<StopReason> = Some(StopReason::Silent);

const DATAGRAM: Option<StopReason> = Some(StopReason::Differs {
    slave: 0,
    what: Difference::Datagram,
});

const COUNTER: Option<StopReason> = Some(StopReason::Differs {
    slave: 0,
    what: Difference::Counter,
});

const ACCESS: Option<StopReason> = Some(StopReason::Differs {
    slave: 0,
    what: Difference::Access,
});

const ERRORS: Option<StopReason> = Some(StopReason::Differs {
    slave: 0,
    what: Difference::Errors,
});

// Words 4, 5 and 6 before and after word 4 is written.
const OLD: [u16; 3] = [0, 0, 0];

const NEW: [u16; 3] = [1, 0, 0];

const DEAD: Pattern = Pattern::Fill(0xdead);

// What is done, for how many datagrams the slave stays busy with a command, how many frames pass, how many have the fate, why the
// site stops, and words 4, 5 and 6 then.
type Case = (
    Act<'static>,
    u32,
    u32,
    u32,
    Fate,
    Option<StopReason>,
    [u16; 3],
);

// Frame 0 asks to write the word, and those after it poll, until the slave is idle; then the word is read back.
const CASES: &[Case] = &[
    (WRITE, 3, 0, 0, Fate::Passes, GOES_ON, NEW),
    (Act::Read, 3, 0, 0, Fate::Passes, GOES_ON, OLD),
    (Act::Look, 3, 0, 0, Fate::Passes, GOES_ON, OLD),
    (WRITE, 3, 0, 2, Fate::LostBefore, GOES_ON, NEW),
    (WRITE, 3, 0, 3, Fate::LostBefore, SILENT, OLD),
    (WRITE, 3, 0, 2, Fate::LostAfter, GOES_ON, NEW),
    (WRITE, 3, 0, 3, Fate::LostAfter, SILENT, NEW),
    (WRITE, 3, 1, 2, Fate::LostAfter, GOES_ON, NEW),
    (WRITE, 3, 1, 3, Fate::LostBefore, SILENT, NEW),
    // The slave was at rest before it was seen busy, and is sent the command again.
    (WRITE, 1, 0, 1, Fate::LostAfter, GOES_ON, NEW),
    (WRITE, 3, 0, 9, Fate::Doubled, GOES_ON, NEW),
    (WRITE, 3, 0, 9, Fate::SentTwice, GOES_ON, NEW),
    (WRITE, 3, 0, 1, Fate::Delayed, GOES_ON, NEW),
    (WRITE, 3, 1, 1, Fate::Delayed, GOES_ON, NEW),
    // One poll is sent before words are read, and then none for these.
    (Act::Read, 3, 0, 3, Fate::LostBefore, SILENT, OLD),
    (Act::Read, 3, 1, 3, Fate::LostBefore, GOES_ON, OLD),
    // A frame that isn't one any more, or has another number, is sent again.
    (WRITE, 3, 0, 1, Fate::Turned(0, 1), GOES_ON, NEW),
    (WRITE, 3, 0, 1, Fate::Turned(8, 1), GOES_ON, NEW),
    (WRITE, 3, 0, 1, Fate::Turned(22, 1), GOES_ON, NEW),
    (WRITE, 3, 0, 1, Fate::Turned(24, 1), GOES_ON, NEW),
    // Command, index, station, register and content of a write.
    (WRITE, 3, 0, 1, Fate::Turned(2, 1), DATAGRAM, NEW),
    (WRITE, 3, 0, 1, Fate::Turned(3, 1), DATAGRAM, NEW),
    (WRITE, 3, 0, 1, Fate::Turned(4, 1), DATAGRAM, NEW),
    (WRITE, 3, 0, 1, Fate::Turned(6, 1), DATAGRAM, NEW),
    (WRITE, 3, 0, 1, Fate::Turned(18, 1), DATAGRAM, NEW),
    // The working counter: what no slave counted is sent again.
    (WRITE, 3, 0, 1, Fate::Turned(20, 1), GOES_ON, NEW),
    // The IRQ word, and what is free in the datagram with the number.
    (WRITE, 3, 0, 1, Fate::Turned(10, 1), GOES_ON, NEW),
    (WRITE, 3, 0, 1, Fate::Turned(23, 1), GOES_ON, NEW),
    (WRITE, 3, 0, 1, Fate::Turned(32, 1), GOES_ON, NEW),
    // Write enable, bits 5 to 7, the command, bits 11 and 12, and 13 and 14 of a poll that finds the slave busy.
    (WRITE, 3, 1, 1, Fate::Turned(12, 0xe1), GOES_ON, NEW),
    (WRITE, 3, 1, 1, Fate::Turned(13, 0x1f), GOES_ON, NEW),
    (WRITE, 3, 1, 1, Fate::Turned(13, 0x20), ERRORS, NEW),
    (WRITE, 3, 1, 1, Fate::Turned(13, 0x40), ERRORS, NEW),
    (WRITE, 3, 1, 1, Fate::Turned(14, 1), GOES_ON, NEW),
    (WRITE, 3, 1, 3, Fate::Turned(14, 1), COUNTER, NEW),
    // Busy, and bits 13 and 14 of a poll that finds it idle.
    (WRITE, 0, 1, 1, Fate::Turned(13, 0x80), GOES_ON, NEW),
    (WRITE, 0, 1, 1, Fate::Turned(13, 0x20), GOES_ON, NEW),
    (WRITE, 0, 1, 1, Fate::Turned(13, 0x40), GOES_ON, NEW),
    // A word that reads back as another one is issued again.
    (WRITE, 0, 4, 1, Fate::Turned(12, 1), GOES_ON, NEW),
    (WRITE, 0, 4, 1, Fate::Turned(13, 0x80), GOES_ON, NEW),
    // Who has access.
    (Act::Look, 0, 0, 1, Fate::Turned(12, 1), ACCESS, OLD),
    (Act::Look, 0, 0, 1, Fate::Turned(12, 2), ACCESS, OLD),
];

// Before which word, counted from 0, the power is cut, what that leaves of it, and words 4, 5 and 6 then.
const CUTS: &[(u32, Pattern, [u16; 3])] = &[
    (0, Pattern::Old, OLD),
    (0, Pattern::New, NEW),
    (0, DEAD, [0xdead, 0, 0]),
    (1, Pattern::Old, NEW),
    (1, DEAD, [1, 0xdead, 0]),
    (2, DEAD, [1, 2, 0xdead]),
    (2, Pattern::New, [1, 2, 3]),
];

// Whether this, done with a slave that stays busy with a command for so many datagrams, ends so: why the site stops, and words 4, 5 and 6 once
// the line is brought up again on a good wire.
fn ends_so(
    alloc: Global,
    act: Act<'static>,
    delay: u32,
    trouble: Trouble,
    reason: Option<StopReason>,
    left: [u16; 3],
) -> bool {
    let quirks = Quirks { delay, ..NO_QUIRKS };
    let run = Run {
        slaves: &[Slave { quirks, ..BLANK }],
        trouble,
        act,
        after: None,
        then: Act::Nothing,
    };
    match came_of(alloc, &run) {
        Some(came) => {
            let ended = came.first.outcome;
            ended.is_done == reason.is_none()
                && ended.reason == reason
                && came.again.words == Some(left)
        }
        None => false,
    }
}

#[test]
fn mishaps_end_well_or_stop(rt: HostRuntime) {
    for (act, delay, passing, failing, fate, reason, left) in CASES {
        let mishap = Mishap {
            passing: *passing,
            failing: *failing,
            fate: *fate,
        };
        let trouble = Trouble { mishap, cut: None };
        assert!(rt; ends_so(rt.alloc(), *act, *delay, trouble, *reason, *left));
    }
}

#[test]
fn power_cuts_stop(rt: HostRuntime) {
    for (word, pattern, left) in CUTS {
        let trouble = Trouble {
            mishap: WELL,
            cut: Some((*word, *pattern)),
        };
        assert!(rt; ends_so(rt.alloc(), WRITE_ALL, 1, trouble, COUNTER, *left));
    }
}
