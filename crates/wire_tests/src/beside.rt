//! A station beside a master that lends its wire, with all that a master may do with messages, and slaves as a master leaves them.
ghost use Rattle.site_shadow.specs.Parts.{AreComplete};

use crate::bench::{BLANK, Bench, Slave, WRITE_NEW, brought_up, has_so_many, line_of, work_on};
use crate::bringing_up::{Finding, Findings, finds};
use crate::master::{Habits, Master, PROMPT, TIME_OUT};
use site_shadow::Parts;
use site_wire::StopReason;
use std::alloc::Global;
use wire_bringup::{Sizes, SlaveState, hand_back};
use wire_frames::{FRAME_BYTES, LineFault, NumberedWire, Room, SlaveTrouble};
use wire_practice::{NO_QUIRKS, Quirks};

// A slave with the station address that a master has given it, whose words take three milliseconds to write.
const KEPT: Slave = Slave {
    quirks: OPERATIONAL,
    ..BLANK
};

const OPERATIONAL: Quirks = Quirks {
    station: Some(0x03e9),
    write_time: 3_000,
    state: 8,
    ..NO_QUIRKS
};

// The same with another address: one that a station without a master gives the first slave. Its reads load eight bytes.
const OTHER: Slave = Slave {
    quirks: Quirks {
        station: Some(0x1001),
        is_wide: true,
        ..OPERATIONAL
    },
    ..BLANK
};

const KEPT_TOO: Slave = Slave {
    quirks: Quirks {
        station: Some(0x03ea),
        ..OPERATIONAL
    },
    ..BLANK
};

// One that another master left without an address, and one that its processor holds.
const FRESH: Slave = Slave {
    quirks: Quirks {
        station: None,
        ..OPERATIONAL
    },
    ..BLANK
};

const HELD: Slave = Slave {
    quirks: Quirks {
        station: Some(0x03ea),
        is_held: true,
        ..OPERATIONAL
    },
    ..BLANK
};

// Ones that stay busy with each command.
const STUCK: Slave = Slave {
    quirks: STAYS_BUSY,
    ..BLANK
};

const STAYS_BUSY: Quirks = Quirks {
    delay: u32::MAX,
    ..OPERATIONAL
};

const OTHER_STUCK: Slave = Slave {
    quirks: Quirks {
        station: Some(0x03ea),
        ..STAYS_BUSY
    },
    ..BLANK
};

// What a master may do, and how many words are written beside it. None: the line isn't brought up.
const CASES: &[(Habits, Option<usize>)] = &[
    (PROMPT, Some(3)),
    // Messages and answers are dropped.
    (Habits { drops: 2, ..PROMPT }, Some(3)),
    (Habits { loses: 2, ..PROMPT }, Some(3)),
    (
        Habits {
            drops: 3,
            loses: 5,
            ..PROMPT
        },
        Some(3),
    ),
    // They wait for a hundred turns, before the wire or after it.
    (
        Habits {
            waits: TIME_OUT - 1,
            ..PROMPT
        },
        Some(3),
    ),
    (
        Habits {
            holds: TIME_OUT,
            ..PROMPT
        },
        Some(3),
    ),
    (
        Habits {
            waits: 50,
            holds: 50,
            ..PROMPT
        },
        Some(3),
    ),
    // An answer comes once its message was sent again, or long after that.
    (
        Habits {
            holds: TIME_OUT + 1,
            ..PROMPT
        },
        Some(3),
    ),
    (
        Habits {
            delays: (2, 110),
            holds: 30,
            ..PROMPT
        },
        Some(3),
    ),
    (
        Habits {
            delays: (3, 350),
            ..PROMPT
        },
        Some(3),
    ),
    // Answers come twice, and in another order.
    (
        Habits {
            doubles: 1,
            ..PROMPT
        },
        Some(3),
    ),
    (
        Habits {
            doubles: 1,
            delays: (3, 105),
            is_turned: true,
            ..PROMPT
        },
        Some(3),
    ),
    (
        Habits {
            doubles: 2,
            delays: (3, 350),
            drops: 7,
            is_turned: true,
            ..PROMPT
        },
        Some(3),
    ),
    // A message that waits for too long is lost.
    (
        Habits {
            waits: TIME_OUT + 1,
            ..PROMPT
        },
        None,
    ),
    // Messages have a datagram of each slave.
    (SHARING, Some(3)),
    (
        Habits {
            drops: 3,
            loses: 5,
            ..SHARING
        },
        Some(3),
    ),
    (
        Habits {
            holds: TIME_OUT + 1,
            ..SHARING
        },
        Some(3),
    ),
    (
        Habits {
            doubles: 2,
            delays: (3, 350),
            drops: 7,
            is_turned: true,
            ..SHARING
        },
        Some(3),
    ),
];

// One that carries two datagrams a message.
const SHARING: Habits = Habits {
    carries: 2,
    ..PROMPT
};

/// A wire that a master with these habits lends. None: memory was refused.
pub(crate) fn lent<'f>(
    alloc: Global,
    bench: &'f Bench,
    slaves: &[Slave],
    habits: Habits,
    is_forced: bool,
) -> Option<NumberedWire<Master<'f>>> {
    let line = line_of(alloc, slaves, None)?;
    let room = Room {
        datagrams: habits.carries,
        bytes: FRAME_BYTES,
    };
    let master = Master::new(line, &bench.clock, habits);
    Some(NumberedWire::lent(master, 7, is_forced, room))
}

// What came of the words.
#[derive(Clone, Copy)]
struct Written {
    // How many were written, by what the site says, before it stopped. None: the line wasn't brought up.
    count: Option<usize>,
    reason: Option<StopReason>,
    // Whether the chip has them.
    is_kept: bool,
}

impl Written {
    // Whether so many were written, and none is lost, without a stop.
    fn is(&self, count: Option<usize>) -> bool {
        self.count == count && self.reason.is_none() && self.is_kept
    }
}

// Writes the words of slave 0 on a line that was brought up, and hands the EEPROMs back.
fn handed_back<'f>(
    alloc: Global,
    bench: &Bench,
    wire: NumberedWire<Master<'f>>,
    found: (Parts, [SlaveState; 64]),
) -> (NumberedWire<Master<'f>>, Written)
    requires { AreComplete found.0 }
{
    let (parts, states) = found;
    let (mut wire, outcome) = work_on(alloc, bench, wire, parts, &WRITE_NEW);
    hand_back(&mut wire, &states);
    let written = Written {
        count: Some(outcome.count),
        reason: outcome.reason,
        is_kept: has_so_many(&wire.wire().line, outcome.count),
    };
    (wire, written)
}

// The same of a line that is brought up first.
fn write_on<'f>(
    alloc: Global,
    bench: &Bench,
    mut wire: NumberedWire<Master<'f>>,
) -> (NumberedWire<Master<'f>>, Written) {
    match brought_up(alloc, bench, &mut wire) {
        Some(found) => handed_back(alloc, bench, wire, found),
        None => {
            let written = Written {
                count: None,
                reason: None,
                is_kept: has_so_many(&wire.wire().line, 0),
            };
            (wire, written)
        }
    }
}

// What comes of the words beside a master, and then beside a prompt one.
#[derive(Clone, Copy)]
struct Ran {
    first: Written,
    // How many messages it took.
    messages: u32,
    again: Written,
}

// Writes the words beside a master with these habits, and then beside a prompt one. None: memory was refused.
fn came_of(alloc: Global, habits: Habits) -> Option<Ran> {
    let bench = Bench::new();
    let wire = lent(alloc, &bench, &[KEPT, OTHER], habits, false)?;
    let (mut wire, first) = write_on(alloc, &bench, wire);
    let master = wire.wire();
    let messages = master.messages;
    master.begin_anew(PROMPT);
    let (wire, again) = write_on(alloc, &bench, wire);
    drop(wire);
    Some(Ran {
        first,
        messages,
        again,
    })
}

#[test]
fn words_are_written_beside_a_master(rt: HostRuntime) {
    for (habits, count) in CASES {
        let came = came_of(rt.alloc(), *habits);
        assert!(rt; matches!(came, Some(ran) if ran.first.is(*count)));
    }
}

// Whether the site stops for a master that ends after so many messages, with no word lost, and beside the next one all words are written.
fn is_completed(alloc: Global, ends: u32) -> bool {
    let habits = Habits { ends, ..PROMPT };
    match came_of(alloc, habits) {
        Some(Ran { first, again, .. }) => {
            let is_stopped = first.is(None) || first.reason == Some(StopReason::Silent);
            is_stopped && first.is_kept && again.is(Some(3))
        }
        None => false,
    }
}

// It ends after each of the last hundred messages, among which are all that write words, and after each thirteenth before.
#[test]
fn a_master_ends_in_the_midst(rt: HostRuntime) {
    let messages = match came_of(rt.alloc(), PROMPT) {
        Some(ran) if ran.first.is(Some(3)) => ran.messages,
        _ => 0,
    };
    assert!(rt; messages > 100);
    for ends in 0..messages {
        if ends % 13 == 0 || messages - ends <= 100 {
            assert!(rt; is_completed(rt.alloc(), ends));
        }
    }
}

// How many messages bring up two slaves beside a master with these habits. None: they aren't brought up.
fn messages_of(alloc: Global, habits: Habits) -> Option<u32> {
    let bench = Bench::new();
    let mut wire = lent(alloc, &bench, &[KEPT, KEPT_TOO], habits, false)?;
    let _found = brought_up(alloc, &bench, &mut wire)?;
    Some(wire.wire().messages)
}

// With two datagrams a message it takes fewer.
#[test]
fn slaves_share_messages(rt: HostRuntime) {
    let one = messages_of(rt.alloc(), PROMPT).unwrap_or(0);
    let two = messages_of(rt.alloc(), SHARING).unwrap_or(u32::MAX);
    assert!(rt; one > 100 && two < one);
}

const SHARED: LineFault = LineFault::SharedAddress {
    slave: 1,
    other: 0,
    station: 0x03e9,
};

const OPEN: Finding = Finding::Open;

// What slaves a master has left, whether their EEPROMs may be taken by force, and what is found.
const FOUND: &[(&[Slave], bool, Findings)] = &[
    (&[KEPT, OTHER], false, Ok(&[OPEN, OPEN])),
    (&[OTHER, KEPT], false, Ok(&[OPEN, OPEN])),
    (&[KEPT, KEPT], false, Err(SHARED)),
    (
        &[FRESH, KEPT],
        false,
        Err(LineFault::Unaddressed { slave: 0 }),
    ),
    (
        &[KEPT, FRESH],
        true,
        Err(LineFault::Unaddressed { slave: 1 }),
    ),
    (&[KEPT, HELD], false, Ok(&[OPEN, Finding::Held])),
    (&[HELD, KEPT], false, Ok(&[Finding::Held, OPEN])),
    (&[HELD, KEPT], true, Ok(&[OPEN, OPEN])),
];

// Whether this is found beside a master. None: memory was refused.
fn is_found(alloc: Global, slaves: &[Slave], is_forced: bool, findings: &Findings) -> Option<bool> {
    let bench = Bench::new();
    let mut wire = lent(alloc, &bench, slaves, PROMPT, is_forced)?;
    Some(finds(alloc, &bench, &mut wire, &Sizes::unknown(), findings))
}

#[test]
fn slaves_are_found_as_a_master_left_them(rt: HostRuntime) {
    for (slaves, is_forced, findings) in FOUND {
        assert!(rt; is_found(rt.alloc(), slaves, *is_forced, findings) == Some(true));
    }
}

const BUSY: Finding = Finding::Dead(SlaveTrouble::StuckBusy);

// After how many microseconds this is found beside a master.
fn time_of(alloc: Global, slaves: &[Slave], findings: &Findings) -> Option<u64> {
    let bench = Bench::new();
    let mut wire = lent(alloc, &bench, slaves, PROMPT, false)?;
    if finds(alloc, &bench, &mut wire, &Sizes::unknown(), findings) {
        Some(bench.clock.now())
    } else {
        None
    }
}

// Two slaves that stay busy take no more than a tenth longer than one.
#[test]
fn busy_slaves_are_given_up_together(rt: HostRuntime) {
    let one = time_of(rt.alloc(), &[OTHER, STUCK], &Ok(&[OPEN, BUSY])).unwrap_or(0);
    let two = time_of(
        rt.alloc(),
        &[STUCK, OTHER, OTHER_STUCK],
        &Ok(&[BUSY, OPEN, BUSY]),
    )
    .unwrap_or(u64::MAX);
    assert!(rt; one > 20_000_000 && two < one.saturating_add(one / 10));
}
