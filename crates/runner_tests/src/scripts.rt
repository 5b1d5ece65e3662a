//! What a station answers step by step, and what a recovery finds afterwards.

use crate::story::Chapter::{Aliases, Bytes, Recovery, Session};
use crate::story::{Chapter, STOPPED, Story, all_reported};
use book_model::{Fault, SubmitRefusal};
use runner_cases::asks::Ask::{Alias, Group, Image, Outputs, Swap};
use runner_cases::line::{ALONE, Line, Slave, THREE, TWO};
use runner_cases::sites::Trouble::{Call, Fuse, Nothing, Words};
use runner_cases::stations::Event::{self, Disk, Rom, Run, Serve, Status, Submit};
use sii_edit::{Cause, Refusal};
use site_mem::Pattern::{Fill, Old};
use station_alone::Answer::{Accepted, Did, Ended, Failed, Idle, Refused};

/// Two aliases change places: durable with the fourth action of the disk, and settled with four words. All writes pass: one of the
/// open, four and two of the disk, and four words.
const SWAPPED: &[Chapter] = &[
    Session(
        Fuse(11, Old),
        &[
            Submit(Swap(0, 1), Accepted(0)),
            Disk(3, Did),
            Status([1, 0, 0, 0]),
            Disk(1, Did),
            Status([1, 1, 0, 50]),
            Disk(1, Idle),
            Serve(Idle),
            Status([1, 1, 1, 0]),
        ],
    ),
    Aliases([0, 1, 0]),
];

/// The last of these writes is torn.
const SWAPPED_BUT_LIVE: &[Chapter] = &[Session(
    Fuse(10, Old),
    &[
        Submit(Swap(0, 1), Accepted(0)),
        Serve(Failed(Fault::Stopped)),
        Status([1, 1, 1, 50]),
    ],
)];

/// The first bytes of its batch.
const SPELT: &[Chapter] = &[
    Session(Nothing, &[Submit(Swap(0, 1), Accepted(0)), Disk(4, Did)]),
    Bytes(8, &[0xa5, 0x00, 0x2c, 0x00, 0x00, 0x00]),
];

/// A slave gets alias 1: its batch after a closed gate, and after an open one, which isn't synced.
const NAMED: &[Chapter] = &[
    Session(Nothing, &[Submit(Alias(0, 1), Accepted(0)), Disk(2, Did)]),
    Bytes(8, &[0x00, 0x00, 0x1c]),
    Session(
        Nothing,
        &[
            Submit(Alias(0, 1), Accepted(0)),
            Disk(3, Did),
            Status([1, 0, 0, 0]),
        ],
    ),
    Bytes(
        8,
        &[
            0xa5, 0x00, 0x1c, 0x00, 0x00, 0x00, 0x01, 0x00, 0x00, 0x00, 0x00, 0x00, 0x00, 0x00,
            0x00, 0x00, 0x02, 0x00, 0x00, 0x00, 0x04, 0x00, 0x01, 0x00, 0x01, 0x00, 0x00, 0x00,
            0x07, 0x00, 0x01, 0x00, 0x19, 0x00, 0x00,
        ],
    ),
];

/// The gate is torn as it is opened.
const TO_THE_GATE: &[Event] = &[
    Submit(Alias(0, 1), Accepted(0)),
    Disk(2, Did),
    Disk(1, Failed(Fault::Stopped)),
];

/// It reads as an open one.
const TORN_OPEN: &[Chapter] = &[
    Session(Fuse(3, Fill(0x00a5)), TO_THE_GATE),
    Bytes(8, &[0xa5]),
    Recovery(Nothing, Ok([1, 1, 2])),
    Aliases([1, 0, 0]),
];

/// It reads as a closed one.
const TORN_CLOSED: &[Chapter] = &[
    Session(Fuse(3, Fill(0x5a5a)), TO_THE_GATE),
    Bytes(8, &[0x5a]),
    Recovery(Nothing, Ok([0, 0, 0])),
    Aliases([0, 0, 0]),
];

/// A word is torn, and torn again by a power cut in the recovery, in which the other slave has taken its first word.
const TORN_TWICE: &[Chapter] = &[
    Session(
        Fuse(5, Fill(0xdead)),
        &[
            Submit(Swap(0, 1), Accepted(0)),
            Disk(4, Did),
            Rom(1, 1, Failed(Fault::Stopped)),
        ],
    ),
    Aliases([1, 0xdead, 0]),
    Recovery(Fuse(2, Fill(0xdead)), Err(STOPPED)),
    // The first slave's word is still in flight.
    Aliases([1, 0xdead, 0]),
    Recovery(Nothing, Ok([1, 1, 3])),
    Aliases([0, 1, 0]),
];

/// The gate is torn as it is closed, once each word is in place.
const TO_THE_END: &[Event] = &[
    Submit(Alias(0, 1), Accepted(0)),
    Serve(Failed(Fault::Stopped)),
];

/// It reads as an open one.
const LEFT_OPEN: &[Chapter] = &[
    Session(Fuse(7, Fill(0x00a5)), TO_THE_END),
    Aliases([1, 0, 0]),
    Recovery(Nothing, Ok([1, 1, 0])),
    Aliases([1, 0, 0]),
];

/// It reads as a closed one.
const LEFT_CLOSED: &[Chapter] = &[
    Session(Fuse(7, Fill(0)), TO_THE_END),
    Recovery(Nothing, Ok([0, 0, 0])),
    Aliases([1, 0, 0]),
];

/// The first word ends in error once: three issues, each with a settle.
const AGAIN: &[Chapter] = &[
    Session(
        Words(1),
        &[
            Submit(Alias(0, 1), Accepted(0)),
            Disk(4, Did),
            Status([1, 1, 0, 34]),
            Rom(0, 5, Did),
            Status([1, 1, 0, 34]),
            Rom(0, 1, Did),
            Status([1, 1, 1, 34]),
        ],
    ),
    Aliases([1, 0, 0]),
];

/// It ends in error three times.
const GIVEN_UP: &[Chapter] = &[
    Session(
        Words(3),
        &[
            Submit(Alias(0, 1), Accepted(0)),
            Disk(4, Did),
            Rom(0, 5, Did),
            Rom(0, 1, Failed(Fault::SlaveDead { slave: 0 })),
            Submit(Alias(0, 2), Refused(SubmitRefusal::Closed)),
            Status([1, 1, 0, 34]),
        ],
    ),
    Recovery(Nothing, Ok([1, 1, 2])),
    Aliases([1, 0, 0]),
];

/// The frame of the first issue is lost. The calls before it open the station and write the batch.
const LOST: &[Chapter] = &[
    Session(
        Call(108),
        &[
            Submit(Alias(0, 1), Accepted(0)),
            Disk(4, Did),
            Rom(0, 6, Did),
            Status([1, 1, 1, 34]),
        ],
    ),
    Aliases([1, 0, 0]),
];

/// The disk fails in the first write of a batch, or in the last sync. That closes the book. 104 calls open the station.
const UNWRITTEN: &[Chapter] = &[Session(
    Call(104),
    &[
        Submit(Alias(0, 1), Accepted(0)),
        Disk(1, Failed(Fault::Disk)),
        Submit(Alias(0, 2), Refused(SubmitRefusal::Closed)),
        Status([1, 0, 0, 0]),
    ],
)];

const UNSYNCED: &[Chapter] = &[Session(
    Call(107),
    &[
        Submit(Alias(0, 1), Accepted(0)),
        Disk(3, Did),
        Disk(1, Failed(Fault::Disk)),
        Submit(Alias(0, 2), Refused(SubmitRefusal::Closed)),
        Status([1, 0, 0, 0]),
    ],
)];

/// A slave with one sync manager, for outputs. They have 1,486 bytes at most.
const WIDE: Line = Line {
    slaves: &[Slave::Wide],
    ..ALONE
};

const LARGEST: &[Chapter] = &[Session(
    Nothing,
    &[
        Submit(Outputs(159), Refused(OVER_LIMIT)),
        Submit(Outputs(158), Accepted(0)),
        Serve(Idle),
        Status([1, 1, 1, 0]),
    ],
)];

const OVER_LIMIT: SubmitRefusal = SubmitRefusal::Command(Refusal {
    cause: Cause::ImageOverLimit,
    position: None,
});

/// An image of 65 words for a slave of 64.
const LONGER: &[Chapter] = &[Session(
    Nothing,
    &[Submit(Image((0, 0x30), 0, 0), Refused(TOO_LONG))],
)];

const TOO_LONG: SubmitRefusal = SubmitRefusal::Command(Refusal {
    cause: Cause::ImageTooLong,
    position: None,
});

const SAME_SLAVE: SubmitRefusal = SubmitRefusal::Command(Refusal {
    cause: Cause::SameSlave,
    position: None,
});

const NO_SLAVE: SubmitRefusal = SubmitRefusal::Command(Refusal {
    cause: Cause::NoSlave,
    position: None,
});

/// Two commands are refused, and one changes nothing.
const WITHOUT_RUNS: &[Chapter] = &[Session(
    Fuse(7, Old),
    &[
        Submit(Swap(2, 2), Refused(SAME_SLAVE)),
        Submit(Swap(3, 3), Refused(NO_SLAVE)),
        Submit(Alias(0, 0), Accepted(0)),
        Serve(Idle),
        Status([1, 1, 1, 0]),
    ],
)];

/// Three commands are queued: one batch, and six words, though ten are named.
const ONCE: &[Chapter] = &[
    Session(
        Fuse(13, Old),
        &[
            Submit(Alias(0, 1), Accepted(0)),
            Submit(Swap(0, 1), Accepted(1)),
            Submit(Group(&[(2, 7), (0, 9)]), Accepted(2)),
            Disk(4, Did),
            Status([3, 3, 1, 118]),
            Serve(Idle),
            Status([3, 3, 3, 0]),
        ],
    ),
    Aliases([9, 1, 7]),
];

/// The station is dropped with all three durable.
const DROPPED: &[Chapter] = &[
    Session(
        Nothing,
        &[
            Submit(Alias(0, 1), Accepted(0)),
            Submit(Swap(0, 1), Accepted(1)),
            Submit(Group(&[(2, 7), (0, 9)]), Accepted(2)),
            Disk(4, Did),
        ],
    ),
    Recovery(Nothing, Ok([1, 3, 6])),
    Aliases([9, 1, 7]),
];

/// Steps in a row are answered in their order.
const IN_A_ROW: &[Chapter] = &[Session(Nothing, &[Run(&[Idle, Idle, Idle, Ended])])];

const SERVED: &[Story] = &[
    (TWO, SWAPPED),
    (TWO, SWAPPED_BUT_LIVE),
    (TWO, SPELT),
    (ALONE, NAMED),
    (ALONE, IN_A_ROW),
    (ALONE, AGAIN),
    (ALONE, LOST),
    (ALONE, UNWRITTEN),
    (ALONE, UNSYNCED),
    (WIDE, LARGEST),
    (ALONE, LONGER),
    (THREE, WITHOUT_RUNS),
    (THREE, ONCE),
];

const RECOVERED: &[Story] = &[
    (ALONE, TORN_OPEN),
    (ALONE, TORN_CLOSED),
    (TWO, TORN_TWICE),
    (ALONE, LEFT_OPEN),
    (ALONE, LEFT_CLOSED),
    (ALONE, GIVEN_UP),
    (THREE, DROPPED),
];

#[test]
fn steps_are_answered(rt: HostRuntime) {
    all_reported(&rt, rt.alloc(), SERVED);
}

#[test]
fn what_was_stopped_is_recovered(rt: HostRuntime) {
    all_reported(&rt, rt.alloc(), RECOVERED);
}
