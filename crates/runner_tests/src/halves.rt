//! Images that fill a half of the journal, on a slave of 4,096 words.

use crate::story::Chapter::{Aliases, Recovery, Session};
use crate::story::{Chapter, Story, all_reported};
use book_model::SubmitRefusal;
use runner_cases::asks::Ask::{Alias, Image};
use runner_cases::line::{ALONE, Line, Slave};
use runner_cases::sites::Trouble::Nothing;
use runner_cases::stations::Event::{Disk, Rom, Serve, Status, Submit};
use station_alone::Answer::{Accepted, Did, Idle, Refused};

const LONG: Line = Line {
    slaves: &[Slave::Long],
    ..ALONE
};

/// Images of words 0 to 64 and as many after them as make a batch of 2,047 bytes with its closing gate. One more is too many.
const FULL: &[Chapter] = &[
    Session(
        Nothing,
        &[
            Submit(
                Image((0, 0x30), 1012, 0x11),
                Refused(SubmitRefusal::TooLarge),
            ),
            Submit(Image((0, 0x30), 1011, 0x11), Accepted(0)),
            Disk(4, Did),
            Submit(Image((0, 0x30), 1011, 0x22), Accepted(1)),
            Disk(4, Did),
            Submit(Alias(0, 2), Refused(SubmitRefusal::Full)),
            // No word of the older half is written, since the newer one has a value for each.
            Disk(1, Idle),
            Rom(0, 2021, Did),
            Disk(1, Idle),
            Rom(0, 1, Did),
            Rom(0, 1, Idle),
            Disk(1, Did),
            Submit(Alias(0, 2), Refused(SubmitRefusal::Full)),
            Disk(1, Did),
            Submit(Alias(0, 2), Accepted(2)),
            Serve(Idle),
        ],
    ),
    Aliases([2, 0, 0]),
];

/// While a batch is appended after a full half, an image that would fill its half finds no room, and an alias does.
const AFTER_A_BATCH: &[Chapter] = &[
    Session(
        Nothing,
        &[
            Submit(Image((0, 0x30), 1011, 0x11), Accepted(0)),
            Disk(4, Did),
            Submit(Alias(0, 1), Accepted(1)),
            Disk(1, Did),
            Submit(Image((1, 0x19), 1011, 0x22), Refused(SubmitRefusal::Full)),
            Submit(Alias(0, 2), Accepted(2)),
            Disk(3, Did),
            // 2,046 and 34 bytes.
            Status([3, 2, 0, 2080]),
            Serve(Idle),
        ],
    ),
    Aliases([2, 0, 0]),
];

/// An image with alias 1 in half 0, and alias 2 in half 1.
const BOTH: &[Chapter] = &[
    Session(
        Nothing,
        &[
            Submit(Image((1, 0x19), 1000, 0x11), Accepted(0)),
            Disk(4, Did),
            Submit(Alias(0, 2), Accepted(1)),
            Disk(4, Did),
        ],
    ),
    Recovery(Nothing, Ok([2, 2, 1002])),
    Aliases([2, 0, 0]),
];

/// The first of them is retired.
const SECOND: &[Chapter] = &[
    Session(
        Nothing,
        &[
            Submit(Image((1, 0x19), 1000, 0x11), Accepted(0)),
            Disk(4, Did),
            Submit(Alias(0, 2), Accepted(1)),
            Disk(4, Did),
            Rom(0, 2005, Idle),
            Disk(2, Did),
        ],
    ),
    Recovery(Nothing, Ok([1, 1, 0])),
    Aliases([2, 0, 0]),
];

const STORIES: &[Story] = &[
    (LONG, FULL),
    (LONG, AFTER_A_BATCH),
    (LONG, BOTH),
    (LONG, SECOND),
];

#[test]
fn halves_are_filled(rt: HostRuntime) {
    all_reported(&rt, rt.alloc(), STORIES);
}
