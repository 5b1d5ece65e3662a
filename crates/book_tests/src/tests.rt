//! What books answer from their opening on, call by call: with ample memory, which no call may want; and where a growth is refused. A call that is
//! refused one leaves the book as it was, and when it is made again it is answered as ever. The gate refuses none; `tools/refuse_each` refuses each.

use crate::asks::Ask::{Alias, Group, Image, Inputs, Swap};
use crate::disk::Disk::{Append, Did, Done, Retire, Waits};
use crate::disk::Step::{Close, Idle, Open, Stop, Sync, Write};
use crate::events::Call::{Fault, Finish, Migrate, Plan, Status};
use crate::events::Event::{Call, Disk, Fill, Rom, Submit};
use crate::events::{Event, are_reported};
use crate::line::Memory::{self, Ample, RefusedOnce};
use crate::line::{Line, Slave, book_of};
use crate::rom::Rom::{Next, Outcome, Serves, Writes};
use book_model::{Fault as Faults, RomNext, RomOutcome, SubmitRefusal};
use sii_edit::{Cause, Refusal};
use site_core::{DeviceFault, Issued, Settled};
use std::alloc::Global;
use std::process::Abort;

/// A line, and the calls of its book.
type Case = (Line, &'static [Event]);

/// Whether all calls of the case give what they must.
fn is_reported(alloc: Global, case: &Case, memory: Memory) -> bool {
    let (line, events) = case;
    match book_of(alloc, line, memory) {
        Some(mut core) => {
            let are_reported = are_reported(alloc, &mut core, events, memory);
            drop(core);
            are_reported
        }
        None => false,
    }
}

/// Checks that all calls of each case give what they must.
fn all_reported(rt: &impl Abort, alloc: Global, cases: &[Case], memory: Memory) {
    for case in cases {
        assert!(rt; is_reported(alloc, case, memory));
    }
}

/// A slave of 64 words without alias, one of alias 1, and one of 4,096 words whose categories end at word 64.
const ZERO: Slave = (128, &[]);

const ONE: Slave = (128, &[(8, &[1]), (14, &[0x19])]);

const LONG: Slave = (8192, &[(128, &[0xFF, 0xFF])]);

/// A command without runs, as a batch of generation 0 and of generation 255.
const OF_0: &[u8] = &[0xa5, 0, 0x0c, 0, 0, 0, 1, 0, 0, 0, 0, 0, 0, 0, 0, 0, 0, 0];

const OF_255: &[u8] = &[
    0xa5, 0xff, 0x0c, 0, 0, 0, 1, 0, 0, 0, 0, 0, 0, 0, 0, 0, 0, 0,
];

/// An empty journal of one slave, with an area of 4,096 bytes.
const ALONE: Line = Line {
    slaves: &[ZERO],
    header: [0xa5, 2, 1, 0, 0, 0x10, 0, 0],
    half: 2048,
    first: &[],
    second: &[],
};

const LONG_ALONE: Line = Line {
    slaves: &[LONG],
    ..ALONE
};

const SAME_SLAVE: SubmitRefusal = SubmitRefusal::Command(Refusal {
    cause: Cause::SameSlave,
    position: None,
});

const NO_SLAVE: SubmitRefusal = SubmitRefusal::Command(Refusal {
    cause: Cause::NoSlave,
    position: None,
});

/// The outcomes of a word.
const TAKEN: RomOutcome = RomOutcome::Issued(Issued::Taken);

const AGAIN: RomOutcome = RomOutcome::Settled(Settled::Again);

const WRITTEN: RomOutcome = RomOutcome::Settled(Settled::Written);

const ISSUE: RomNext = RomNext::Issue { word: 4, value: 1 };

const SETTLE: RomNext = RomNext::Settle { taken: true };

/// Two aliases change places.
const SWAPPED: &[Event] = &[
    Submit(Swap(0, 1), Ok(0)),
    Call(Status(1, 0, 0, 0)),
    Rom(0, Next(RomNext::Idle)),
    Disk(Append(8, 50, 0)),
    Call(Status(1, 1, 0, 50)),
    Disk(Waits(Idle)),
    Rom(0, Writes(4, 0)),
    Rom(0, Writes(7, 0x30)),
    Rom(1, Writes(4, 1)),
    Call(Status(1, 1, 0, 50)),
    Rom(1, Writes(7, 0x19)),
    Call(Status(1, 1, 1, 50)),
    Disk(Retire(8)),
    Call(Status(1, 1, 1, 0)),
    Call(Finish),
    Disk(Waits(Stop)),
    Rom(0, Next(RomNext::Stop)),
    Submit(Alias(0, 7), Err(SubmitRefusal::Closed)),
];

/// Outcomes with nothing handed out, or of the other kind.
const OUT_OF_ORDER: &[Event] = &[
    Disk(Done(Err(DeviceFault::Disk))),
    Rom(0, Outcome(RomOutcome::Stopped)),
    Submit(Alias(0, 1), Ok(0)),
    Disk(Waits(Write(9, 34, 0))),
    Disk(Waits(Idle)),
    Disk(Done(Err(DeviceFault::Lost))),
    Disk(Waits(Idle)),
    Disk(Done(Ok(()))),
    Disk(Done(Ok(()))),
    Disk(Did(Sync)),
    Disk(Did(Open(8))),
    Disk(Did(Sync)),
    Rom(0, Next(ISSUE)),
    Rom(0, Outcome(WRITTEN)),
    Rom(0, Next(RomNext::Idle)),
    Rom(0, Outcome(TAKEN)),
    Rom(0, Next(SETTLE)),
    Rom(0, Outcome(TAKEN)),
    Rom(0, Next(RomNext::Idle)),
    Rom(0, Outcome(WRITTEN)),
    Rom(0, Outcome(WRITTEN)),
    Rom(1, Outcome(RomOutcome::Stopped)),
    Rom(0, Writes(7, 0x19)),
    Call(Fault(None)),
];

/// The first word fails once.
const AGAIN_ONCE: &[Event] = &[
    Submit(Alias(0, 1), Ok(0)),
    Disk(Append(8, 34, 0)),
    Rom(0, Next(ISSUE)),
    Rom(0, Outcome(TAKEN)),
    Rom(0, Next(SETTLE)),
    Rom(0, Outcome(AGAIN)),
    Rom(0, Serves(2, 1)),
    Call(Status(1, 1, 1, 34)),
];

/// The first word fails three times.
const GIVEN_UP: &[Event] = &[
    Submit(Alias(0, 1), Ok(0)),
    Disk(Append(8, 34, 0)),
    Rom(0, Next(ISSUE)),
    Rom(0, Outcome(TAKEN)),
    Rom(0, Next(SETTLE)),
    Rom(0, Outcome(AGAIN)),
    Rom(0, Next(ISSUE)),
    Rom(0, Outcome(TAKEN)),
    Rom(0, Next(SETTLE)),
    Rom(0, Outcome(AGAIN)),
    Rom(0, Next(ISSUE)),
    Rom(0, Outcome(TAKEN)),
    Rom(0, Next(SETTLE)),
    Call(Fault(None)),
    Rom(0, Outcome(AGAIN)),
    Call(Fault(Some(Faults::SlaveDead { slave: 0 }))),
    Rom(0, Next(RomNext::Stop)),
    Disk(Waits(Stop)),
    Submit(Alias(0, 2), Err(SubmitRefusal::Closed)),
    Call(Migrate(false)),
];

/// Two are refused, and one has no runs.
const WITHOUT_RUNS: &[Event] = &[
    Submit(Swap(2, 2), Err(SAME_SLAVE)),
    Submit(Swap(3, 3), Err(NO_SLAVE)),
    Submit(Alias(0, 0), Ok(0)),
    Disk(Append(8, 18, 0)),
    Call(Status(1, 1, 1, 18)),
    Rom(0, Next(RomNext::Idle)),
    Disk(Retire(8)),
    Call(Status(1, 1, 1, 0)),
];

/// Three commands in one batch name each word of two slaves twice. The first is settled before any word is written: the second
/// takes its alias away again.
const ONCE: &[Event] = &[
    Submit(Alias(0, 1), Ok(0)),
    Submit(Swap(0, 1), Ok(1)),
    Submit(Group(&[(2, 7), (0, 9)]), Ok(2)),
    Disk(Append(8, 118, 0)),
    Call(Status(3, 3, 1, 118)),
    Rom(0, Serves(2, 9)),
    Rom(1, Serves(2, 1)),
    Rom(2, Serves(2, 7)),
    Call(Status(3, 3, 3, 118)),
];

/// Lines with an empty journal, and the calls of their books.
const SERVED: &[Case] = &[
    (
        Line {
            slaves: &[ONE, ZERO],
            header: [0xa5, 2, 2, 0, 0, 0x10, 0, 0],
            ..ALONE
        },
        SWAPPED,
    ),
    (ALONE, OUT_OF_ORDER),
    (ALONE, AGAIN_ONCE),
    (ALONE, GIVEN_UP),
    (
        Line {
            slaves: &[ZERO, ZERO, ZERO],
            header: [0xa5, 2, 3, 0, 0, 0x10, 0, 0],
            ..ALONE
        },
        WITHOUT_RUNS,
    ),
    (
        Line {
            slaves: &[ZERO, ZERO, ZERO],
            header: [0xa5, 2, 3, 0, 0, 0x10, 0, 0],
            ..ALONE
        },
        ONCE,
    ),
];

#[test]
fn commands_are_served(rt: HostRuntime) {
    all_reported(&rt, rt.alloc(), SERVED, Ample);
}

#[test]
fn commands_are_served_after_a_refused_growth(rt: HostRuntime) {
    all_reported(&rt, rt.alloc(), SERVED, RefusedOnce);
}

/// The last byte of a half of 2,048 bytes stays free: a batch has an even number of bytes, and a closed gate after it.
const FILLED: &[Event] = &[
    Submit(Image((0, 0x30), 1012, 0x1111), Err(SubmitRefusal::TooLarge)),
    Submit(Image((0, 0x30), 1011, 0x1111), Ok(0)),
    Disk(Append(8, 2046, 0)),
    Call(Status(1, 1, 0, 2046)),
    Submit(Image((0, 0x30), 1011, 0x2222), Ok(1)),
    Disk(Append(2056, 2046, 1)),
    Call(Status(2, 2, 0, 4092)),
    Submit(Alias(0, 2), Err(SubmitRefusal::Full)),
    Rom(0, Serves(1011, 0)),
    Disk(Did(Close(8))),
    Submit(Alias(0, 2), Err(SubmitRefusal::Full)),
    Disk(Did(Sync)),
    Submit(Alias(0, 2), Ok(2)),
    Disk(Append(8, 34, 2)),
    Rom(0, Serves(2, 2)),
];

/// One half is live and full, and a batch is being appended that fills the other: a command has room once the first half is retired.
const FILLING: &[Event] = &[
    Submit(Image((0, 0x30), 1011, 0x1111), Ok(0)),
    Disk(Append(8, 2046, 0)),
    Submit(Image((0, 0x30), 1011, 0x2222), Ok(1)),
    Disk(Did(Write(2057, 2046, 1))),
    Submit(Alias(0, 2), Err(SubmitRefusal::Full)),
    Disk(Did(Sync)),
    Disk(Did(Open(2056))),
    Submit(Alias(0, 2), Err(SubmitRefusal::Full)),
    Disk(Did(Sync)),
    Rom(0, Serves(1011, 0)),
    Disk(Retire(8)),
    Submit(Alias(0, 2), Ok(2)),
    Disk(Append(8, 34, 2)),
    Rom(0, Serves(2, 2)),
];

/// While a batch is being appended, a command goes into a batch of its own, which has room after it.
const AFTER: &[Event] = &[
    Submit(Image((0, 0x30), 900, 0x1111), Ok(0)),
    Disk(Did(Write(9, 1824, 0))),
    Submit(Image((0, 0x30), 1011, 0x2222), Ok(1)),
    Submit(Alias(0, 2), Err(SubmitRefusal::Full)),
    Disk(Did(Sync)),
    Disk(Did(Open(8))),
    Disk(Did(Sync)),
    Disk(Append(2056, 2046, 1)),
];

/// A half of 2,049 bytes is filled to its last one.
const FILLED_WHOLLY: &[Event] = &[
    Submit(Image((0, 0x30), 1013, 0x1111), Err(SubmitRefusal::TooLarge)),
    Submit(Image((0, 0x30), 1012, 0x1111), Ok(0)),
    Disk(Append(8, 2048, 0)),
    Submit(Image((0, 0x30), 1012, 0x2222), Ok(1)),
    Disk(Append(2057, 2048, 1)),
    Submit(Alias(0, 0), Err(SubmitRefusal::Full)),
];

/// An image that gives the slave alias 1, and then alias 2 in the other half: alias 1 is never written.
const OVERWRITTEN: &[Event] = &[
    Submit(Image((1, 0x19), 1000, 0x1111), Ok(0)),
    Disk(Append(8, 2040, 0)),
    Submit(Alias(0, 2), Ok(1)),
    Disk(Append(2056, 34, 1)),
    Rom(0, Serves(1002, 2)),
    Call(Status(2, 2, 2, 2074)),
    Disk(Retire(8)),
    Call(Status(2, 2, 2, 34)),
    Disk(Retire(2056)),
];

/// Generation 0 follows generation 255: found in half 1, found in half 0, and reached by appending.
const NEWER_SECOND: &[Event] = &[
    Call(Status(0, 0, 0, 36)),
    Submit(Alias(0, 1), Ok(0)),
    Disk(Append(2074, 34, 0)),
    Disk(Retire(8)),
    Call(Status(1, 1, 0, 52)),
    Disk(Waits(Idle)),
];

const NEWER_FIRST: &[Event] = &[
    Submit(Alias(0, 1), Ok(0)),
    Disk(Append(26, 34, 0)),
    Disk(Retire(2056)),
    Disk(Waits(Idle)),
];

const COME_TO: &[Event] = &[
    Submit(Image((0, 0x30), 1011, 0x1111), Ok(0)),
    Disk(Append(2056, 2046, 0)),
    Disk(Retire(8)),
    Disk(Waits(Idle)),
];

/// Journals with something live in them, or with a large area to fill, and the calls of their books.
const HALVES: &[Case] = &[
    (LONG_ALONE, FILLED),
    (LONG_ALONE, FILLING),
    (LONG_ALONE, AFTER),
    (
        Line {
            slaves: &[LONG],
            header: [0xa5, 2, 1, 0, 3, 0x10, 0, 0],
            half: 2049,
            ..ALONE
        },
        FILLED_WHOLLY,
    ),
    (LONG_ALONE, OVERWRITTEN),
    (
        Line {
            first: OF_255,
            second: OF_0,
            ..ALONE
        },
        NEWER_SECOND,
    ),
    (
        Line {
            first: OF_0,
            second: OF_255,
            ..ALONE
        },
        NEWER_FIRST,
    ),
    (
        Line {
            slaves: &[LONG],
            first: OF_255,
            ..ALONE
        },
        COME_TO,
    ),
];

#[test]
fn halves_are_filled_and_retired(rt: HostRuntime) {
    all_reported(&rt, rt.alloc(), HALVES, Ample);
}

#[test]
fn halves_are_filled_after_a_refused_growth(rt: HostRuntime) {
    all_reported(&rt, rt.alloc(), HALVES, RefusedOnce);
}

/// A slave gets alias 1, as a batch of version 1.
const PLAIN: &[u8] = &[
    0xa5, 0x1c, 0, 0, 0, 1, 0, 0, 0, 0, 0, 0, 0, 0, 0, 2, 0, 0, 0, 4, 0, 1, 0, 1, 0, 0, 0, 7, 0, 1,
    0, 0x19, 0,
];

/// A closed gate and the mark of a migration.
const MARK: &[u8] = &[0, 0x4d, 0x49, 0x47, 0x32];

/// What is live is retired, and then the journal is migrated.
const MIGRATED: &[Event] = &[
    Submit(Alias(0, 2), Err(SubmitRefusal::OldJournal)),
    Call(Migrate(true)),
    Call(Status(0, 0, 0, 33)),
    Rom(0, Serves(2, 1)),
    Disk(Retire(8)),
    Disk(Did(Close(2056))),
    Disk(Did(Write(9, 4, 0x4d))),
    Disk(Did(Sync)),
    Disk(Did(Write(1, 1, 2))),
    Submit(Alias(0, 2), Err(SubmitRefusal::OldJournal)),
    Disk(Did(Sync)),
    Call(Migrate(false)),
    Submit(Alias(0, 2), Ok(0)),
    Disk(Append(8, 34, 0)),
    Rom(0, Serves(2, 2)),
    Call(Status(1, 1, 1, 34)),
];

/// A migration that was cut runs again without writing the mark.
const MIGRATED_ON: &[Event] = &[
    Submit(Alias(0, 1), Err(SubmitRefusal::OldJournal)),
    Disk(Waits(Idle)),
    Call(Migrate(true)),
    Disk(Did(Close(2056))),
    Disk(Did(Sync)),
    Disk(Did(Write(1, 1, 2))),
    Disk(Did(Sync)),
    Submit(Alias(0, 1), Ok(0)),
];

/// A slave with managers 2 and 3 for process data, an RxPDO of 8 bits and a TxPDO of 32, and one with a TxPDO of 12 bits.
const DRIVE: Slave = (
    256,
    &[
        (
            128,
            &[
                0x29, 0, 16, 0, 0, 0x10, 0x80, 0, 0x26, 0, 1, 1, 0x80, 0x10, 0x80, 0, 0x22, 0, 1,
                2, 0, 0x11, 1, 0, 0x24, 0, 1, 3, 0x80, 0x11, 4, 0, 0x20, 0, 1, 4,
            ],
        ),
        (
            164,
            &[
                0x33, 0, 8, 0, 0, 0x16, 1, 2, 0, 0, 0, 0, 0, 0x70, 1, 0, 5, 8, 0, 0,
            ],
        ),
        (
            184,
            &[
                0x32, 0, 12, 0, 0, 0x1a, 2, 3, 0, 0, 0, 0, 0, 0x60, 1, 0, 6, 0x10, 0, 0, 0, 0x60,
                2, 0, 6, 0x10, 0, 0, 0xFF, 0xFF,
            ],
        ),
    ],
);

const SENSOR: Slave = (
    256,
    &[
        (128, &[0x29, 0, 4, 0, 0, 0x10, 2, 0, 0x20, 0, 1, 4]),
        (
            140,
            &[
                0x32, 0, 8, 0, 0, 0x1a, 1, 0, 0, 0, 0, 0, 0, 0x60, 1, 0, 0, 0x0c, 0, 0, 0xFF, 0xFF,
            ],
        ),
    ],
);

/// The process image follows the settled commands one by one: the sensor's input grows to 20 bits.
const PLANNED: &[Event] = &[
    Call(Plan(0, 1, 6)),
    Submit(Inputs(1, &[0x1a00, 1, 0, 0, 0x6000, 1, 0x1400, 0]), Ok(0)),
    Submit(Alias(0, 1), Ok(1)),
    Disk(Append(8, 52, 0)),
    Call(Plan(0, 1, 6)),
    Rom(1, Serves(1, 0)),
    Call(Plan(1, 1, 7)),
    Rom(0, Serves(2, 1)),
    Call(Plan(2, 1, 7)),
];

const CELL: Line = Line {
    slaves: &[DRIVE, SENSOR],
    header: [0xa5, 2, 2, 0, 0, 0x10, 0, 0],
    ..ALONE
};

/// Old journals and a line with process data, and the calls of their books.
const OLD: &[Case] = &[
    (
        Line {
            header: [0xa5, 1, 1, 0, 0, 0x10, 0, 0],
            first: PLAIN,
            ..ALONE
        },
        MIGRATED,
    ),
    (
        Line {
            header: [0xa5, 0x77, 1, 0, 0, 0x10, 0, 0],
            first: MARK,
            ..ALONE
        },
        MIGRATED_ON,
    ),
    (CELL, PLANNED),
];

#[test]
fn old_journals_are_migrated_and_the_process_image_follows(rt: HostRuntime) {
    all_reported(&rt, rt.alloc(), OLD, Ample);
}

#[test]
fn old_journals_are_migrated_after_a_refused_growth(rt: HostRuntime) {
    all_reported(&rt, rt.alloc(), OLD, RefusedOnce);
}

const WIDE: Line = Line {
    header: [0xa5, 2, 1, 0, 0, 0, 1, 0],
    half: 32_768,
    ..ALONE
};

/// A full queue goes into one batch.
const QUEUED: &[Event] = &[
    Fill(Alias(0, 0), 1024),
    Submit(Alias(9, 0), Err(NO_SLAVE)),
    Submit(Alias(0, 0), Err(SubmitRefusal::Full)),
    Disk(Append(8, 10_248, 0)),
    Call(Status(1024, 1024, 1024, 10_248)),
    Submit(Alias(0, 0), Ok(1024)),
];

const QUEUES: &[Case] = &[(WIDE, QUEUED)];

#[test]
fn the_queue_holds_1024_commands(rt: HostRuntime) {
    all_reported(&rt, rt.alloc(), QUEUES, Ample);
}

#[test]
fn the_queue_is_filled_after_a_refused_growth(rt: HostRuntime) {
    all_reported(&rt, rt.alloc(), QUEUES, RefusedOnce);
}
