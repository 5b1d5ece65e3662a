//! Calls of the library for C on word access in steps.

use rom_steps::calls::{issue, next, open, read, settle, take_answer, take_loss, take_stop};
use rom_steps::{Access, ToSend};

/// What begins an access.
#[derive(Clone, Copy)]
enum Begun {
    Nothing,
    Opening,
    Reading,
    Issuing,
    Settling(bool),
}

/// What comes back for a datagram.
#[derive(Clone, Copy)]
enum Came {
    Answer(u16, &'static [u8]),
    Loss,
    Stop,
}

/// What is begun, what comes back for each datagram, and the codes: of the last one that came back, and of what is next.
type Run = (Begun, &'static [Came], u32, u32);

const RUNS: &[Run] = &[
    (Begun::Nothing, &[Came::Loss], 110, 110),
    (
        Begun::Opening,
        &[
            Came::Answer(1, &[2]),
            Came::Answer(1, &[0]),
            Came::Answer(1, &[0, 0]),
            Came::Answer(1, &[0, 0]),
        ],
        0,
        101,
    ),
    (
        Begun::Opening,
        &[Came::Loss, Came::Answer(0, &[2]), Came::Loss],
        0,
        43,
    ),
    (Begun::Opening, &[Came::Answer(1, &[2, 0])], 111, 100),
    (Begun::Opening, &[Came::Loss, Came::Stop], 0, 42),
    (
        Begun::Reading,
        &[
            Came::Answer(1, &[0, 1, 8, 0, 0, 0]),
            Came::Answer(1, &[0, 0x80]),
            Came::Answer(1, &[0, 0]),
            Came::Answer(1, &[1, 2, 3, 4]),
        ],
        0,
        102,
    ),
    (
        Begun::Reading,
        &[Came::Loss, Came::Answer(0, &[0, 1, 8, 0, 0, 0]), Came::Loss],
        0,
        43,
    ),
    (
        Begun::Issuing,
        &[Came::Answer(1, &[1, 2, 4, 0, 0, 0, 7, 0])],
        0,
        103,
    ),
    (
        Begun::Issuing,
        &[Came::Answer(0, &[1, 2, 4, 0, 0, 0, 7, 0])],
        0,
        104,
    ),
    (Begun::Issuing, &[Came::Loss], 0, 41),
    (Begun::Settling(true), &[Came::Answer(1, &[0, 0])], 0, 105),
    (
        Begun::Settling(true),
        &[Came::Answer(1, &[0, 0x20]), Came::Answer(1, &[0, 0])],
        0,
        106,
    ),
    (
        Begun::Settling(false),
        &[Came::Answer(1, &[0, 0]), Came::Loss],
        0,
        106,
    ),
    (
        Begun::Settling(true),
        &[Came::Answer(1, &[0, 0]), Came::Loss],
        110,
        105,
    ),
];

fn begin(begun: Begun) -> Access {
    let mut access = Access {
        phase: 0,
        more: 0,
        tries: 0,
        first: 0,
        second: 0,
    };
    match begun {
        Begun::Nothing => {}
        Begun::Opening => open(&mut access),
        Begun::Reading => read(&mut access, 8),
        Begun::Issuing => issue(&mut access, 4, 7),
        Begun::Settling(taken) => settle(&mut access, taken),
    }
    access
}

/// Whether a run ends with its codes.
fn ends_so(run: &Run) -> bool {
    let (begun, came, wanted, end) = *run;
    let mut access = begin(begun);
    let mut last = 0;
    for back in came {
        last = match *back {
            Came::Answer(counter, content) => take_answer(&mut access, counter, content),
            Came::Loss => take_loss(&mut access),
            Came::Stop => take_stop(&mut access),
        };
    }
    let mut sent = ToSend {
        command: 0,
        length: 0,
        register: 0,
        content: [0; 8],
    };
    last == wanted && next(&access, &mut sent) == end
}

#[test]
fn accesses_end_with_their_codes(rt: HostRuntime) {
    for run in RUNS {
        assert!(rt; ends_so(run));
    }
}
