//! EEPROMs that are handed back, also where the site has stopped before.

use crate::bench::{Act, BLANK, NO_TROUBLE, Run, Slave, Trouble, WELL, WRITE_NEW, came_of};
use site_shadow::Pattern;
use std::alloc::Global;
use wire_frames::Handed;
use wire_practice::{Fate, Mishap, NO_QUIRKS, Quirks};

// A slave whose PDI hasn't the EEPROM, as the first and as the second one of a line. Each keeps its station address without power.
const OURS: Slave = Slave {
    quirks: Quirks {
        station: Some(0x1001),
        ..NO_QUIRKS
    },
    ..BLANK
};

const SECOND_OURS: Slave = Slave {
    quirks: Quirks {
        station: Some(0x1002),
        ..NO_QUIRKS
    },
    ..BLANK
};

// The same of slaves whose PDI has it.
const HELD: Slave = Slave {
    quirks: Quirks {
        station: Some(0x1001),
        is_held: true,
        ..NO_QUIRKS
    },
    ..BLANK
};

const SECOND_HELD: Slave = Slave {
    quirks: Quirks {
        station: Some(0x1002),
        is_held: true,
        ..NO_QUIRKS
    },
    ..BLANK
};

// One that loses its station address with the power.
const LOST: Slave = Slave {
    quirks: Quirks {
        is_held: true,
        ..NO_QUIRKS
    },
    ..BLANK
};

// The power is cut in the midst of the first word.
const CUT: Trouble = Trouble {
    mishap: WELL,
    cut: Some((0, Pattern::Old)),
};

const SILENT: Trouble = Trouble {
    mishap: Mishap {
        passing: 0,
        failing: 3,
        fate: Fate::LostBefore,
    },
    cut: None,
};

// No frame comes back any more, up to the end or for two tries.
const ALL_LOST: Trouble = Trouble {
    mishap: Mishap {
        passing: 0,
        failing: u32::MAX,
        fate: Fate::LostBefore,
    },
    cut: None,
};

const TWO_LOST: Trouble = Trouble {
    mishap: Mishap {
        passing: 0,
        failing: 2,
        fate: Fate::LostBefore,
    },
    cut: None,
};

// Two frames or three come back with a counter of 0 in place of 1.
const TWO_UNCOUNTED: Trouble = Trouble {
    mishap: Mishap {
        passing: 0,
        failing: 2,
        fate: Fate::Turned(13, 1),
    },
    cut: None,
};

const THREE_UNCOUNTED: Trouble = Trouble {
    mishap: Mishap {
        passing: 0,
        failing: 3,
        fate: Fate::Turned(13, 1),
    },
    cut: None,
};

// Two slaves; what goes wrong as words are written to the first one; how many of the three are written; what goes wrong as the slaves are
// handed back; and what becomes of the access to their EEPROMs.
type Case = (&'static [Slave], Trouble, usize, Trouble, [Handed; 2]);

const CASES: &[Case] = &[
    (
        &[OURS, SECOND_HELD],
        NO_TROUBLE,
        3,
        NO_TROUBLE,
        [Handed::Nothing, Handed::Back],
    ),
    (
        &[HELD, SECOND_OURS],
        NO_TROUBLE,
        3,
        NO_TROUBLE,
        [Handed::Back, Handed::Nothing],
    ),
    // The site has stopped: no frame came back, or the power was cut.
    (
        &[HELD, SECOND_OURS],
        SILENT,
        0,
        NO_TROUBLE,
        [Handed::Back, Handed::Nothing],
    ),
    (
        &[HELD, SECOND_OURS],
        CUT,
        0,
        NO_TROUBLE,
        [Handed::Back, Handed::Nothing],
    ),
    (
        &[HELD, LOST],
        CUT,
        0,
        NO_TROUBLE,
        [Handed::Back, Handed::Uncounted],
    ),
    (
        &[LOST, SECOND_HELD],
        CUT,
        0,
        NO_TROUBLE,
        [Handed::Uncounted, Handed::Back],
    ),
    // No frame comes back as they are handed back.
    (
        &[HELD, LOST],
        SILENT,
        0,
        ALL_LOST,
        [Handed::Silent, Handed::Silent],
    ),
    (
        &[OURS, SECOND_HELD],
        SILENT,
        0,
        ALL_LOST,
        [Handed::Nothing, Handed::Silent],
    ),
    (
        &[HELD, LOST],
        SILENT,
        0,
        TWO_LOST,
        [Handed::Back, Handed::Back],
    ),
    // The write isn't counted, twice or in each of three tries.
    (
        &[HELD, LOST],
        SILENT,
        0,
        TWO_UNCOUNTED,
        [Handed::Back, Handed::Back],
    ),
    (
        &[HELD, LOST],
        SILENT,
        0,
        THREE_UNCOUNTED,
        [Handed::Uncounted, Handed::Back],
    ),
];

// Whether so many words are written, and this becomes of the access. None: the line isn't brought up, or memory was refused.
fn is_handed_so(alloc: Global, case: &Case) -> Option<bool> {
    let (slaves, trouble, count, after, handed) = *case;
    let run = Run {
        slaves,
        trouble,
        act: WRITE_NEW,
        after: Some(after),
        then: Act::Nothing,
    };
    let came = came_of(alloc, &run)?;
    Some(came.first.outcome.count == count && [came.handed[0], came.handed[1]] == handed)
}

#[test]
fn eeproms_are_handed_back(rt: HostRuntime) {
    for case in CASES {
        assert!(rt; is_handed_so(rt.alloc(), case) == Some(true));
    }
}
