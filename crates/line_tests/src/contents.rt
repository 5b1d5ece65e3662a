//! Contents of categories, read and written again.

use sii_cats::kind::{FMMUS, RXPDOS, STRINGS, SYNC_MANAGERS, TXPDOS};
use sii_cats::{
    CatFault, FmmuUnit, fmmus, pdos, strings, syncms, write_fmmus, write_pdos, write_strings,
    write_syncms,
};
use std::alloc::Global;

/// A type, a content, and what it is once it is read and written again, or why it can't be read.
type Case = (u16, &'static [u16], Result<&'static [u16], CatFault>);

/// Two texts, and four units.
const TEXTS: &[u16] = &[0x0202, 0x4C45, 0x4902, 0x006E];

const UNITS: &[u16] = &[0x0201, 0x03FF];

/// Mailbox out and in, outputs, inputs; and inputs alone.
const MANAGERS: &[u16] = &[
    0x1000, 0x80, 0x26, 0x0101, 0x1080, 0x80, 0x22, 0x0201, 0x1100, 1, 0x24, 0x0301, 0x1180, 4,
    0x20, 0x0401,
];

const MANAGER: &[u16] = &[0x1000, 2, 0x20, 0x0401];

/// PDOs of an entry of 8 bits, of two entries of 16, and of an entry of 12.
const OUTPUT: &[u16] = &[0x1600, 0x0201, 0, 0, 0x7000, 1, 0x0805, 0];

const TWO_INPUTS: &[u16] = &[
    0x1A00, 0x0302, 0, 0, 0x6000, 1, 0x1006, 0, 0x6000, 2, 0x1006, 0,
];

const INPUT: &[u16] = &[0x1A00, 0x0001, 0, 0, 0x6000, 1, 0x0C00, 0];

const CASES: &[Case] = &[
    (STRINGS, TEXTS, Ok(TEXTS)),
    // No texts are one word, and so is nothing.
    (STRINGS, &[0], Ok(&[0])),
    (STRINGS, &[], Ok(&[0])),
    (FMMUS, UNITS, Ok(UNITS)),
    (SYNC_MANAGERS, MANAGERS, Ok(MANAGERS)),
    (SYNC_MANAGERS, MANAGER, Ok(MANAGER)),
    (RXPDOS, OUTPUT, Ok(OUTPUT)),
    (TXPDOS, TWO_INPUTS, Ok(TWO_INPUTS)),
    (TXPDOS, INPUT, Ok(INPUT)),
    // An RXPDO that ends inside its entry, and its first three words, which are no PDO.
    (
        RXPDOS,
        &[0x1600, 1, 0, 0, 0x7000],
        Err(CatFault::BadCategory { kind: RXPDOS }),
    ),
    (RXPDOS, &[0x1600, 1, 0], Ok(&[])),
    // A text that is cut off.
    (
        STRINGS,
        &[0x0202, 0x4C45],
        Err(CatFault::BadCategory { kind: STRINGS }),
    ),
];

/// The content, read and written again.
fn rewritten(alloc: Global, kind: u16, words: &[u16]) -> Result<Vec<u16>, CatFault> {
    match kind {
        STRINGS => write_strings(alloc, &strings(alloc, words)?),
        FMMUS => Ok(write_fmmus(alloc, &fmmus(alloc, words)?)?),
        SYNC_MANAGERS => Ok(write_syncms(alloc, &syncms(alloc, words)?)?),
        _ => write_pdos(alloc, kind, &pdos(alloc, kind, words)?),
    }
}

fn comes(alloc: Global, case: &Case) -> bool {
    let (kind, words, wanted) = *case;
    match rewritten(alloc, kind, words) {
        Ok(written) => matches!(wanted, Ok(wanted) if written.as_slice() == wanted),
        Err(CatFault::BadCategory { kind: refused }) => {
            matches!(wanted, Err(CatFault::BadCategory { kind }) if kind == refused)
        }
        Err(_fault) => false,
    }
}

/// Whether one unit is written as one word.
fn is_padded(alloc: Global) -> bool {
    match write_fmmus(alloc, &[FmmuUnit { byte: 1 }]) {
        Ok(words) => words.as_slice() == [0x0001].as_slice(),
        Err(_refused) => false,
    }
}

#[test]
fn contents_are_read_and_written(rt: HostRuntime) {
    for case in CASES {
        assert!(rt; comes(rt.alloc(), case));
    }
    assert!(rt; is_padded(rt.alloc()));
}
