//! Chains of categories, and edits that would leave a malformed one.

use crate::devices::{BOTH, CHECKED, Device, INPUTS, NAMED, NOTHING, line_of, words_of};
use sii_cats::kind::{END, RXPDOS, STRINGS, SYNC_MANAGERS, TXPDOS};
use sii_cats::{Category, chain};
use sii_edit::{Cause, Command, Edit, EditList, Refusal, WordList, changes};
use sii_image::Layout;
use sii_words::Plant;
use std::alloc::Global;

/// A category that fills 128 words, and leaves no end mark.
const FILLING: Device = Device {
    front: NAMED,
    categories: &[51, 0, 62, 0],
    size: 256,
};

/// The categories of a device, each with its type, the number of its type word and the length of its content in words.
#[derive(Clone, Copy)]
struct Chain {
    device: Device<'static>,
    categories: &'static [Category],
}

const CHAINS: &[Chain] = &[
    Chain {
        device: BOTH,
        categories: &[
            Category {
                kind: SYNC_MANAGERS,
                at: 64,
                count: 16,
            },
            Category {
                kind: RXPDOS,
                at: 82,
                count: 8,
            },
            Category {
                kind: TXPDOS,
                at: 92,
                count: 12,
            },
        ],
    },
    Chain {
        device: INPUTS,
        categories: &[
            Category {
                kind: SYNC_MANAGERS,
                at: 64,
                count: 4,
            },
            Category {
                kind: TXPDOS,
                at: 70,
                count: 8,
            },
        ],
    },
    Chain {
        device: FILLING,
        categories: &[Category {
            kind: RXPDOS,
            at: 64,
            count: 62,
        }],
    },
];

/// Whether the categories of the device are these.
fn is_read(alloc: Global, row: &Chain) -> bool {
    let Some(words) = words_of(alloc, &row.device) else {
        return false;
    };
    match chain(alloc, words.as_slice()) {
        Ok(read) => read.as_slice() == row.categories,
        Err(_fault) => false,
    }
}

/// An alias for slave 0, if there is one, and after it a category that is malformed, or whose type none may have, in one group of edits.
#[derive(Clone, Copy)]
struct Case {
    alias: Option<u16>,
    slave: u16,
    kind: u16,
    content: &'static [u16],
    /// Which edit of the group the category is.
    position: u8,
}

/// A slave of zeros, but for the check byte and the end mark.
const EMPTY: Device = Device {
    front: CHECKED,
    ..NOTHING
};

const EMPTY_LINE: &[Device] = &[EMPTY, EMPTY, EMPTY];

const MALFORMED: &[Case] = &[
    // A text that is cut off.
    Case {
        alias: Some(5),
        slave: 0,
        kind: STRINGS,
        content: &[0x0202, 0x4C45],
        position: 1,
    },
    Case {
        alias: None,
        slave: 2,
        kind: END,
        content: &[1],
        position: 0,
    },
];

/// The alias, if there is one, as the only edit.
fn alias_edits(alloc: Global, alias: Option<u16>) -> Option<Vec<Edit>> {
    let mut edits = Vec::new(alloc);
    if let Some(value) = alias {
        edits.push(Edit::Alias { slave: 0, value }).ok()?;
    }
    Some(edits)
}

/// The category, as an edit.
fn category_edit(alloc: Global, case: &Case) -> Option<Edit> {
    match case.content.to_vec(alloc) {
        Ok(words) => Some(Edit::Category {
            slave: case.slave,
            kind: case.kind,
            words: WordList::from_vec(words),
        }),
        Err(_refused) => None,
    }
}

/// The alias, and then the category, as a group of edits.
fn group(alloc: Global, case: &Case) -> Option<Command> {
    let mut edits = alias_edits(alloc, case.alias)?;
    edits.push(category_edit(alloc, case)?).ok()?;
    Some(Command::Group(EditList::from_vec(edits)))
}

/// Whether a command is refused for the category of the case.
fn is_for(refusal: &Refusal, case: &Case) -> bool {
    match *refusal {
        Refusal {
            cause: Cause::BadCategory { kind },
            position: Some(position),
        } => kind == case.kind && position == case.position,
        _ => false,
    }
}

/// Whether the command is refused on the line for the category of the case.
fn refuses(alloc: Global, plant: &Plant, command: &Command, case: &Case) -> bool {
    let Ok(layout) = Layout::of(alloc, plant) else {
        return false;
    };
    match changes(alloc, plant, &layout, command) {
        Ok(change) => {
            drop(change);
            false
        }
        Err(refusal) => is_for(&refusal, case),
    }
}

/// Whether the category of the case is refused on the line, with its type.
fn is_refused(alloc: Global, plant: &Plant, case: &Case) -> bool {
    match group(alloc, case) {
        Some(command) => refuses(alloc, plant, &command, case),
        None => false,
    }
}

/// Whether the categories are refused on a line of zeros.
fn are_refused(alloc: Global, cases: &[Case]) -> bool {
    let Some(plant) = line_of(alloc, EMPTY_LINE) else {
        return false;
    };
    let mut are_refused = true;
    for case in cases {
        are_refused &= is_refused(alloc, &plant, case);
    }
    are_refused
}

#[test]
fn chains_are_read_and_malformed_categories_refused(rt: HostRuntime) {
    for row in CHAINS {
        assert!(rt; is_read(rt.alloc(), row));
    }
    assert!(rt; are_refused(rt.alloc(), MALFORMED));
}
