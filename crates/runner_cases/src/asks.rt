//! Commands as rows of a table.

use sii_edit::{Command, Edit, EditList, GuardedEdit, GuardedEditList, WordList};
use sii_words::ImageFile;
use std::alloc::Global;

/// A command.
#[derive(Clone, Copy)]
pub enum Ask {
    /// Slave and alias.
    Alias(u16, u16),
    Swap(u16, u16),
    /// Slave and alias of each edit of a group.
    Group(&'static [(u16, u16)]),
    /// Slave and alias of each edit of a guarded group that expects no identity.
    Guarded(&'static [(u16, u16)]),
    /// An image of slave 0 with this alias and check byte and an end mark in word 64. After it this number of words have this in both
    /// bytes.
    Image((u8, u8), u16, u8),
    /// An RXPDO of slave 0 for its first sync manager: 46 entries of 255 bits, and one of this many.
    Outputs(u8),
}

fn group(alloc: Global, aliases: &[(u16, u16)]) -> Option<Command> {
    let mut edits = Vec::new(alloc);
    for (slave, value) in aliases {
        let edit = Edit::Alias {
            slave: *slave,
            value: *value,
        };
        edits.push(edit).ok()?;
    }
    Some(Command::Group(EditList::from_vec(edits)))
}

fn guarded(alloc: Global, aliases: &[(u16, u16)]) -> Option<Command> {
    let mut edits = Vec::new(alloc);
    for (slave, value) in aliases {
        let edit = Edit::Alias {
            slave: *slave,
            value: *value,
        };
        edits.push(GuardedEdit { expect: None, edit }).ok()?;
    }
    Some(Command::Guarded(GuardedEditList::from_vec(edits)))
}

fn image(alloc: Global, name: (u8, u8), count: u16, fill: u8) -> Option<Command> {
    let mut front = [0u8; 130];
    front[8] = name.0;
    front[14] = name.1;
    front[128] = 0xff;
    front[129] = 0xff;
    let mut bytes = Vec::from_slice(alloc, &front).ok()?;
    bytes.resize(130 + 2 * usize::from(count), fill).ok()?;
    let image = ImageFile::from_bytes(alloc, &bytes).ok()?;
    Some(Command::One(Edit::Image { slave: 0, image }))
}

fn outputs(alloc: Global, last: u8) -> Option<Command> {
    let mut words = Vec::from_slice(alloc, &[0x1600, 47, 0, 0]).ok()?;
    for _entry in 0..46u8 {
        words.extend_from_slice(&[0x7000, 1, 0xff05, 0]).ok()?;
    }
    let last = u16::from_le_bytes([5, last]);
    words.extend_from_slice(&[0x7000, 1, last, 0]).ok()?;
    Some(Command::One(Edit::Category {
        slave: 0,
        kind: 51,
        words: WordList::from_vec(words),
    }))
}

/// The command. None: memory was refused.
pub fn command(alloc: Global, ask: &Ask) -> Option<Command> {
    match *ask {
        Ask::Alias(slave, value) => Some(Command::One(Edit::Alias { slave, value })),
        Ask::Swap(a, b) => Some(Command::Swap { a, b }),
        Ask::Group(aliases) => group(alloc, aliases),
        Ask::Guarded(aliases) => guarded(alloc, aliases),
        Ask::Image(name, count, fill) => image(alloc, name, count, fill),
        Ask::Outputs(last) => outputs(alloc, last),
    }
}
