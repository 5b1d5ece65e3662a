//! Commands as rows of a table.

use crate::line::patch;
use book_core::Core;
use book_model::SubmitRefusal;
use sii_edit::{Cause, Command, Edit, EditList, WordList};
use sii_words::ImageFile;
use std::alloc::Global;

/// A command.
#[derive(Clone, Copy)]
pub(crate) enum Ask {
    /// Slave and alias.
    Alias(u16, u16),
    Swap(u16, u16),
    /// Slave and alias of each edit of a group.
    Group(&'static [(u16, u16)]),
    /// An image of slave 0 with this alias and check byte and an end mark in word 64. After it this number of words have this value.
    Image((u8, u8), usize, u16),
    /// Slave, and the words of its TxPDO category.
    Inputs(u16, &'static [u16]),
}

fn group(alloc: Global, aliases: &[(u16, u16)]) -> Option<Command> {
    let mut edits = Vec::new(alloc);
    for (slave, value) in aliases {
        edits
            .push(Edit::Alias {
                slave: *slave,
                value: *value,
            })
            .ok()?;
    }
    Some(Command::Group(EditList::from_vec(edits)))
}

/// An image with at most 1,015 words after word 64.
fn image(alloc: Global, name: (u8, u8), count: usize, value: u16) -> Option<Command> {
    if count > 1015 {
        return None;
    }
    let mut bytes = [0u8; 2160];
    patch(&mut bytes, 8, &[name.0]);
    patch(&mut bytes, 14, &[name.1]);
    patch(&mut bytes, 128, &[0xFF, 0xFF]);
    for word in 0..count {
        patch(&mut bytes, 130 + 2 * word, &value.to_le_bytes());
    }
    match ImageFile::from_bytes(alloc, &bytes[..130 + 2 * count]) {
        Ok(image) => Some(Command::One(Edit::Image { slave: 0, image })),
        Err(_fault) => None,
    }
}

fn inputs(alloc: Global, slave: u16, words: &[u16]) -> Option<Command> {
    match words.to_vec(alloc) {
        Ok(words) => Some(Command::One(Edit::Category {
            slave,
            kind: 50,
            words: WordList::from_vec(words),
        })),
        Err(_refused) => None,
    }
}

fn command(alloc: Global, ask: &Ask) -> Option<Command> {
    match *ask {
        Ask::Alias(slave, value) => Some(Command::One(Edit::Alias { slave, value })),
        Ask::Swap(a, b) => Some(Command::Swap { a, b }),
        Ask::Group(aliases) => group(alloc, aliases),
        Ask::Image(name, count, value) => image(alloc, name, count, value),
        Ask::Inputs(slave, words) => inputs(alloc, slave, words),
    }
}

/// The answer. None: memory was refused.
fn with_memory(answer: Result<u64, SubmitRefusal>) -> Option<Result<u64, SubmitRefusal>> {
    match answer {
        Err(SubmitRefusal::Command(refusal)) if refusal.cause == Cause::Memory => None,
        _ => Some(answer),
    }
}

/// What a book answers to a command. None: memory was refused.
pub(crate) fn submit(
    alloc: Global,
    core: &mut Core,
    ask: &Ask,
) -> Option<Result<u64, SubmitRefusal>> {
    match command(alloc, ask) {
        Some(command) => with_memory(core.submit(&command)),
        None => None,
    }
}
