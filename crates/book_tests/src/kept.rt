//! Whether what a power cut leaves is kept, checked by the definition.

use crate::contents::{Contents, held, put};
use jrn_format::{Batch, Entry, Journal, scan};
use std::alloc::Global;
use world_run::World;

/// What callers know of a session: the contents that it began with and those after each accepted command, and how many commands
/// are acknowledged.
#[derive(Drop)]
pub(crate) struct Session {
    pub(crate) contents: Vec<Contents>,
    pub(crate) acknowledged: u64,
}

impl Session {
    /// A session that is not begun.
    pub(crate) fn of(alloc: Global) -> Session {
        Session {
            contents: Vec::new(alloc),
            acknowledged: 0,
        }
    }

    /// Begins a session with these contents. False if memory was refused.
    pub(crate) fn begin(&mut self, base: Contents) -> bool {
        self.contents.clear();
        self.acknowledged = 0;
        self.contents.push(base).is_ok()
    }

    /// The contents after all accepted commands.
    pub(crate) fn last(&self) -> Contents {
        *self.contents.last().unwrap_or(&[[0; 64]; 2])
    }

    /// Whether these are the contents after a prefix of the accepted commands with every acknowledged one in it.
    pub(crate) fn has(&self, contents: &Contents) -> bool {
        for count in 0..self.contents.len() {
            if count as u64 >= self.acknowledged && self.contents[count] == *contents {
                return true;
            }
        }
        false
    }
}

fn redo_entry(contents: &mut Contents, entry: &Entry) {
    for run in entry.runs.as_slice() {
        put(
            contents,
            usize::from(run.slave),
            usize::from(run.first),
            run.words.as_slice(),
        );
    }
}

fn redo_batch(contents: &mut Contents, batch: &Batch) {
    for entry in batch.entries.as_slice() {
        redo_entry(contents, entry);
    }
}

fn redo_journal(contents: &mut Contents, journal: &Journal) {
    for batch in journal.batches.as_slice() {
        redo_batch(contents, batch);
    }
}

/// Whether redo of what is live on the disk makes of these contents some after a prefix of the session's commands.
fn is_redone(alloc: Global, disk: &[u8], contents: &mut Contents, session: &Session) -> bool {
    match scan(alloc, disk, &[64, 64]) {
        Ok(journal) => {
            redo_journal(contents, &journal);
            session.has(contents)
        }
        Err(_fault) => false,
    }
}

/// Whether what a power cut has left is kept: the disk has a journal, and redo of what is live in it gives contents after a prefix of
/// the session's commands.
pub(crate) fn is_kept(alloc: Global, world: &World, session: &Session) -> bool {
    match held(world) {
        Some(mut contents) => is_redone(alloc, world.disk(), &mut contents, session),
        None => false,
    }
}
